//! The data positions of a code as a set.
ghost use Rattle.ec_model.specs.Codes.{IsCode, LiesBelow};
ghost use Rattle.stripe_map.specs.DecodingLaws.{IsDataMask};

use ec_code::Code;
use ec_words::Mask;

/// The set of the data positions.
pub fn data_set(code: &dyn Code) -> Mask
    ensures value { IsDataMask (meaning code.now) result.0 }
    ensures below { LiesBelow (meaning code.now).n result.0 }
    ensures is_code { IsCode (meaning code.now) }
{
    let mut bits = 0u16;
    for j in 0..code.shape().k {
        bits |= 1u16 << code.place(j);
    }
    Mask(bits)
}
