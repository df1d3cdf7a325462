//! The rows of a code as a table.
ghost use Rattle.ec_model.specs.Codes.{IsCode};
ghost use Rattle.read_plan.specs.Settling.{IsTable};

use ec_code::{Code, row_of};

/// The rows of a code, and zeros past them.
pub fn table(code: &dyn Code) -> [[u8; 16]; 16]
    ensures value { IsTable (meaning code.now) result }
    ensures is_code { IsCode (meaning code.now) }
{
    let mut rows = [[0u8; 16]; 16];
    for p in 0..code.shape().n {
        rows[p as usize] = row_of(code, p);
    }
    rows
}
