//! What the plugins ask alike of a profile's numbers.
ghost use Rattle.std.specs.Prelude.{◌≢◌, ◌↔◌, ◌⊎◌, ◌<◌, IsTrue};
ghost use Rattle.ec_code.specs.Bounds.{Given, IsUnit};

/// Whether a stripe unit, in bytes, is a multiple of 32 from 32 to 65,536.
pub fn is_unit(unit: u32) -> bool
    ensures { IsTrue result ↔ IsUnit unit }
{
    32 <= unit && unit <= 65536 && unit % 32 == 0
}

/// Whether a word of another width than 8 bits is asked for.
pub fn is_other_width(w: Option<u32>) -> bool
    ensures { IsTrue result ↔ Given w (λ w. w ≢ 8) }
{
    match w {
        Some(w) => w != 8,
        None => false,
    }
}

/// Whether the least number of positions that a pool works with is below `k` or above `n`.
pub fn is_out_of_range(least: Option<u32>, k: u32, n: u32) -> bool
    ensures { IsTrue result ↔ Given least (λ least. (least < k) ⊎ (n < least)) }
{
    match least {
        Some(least) => least < k || n < least,
        None => false,
    }
}
