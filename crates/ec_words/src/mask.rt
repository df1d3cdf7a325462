//! Sets of positions.
ghost use Rattle.std.specs.Prelude.{◌≡◌, ◌↔◌, ◌<◌, ◌≤◌, ◌-◌, ◌^◌, IsTrue, Some};
ghost use Rattle.std.specs.Int.{bit_at};
ghost use Rattle.ec_words.specs.Masks.{mask_text};

use std::fmt;

/// A set of positions below 16: bit `p` stands for position `p`. It is printed as its positions, ascending and joined by
/// commas, or as `-` if it is empty.
#[derive(Clone, Copy, Debug, PartialEq, Eq)]
pub struct Mask(pub u16);

impl Mask {
    /// Whether the set has position `p`.
    pub fn has(self, p: u8) -> bool
        requires { p < 16 }
        ensures { IsTrue result ↔ (bit_at self.0 p ≡ 1) }
    {
        (self.0 >> p) & 1 == 1
    }

    /// Whether all positions of the set are below `n`.
    pub fn lies_below(self, n: u8) -> bool
        requires { n ≤ 16 }
        ensures { IsTrue result ↔ (self.0 < 2 ^ n) }
    {
        u32::from(self.0) < 1u32 << n
    }

    /// All positions below `n`.
    pub fn all_below(n: u8) -> Mask
        requires { n ≤ 16 }
        ensures { result.0 ≡ 2 ^ n - 1 }
    {
        Mask(((1u32 << n) - 1) as u16)
    }
}

impl fmt::Display for Mask {
    ghost output = { λ mask. Some (mask_text mask.0) };

    fn fmt<W: fmt::Write>(&self, f: &mut fmt::Formatter<W>) -> fmt::Result {
        let mask = *self;
        let mut first = true;
        for p in 0..16u8 {
            if mask.has(p) {
                let separator = if first { "" } else { "," };
                write!(f, "{separator}{p}")?;
                first = false;
            }
        }
        if first {
            write!(f, "-")?;
        }
        Ok(())
    }
}
