//! Products and quotients of two elements.
ghost use Rattle.std.specs.Prelude.{◌≡◌, ◌≢◌, ◌^◌, ◌<◌, ℕ};
ghost use Rattle.ec_model.specs.Field.{field_product, IsInverse};

use crate::inverses::INVERSES;

/// The product by the polynomial x.
pub fn doubled(a: u8) -> u8
    ensures { result ≡ field_product a 2 }
{
    if a < 0x80 { a << 1 } else { (a << 1) ^ 0x1d }
}

/// The product of two elements.
pub fn mul(a: u8, b: u8) -> u8
    ensures { result ≡ field_product a b }
{
    let mut sum = 0;
    let mut term = a;
    for i in 0..8u32 {
        if (b >> i) & 1 == 1 {
            sum ^= term;
        }
        term = doubled(term);
    }
    sum
}

/// The element whose product with `a` is 1.
pub fn inv(a: u8) -> u8
    requires { a ≢ 0 }
    ensures { IsInverse a result }
{
    INVERSES[a as usize]
}

/// The element whose product with `b` is `a`.
pub fn div(a: u8, b: u8) -> u8
    requires { b ≢ 0 }
    ensures { field_product result b ≡ a }
{
    mul(a, inv(b))
}
