//! The numbers of a code.
ghost use Rattle.std.specs.Prelude.{◌≡◌, ◌<◌};
ghost use Rattle.ec_code.specs.Shapes.{default_least};

/// The number of data chunks, the number of positions, and the divisor of chunk sizes.
#[derive(Clone, Copy, Debug, PartialEq, Eq)]
pub struct Shape {
    pub k: u8,
    pub n: u8,
    pub lead: u8,
}

/// The least number of positions that a pool works with, if its profile does not say.
pub fn default_min(shape: Shape) -> u8
    requires { shape.k < shape.n }
    ensures { result ≡ default_least shape.k shape.n }
{
    shape.k + u8::min(1, shape.n - shape.k - 1)
}
