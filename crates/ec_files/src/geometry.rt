//! The stripes of a job.
ghost use Rattle.std.specs.Prelude.{◌≡◌, ◌≤◌};
ghost use Rattle.ec_code.specs.Bounds.{IsUnit};

use ec_words::Geometry;

/// Stripes of `k` units of these bytes.
pub fn geometry(k: u8, unit: u64) -> Geometry
    requires some { 1 ≤ k }
    requires unit { IsUnit unit }
    ensures k { result.k ≡ k }
    ensures unit { result.unit ≡ unit }
{
    Geometry {
        k,
        unit: unit as u32,
    }
}
