//! The stripes that a range of bytes touches. Source: Ceph developer guide, "Erasure Coded pool": a stripe is
//! `k * stripe_unit` bytes of the object.
ghost use Rattle.std.specs.Prelude.{◌≡◌, ◌≤◌, ◌+◌, ◌-◌, ◌*◌, ◌/◌};
ghost use Rattle.stripe_map.specs.Touch.{IsTouched};

use ec_words::Geometry;

/// The first stripe that has one of the `len` bytes from `off` on, and how many stripes have one: `(0, 0)` if `len` is 0.
/// A stripe is `g.k * g.unit` bytes.
pub fn touched(g: Geometry, off: u32, len: u32) -> (u32, u32)
    ensures value { IsTouched (g.k * g.unit) off len result.0 result.1 }
    ensures numbers { 1 ≤ len → result ≡ (off / (g.k * g.unit), (off + len - 1) / (g.k * g.unit) - off / (g.k * g.unit) + 1) }
    ensures none { len ≡ 0 → result ≡ (0, 0) }
{
    if len == 0 {
        return (0, 0);
    }
    let width = u64::from(g.k) * u64::from(g.unit);
    let first = u64::from(off) / width;
    let last = (u64::from(off) + u64::from(len) - 1) / width;
    (first as u32, (last - first + 1) as u32)
}
