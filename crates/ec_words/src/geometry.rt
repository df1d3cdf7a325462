//! How an object's bytes lie in stripes.
ghost use Rattle.std.specs.Prelude.{◌≡◌, ◌≤◌, ◌<◌, ◌^◌};
ghost use Rattle.ec_model.specs.Stripes.{shard_len};

/// The shape of a stripe: `k` data chunks of `unit` bytes, side by side.
#[derive(Clone, Copy, Debug, PartialEq, Eq)]
pub struct Geometry {
    pub k: u8,
    /// Bytes of a chunk in one stripe.
    pub unit: u32,
    ghost some_chunks: { 1 ≤ k },
    ghost some_bytes: { 1 ≤ unit },
    ghost within_limit: { unit ≤ 65536 },
}

/// The number of bytes of one position of an object with `size` bytes: a chunk of each stripe.
pub fn shard_len(g: Geometry, size: u32) -> u32
    requires { shard_len g.k g.unit size < 2 ^ 32 }
    ensures { result ≡ shard_len g.k g.unit size }
{
    let stripe = u64::from(g.k) * u64::from(g.unit);
    (u64::from(size).div_ceil(stripe) * u64::from(g.unit)) as u32
}
