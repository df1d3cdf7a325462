//! The size of a chunk if a buffer is coded whole.
ghost use Rattle.std.specs.Prelude.{◌≡◌, ◌≤◌};
ghost use Rattle.stripe_map.specs.Sizes.{chunk_size_of, max_buffer, IsLeastChunk};

use crate::limits::ALIGNMENT;

/// The number of bytes of each of `lead` equal chunks that hold `size` bytes: the least multiple of 32 that is enough.
/// `lead` is that of the code's shape, and `size` is at most 2^40.
pub fn chunk_size(lead: u8, size: u64) -> u64
    requires some_chunk { 1 ≤ lead }
    requires within_limit { size ≤ max_buffer }
    ensures value { result ≡ chunk_size_of lead size }
    ensures least { IsLeastChunk lead size result }
{
    size.div_ceil(ALIGNMENT * u64::from(lead)) * ALIGNMENT
}
