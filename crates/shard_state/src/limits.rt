//! The limits of a shard's steps.

/// The bytes of the largest object.
pub const MAX_SIZE: u32 = 1 << 20;

/// The bytes of the longest value of an attribute.
pub const MAX_VALUE: usize = 4096;

/// The attributes that an object may have.
pub const MAX_ATTRS: usize = 64;

/// The number of each version is below this.
pub const SEQ_LIMIT: u64 = 1 << 40;
