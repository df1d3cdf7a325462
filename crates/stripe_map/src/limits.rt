//! The numbers of this crate.

/// The size of a chunk of a buffer that is coded whole is a multiple of this number of bytes.
pub const ALIGNMENT: u64 = 32;

/// The bytes of the longest buffer that is coded whole.
pub const MAX_BUFFER: u64 = 1 << 40;

/// The bytes of the longest object.
pub const MAX_OBJECT: usize = 1 << 26;
