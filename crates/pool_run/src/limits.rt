//! The numbers of this crate.

/// The bytes of the longest input.
pub const MAX_INPUT: usize = 65_536;

/// The bytes of the longest object.
pub const MAX_SIZE: usize = 1_048_576;

/// The most objects.
pub const MAX_OBJECTS: usize = 65_536;

/// The most bytes that all objects may take.
pub const MAX_USAGE: u64 = 67_108_864;
