//! The limits of a pool's objects.

/// The bytes of the largest object.
pub const MAX_SIZE: u64 = 1 << 20;

/// The bytes of the longest value of an attribute.
pub const MAX_VALUE: usize = 4096;

/// The attributes that an object may have.
pub const MAX_ATTRS: usize = 64;

/// The objects of a pool.
pub const MAX_OBJECTS: usize = 65_536;

/// The most bytes that all objects may take: the sum of their sizes and of the lengths of their attributes' names and values.
pub const MAX_USAGE: u64 = 1 << 26;

/// Each number of a version is below this.
pub const SEQ_LIMIT: u64 = 1 << 40;

/// A slot whose text may grow by fewer bytes is worn.
pub const WORN_ROOM: u64 = 1 << 27;
