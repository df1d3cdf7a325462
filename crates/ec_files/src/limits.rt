//! The numbers of this crate.

/// The number of bytes of the longest file that is read: 64 MiB.
pub const MAX_FILE: usize = 1 << 26;

/// The number of bytes that one read asks for, and about the number that one write gets: they stay in the cache. A piece is at
/// least one unit.
pub const PIECE: usize = 1 << 18;
