//! The numbers of this crate.

/// The bytes of the longest name.
pub const MAX_NAME: usize = 255;
