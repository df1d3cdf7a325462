//! The numbers of this crate.

/// The slot of the map.
pub const MAP_SLOT: u8 = 16;

/// The area that the map's text stands in.
pub(crate) const AREA: u8 = 0;

/// A new interval is begun only if the text may still grow by this.
pub const BEGIN_ROOM: u64 = 1 << 27;

/// A mark is written only if the text may still grow by this.
pub const MARK_ROOM: u64 = 1 << 26;
