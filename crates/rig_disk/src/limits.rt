//! The numbers of this crate.

/// The last slot: 0 to 15 hold shards, and 16 holds the map.
pub const MAX_SLOT: u8 = 16;

/// The number under which the faults of the output are counted.
pub const VOICE: u8 = 17;

/// The count of slots.
pub const SLOTS: usize = 17;

/// The counts of faults: one for each slot, and one for the output.
pub const COUNTED: usize = 18;
