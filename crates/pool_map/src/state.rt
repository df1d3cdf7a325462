//! The intervals and marks of a map.
ghost use Rattle.std.specs.Prelude.{◌≤◌};

use ec_words::{Intervals, Mask};

/// The intervals and marks of the map of a pool with `n` positions.
#[derive(Drop)]
pub(crate) struct State {
    pub n: u8,
    pub intervals: Intervals,
    pub marked: Mask,
    ghost few: { n ≤ 16 },
}
