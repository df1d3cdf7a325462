//! The pool: its map, and the stores of its slots.
ghost use Rattle.std.specs.Prelude.{◌≤◌};

use ec_words::Geometry;
use pool_map::PoolMap;
use shard_store::Shelf;

/// A pool: its map, and the stores of the slots that are up. It is used with the rig over which it was opened.
#[derive(Drop)]
pub struct Pool {
    pub(crate) map: PoolMap,
    pub(crate) shelf: Shelf,
    pub(crate) geometry: Geometry,
    /// The number of its positions.
    pub(crate) n: u8,
    /// The least number of joined slots with which it serves.
    pub(crate) min_size: u8,
    ghost few: { n ≤ 16 },
    ghost some: { 1 ≤ min_size },
}
