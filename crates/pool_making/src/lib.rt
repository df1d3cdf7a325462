//! The making of a pool's slots: they are placed, then their shards are made, and the map last.
//!
//! Headline: at each instant of [`make_pool`] a crash leaves no pool, or the new one whole (`any_moment`, `HasNoneOrFirst`), and
//! after `Ok` it leaves the new one (`made`, `IsCreated`).
//!
//! A pool of k=2, m=1 is made: slot 16 is placed, it has no pool, and slots 0, 1 and 2 are placed. Each of them gets the record of
//! the step Started 1, and slot 16 the map. A crash before the map is there leaves no pool.
#![tactic(auto)]

mod fault;
mod making;

pub use fault::MakeFault;
pub use making::make_pool;
