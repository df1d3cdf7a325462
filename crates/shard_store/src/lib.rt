//! What one slot holds of a pool's objects: a journal whose records are the steps of a shard, and the state that they lead to.
//!
//! Headline: at each instant of [`Store::flush`] a crash leaves the steps that were flushed before, or all accepted ones
//! (`any_moment`, `Flushes`), and [`Store::load`] gives the store of exactly the steps that the slot's text has, or the first
//! place where that is no shard's text (`bad_slot`).
//!
//! Steps are staged, then accepted or forgotten all together, and then flushed as one record. The step that starts epoch 2 is
//! flushed as the record `4f 00000005 07 00000002`. docs/FORMAT.md has the bytes.
#![tactic(auto)]

mod fault;
mod header;
mod laws;
mod loading;
mod on_slot;
mod shelf;
mod spelling;
mod store;
mod story;

pub use fault::StoreFault;
pub use laws::{
    bad_texts_have_no_story, others_may_flush, shards_are_replays, stored_goes_on,
    stores_stay_stored, texts_have_one_story,
};
pub use shelf::{FetchFault, Shelf};
pub use store::Store;
