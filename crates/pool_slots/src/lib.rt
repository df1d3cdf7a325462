//! One record of steps on one slot of a pool.
//!
//! Headline: at each instant of [`start_stored`] a crash leaves the steps that the slot had, or also those of the record
//! (`AddsRecord`), and after `Ok` it leaves those of the record too (`HasRecord`).
//!
//! A shard with head (2,5) that starts epoch 3 at base (2,4) gets the record of the steps Back (2,4) and Started 3. One whose
//! head is (2,4) gets that of Started 3 alone.
#![tactic(auto)]

mod starting;

pub use starting::start_stored;
