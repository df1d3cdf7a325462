//! Updates of a pool's objects, made on every joined slot.
//!
//! Headline: [`Pipeline::prepare`] refuses an update exactly as the objects that the slots show ask for; after Ok the slots show
//! the objects after it, and after each `Err` all stores are as they were. [`Pipeline::get`] gives the bytes of the object shown.
//!
//! With two data chunks and one parity in units of 32 bytes, `append a 0102` on no objects is three writes of 32 bytes: 1, 2 and
//! 30 zeros, 32 zeros, and the sum of both.
#![tactic(auto)]

mod changing;
mod checking;
mod draft;
mod drafting;
mod fault;
mod finding;
mod flushing;
mod limits;
mod pipeline;
mod reading;
mod refusing;
mod settling;
mod staging;
mod update;

pub use checking::{Checked, check};
pub use draft::{Draft, draft_step};
pub use fault::{PrepareFault, ReadFault, Refusal};
pub use flushing::flush_all;
pub use pipeline::{Flushed, Pipeline};
pub use settling::{firm_step, stage_if, trim_step};
pub use staging::{accept_all, change_all, unstage_all};
pub use update::Update;
