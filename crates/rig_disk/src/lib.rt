//! What lies outside a pool: its storage devices with the output beside them, and its input.
//!
//! Headline: at every instant of a call of a [`Rig`] what a crash may leave is as docs/CRASH-MODEL.md says. A call fails
//! only if its count of faults rose ([`Rig`], [`Source`]). What slots read, what was said and what is left of the input
//! are known if the implementor tells them. [`MemRig`] and [`MemSource`] tell all of it, and fail when a test plans it.
//! [`FileRig`] and [`StdSource`] are the real ones, and tell no contents.
#![tactic(auto)]

mod call;
mod call_log;
mod crash;
mod edge;
mod fault_plan;
mod limits;
mod mem_rig;
mod mem_source;
mod planned_fault;
mod rig;
mod slot_areas;
mod slot_files;
mod source;
mod spoil;

pub use edge::{FileRig, StdSource};
pub use limits::{MAX_SLOT, VOICE};
pub use mem_rig::MemRig;
pub use mem_source::MemSource;
pub use planned_fault::PlannedFault;
pub use rig::{Failed, Rig};
pub use source::Source;
