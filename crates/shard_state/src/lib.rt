//! The state of one shard: its objects, its log, and what takes each entry back.
//!
//! Headline: [`ShardState::undo_to`] gives the objects that a replay of the steps from the base has at the version, and
//! [`ShardState::apply`] gives the state with one step more, or `Misfit` exactly if the step does not fit.
//!
//! With two data chunks in units of 4 bytes: a write of `1 1 1 1` at 4 makes an object of 16 bytes `0 0 0 0 1 1 1 1` here; a
//! write of `2 2 2 2` over it keeps the size and the four bytes before, and going back to the first write puts them back.
//!
//! The steps and their bytes are those of `shard_steps`.
#![tactic(auto)]

mod attrs;
mod change;
mod copying;
mod entry;
mod fault;
mod fit;
mod held;
mod limits;
mod log;
mod phase;
mod place_steps;
mod places;
mod record;
mod state;
mod totals;

pub use attrs::Attrs;
pub use entry::{Entry, Logged, Undo};
pub use fault::{StepFault, UndoFault};
pub use held::Held;
pub use state::ShardState;
