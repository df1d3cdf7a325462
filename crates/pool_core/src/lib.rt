//! The pool over its slots: an interval begins with the slots that are up, these choose a version, and those that hold it start
//! the interval's epoch.
//!
//! Headline: at each instant of [`Pool::start`] a crash leaves contents that moves make of those of its start (`any_moment`,
//! `MovedFrom`), and once the pool is active the last interval that went alive is its own and each slot that joined it has
//! started it (`active`, `AreComplete`).
//!
//! A pool of k=2, m=1 whose three slots have head (1,4) in interval 1 starts: interval 2 begins with slots 0, 1 and 2 up, it goes
//! alive with all three and base (1,4), and each slot gets the record of the step Started 2.
#![tactic(auto)]

mod activation;
mod choosing;
mod fault;
mod intervals;
mod opening;
mod pool;
mod state;
mod turns;

pub use fault::PoolFault;
pub use pool::Pool;
pub use state::State;
