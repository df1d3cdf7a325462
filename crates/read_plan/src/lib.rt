//! The least set of positions to read.
//!
//! If the wanted positions are available they are read themselves. Else the plan is the least set of available positions
//! that decides them: by size, and then by the ascending lists of the positions. [`plan`] takes no memory, and a
//! [`Planner`] is for callers that ask again and again.
//!
//! Headline: the clauses `least`, `itself` and `none` of [`plan`], by `IsLeastPlan` of specs/Plans.antt. In the code with
//! the rows 1 0, 0 1 and 1 1 the plan for position 0 is 0 if it is available, and else 1 and 2.
#![tactic(auto)]

mod laws;
mod lines;
mod planner;
mod plans;
mod search;
mod sets;
mod tables;

pub use laws::{least_plan_is_one, order_is_by_lists};
pub use planner::Planner;
pub use plans::plan;
