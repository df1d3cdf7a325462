//! Tests of the crates of a shard, one module a crate. It has tests alone.
#![tactic(auto)]

#[cfg(test)]
mod journals;
#[cfg(test)]
mod random_steps;
#[cfg(test)]
mod rigs;
#[cfg(test)]
mod states;
#[cfg(test)]
mod stores;
