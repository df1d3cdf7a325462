//! The command line of erasure codes over files, as the program `ceph_ec_tool` has it.
//!
//! Headline: a run of [`tool`] does what its words ask for, over the files that are there. `encode` writes for each wanted
//! position exactly its chunks. `decode` writes the file to which the chunks of the least deciding set among the listed positions
//! belong. A refusal or a failure ends with the status and the line of the first fault, in one order. The files and what is done
//! with them are those of `ec_files`.
#![tactic(auto)]

mod commands;
mod laws;
mod parameters;
mod program;
mod request;
mod saying;
mod texts;
mod wanted;
mod words;

pub use laws::{
    codes_are_one, encoded_runs_come_back, outcomes_are_one, profiles_are_one,
    words_ask_for_one_thing,
};
pub use program::{ToolStatus, tool};
