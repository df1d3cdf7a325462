//! Definitions of a shard's steps and of what they come to, over numbers, lists and finite maps alone.
//!
//! There are two readings of a list of steps. A `State` keeps the present objects and, for each entry of the log, what takes
//! it back; a step back undoes entries, newest first. A `Replay` keeps the objects of a base and the entries after it, and
//! never undoes anything: the objects at a version are the base with the entries up to it.
//!
//! Headline: both come to the same ([`undoing_is_replaying`]), so rolling back gives the past
//! ([`going_back_gives_the_past`]).
#![tactic(auto)]

mod laws;

pub use laws::{
    bytes_are_read_one_way, entries_keep_held, first_step_fits, going_back_gives_the_past,
    going_back_keeps_the_past, head_is_held, head_is_present, held_objects_may_be_brought,
    replay_goes_on, replays_are_whole, step_lengths, steps_are_read, steps_keep_whole,
    undoing_is_replaying, worked_bytes, worked_writes,
};
