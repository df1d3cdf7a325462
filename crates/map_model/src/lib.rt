//! Definitions of the map of a pool: its steps, the state that they come to, and what holds of every state. They are over
//! numbers and lists alone, and know neither texts nor profiles, so that laws about a pool's history need none of the code
//! that reads and writes a map.
//!
//! Headline: each step that fits keeps a state sound ([`steps_keep_sound`]): the epochs ascend by one from 1, and only slots of
//! the pool are up, joined or marked.
#![tactic(auto)]

mod laws;

pub use laws::{
    alive_are_older, alive_comes_once, kept_are_by_places, last_epoch_is_the_count,
    last_is_the_added, masks_are_by_positions, sound_states_join_below, steps_keep_sound,
    the_newest_goes_alive,
};
