//! The map of a pool: its profile, the intervals from its first epoch on, and which slots are marked as down, in the text
//! of slot 16.
//!
//! Headline: at each instant of `begin`, `alive` and `mark` each image of the slot has the map of before, or the one with the
//! step (`HasStepped`, `any_moment`); `load` gives exactly the map of the text in use (`HoldsMap`), or says that there
//! is no pool, or that the text is no map.
//!
//! The first record of a pool of k=2, m=1 has the steps Profile, Begin(1, all) and Alive(1, all, (0, 0)). docs/FORMAT.md has
//! its bytes.
#![tactic(auto)]

mod bodies;
mod fault;
mod first;
mod front;
mod laws;
mod limits;
mod loading;
mod making;
mod map;
mod profiles;
mod reading;
mod replay;
mod state;
mod step;
mod steps;
mod text;
mod work;

pub use fault::MapFault;
pub use laws::{maps_are_sound, maps_stay_held, texts_have_one_map};
pub use limits::{BEGIN_ROOM, MAP_SLOT, MARK_ROOM};
pub use map::PoolMap;
