//! The history of a pool, and when what stands on its devices agrees with one. Definitions and laws alone.
//!
//! A history is a tree of versions, each with the update that made it. Two runs after a crash may go on from different
//! versions, so it is no list; the pool holds the objects of one path. An image of the devices is consistent with a history if
//! nine parts hold (`specs/Consistency.antt`): each shard's log is a piece of a path, its objects are those of its head, and
//! the intervals of the map say which version may be chosen next. What a pool does to its devices and to its history is one of
//! thirteen kinds of step (`specs/Transitions.antt`).
//!
//! Headline: whatever sufficient slots choose, no committed change is lost ([`sufficient_sets_show_committed`]), and every
//! step of a pool keeps this so ([`transitions_keep_agreement`]).
//!
//! With two data chunks and one coding chunk: a run accepts versions (1,1) and (1,2), and stops when only slot 0 has taken
//! (1,2). If slots 0 and 1 come back, the least head of epoch 1 is (1,1). The next interval begins with it, and version (2,2)
//! is made on it: (1,2) and (2,2) are two branches.
#![tactic(auto)]

mod laws;

pub use laws::{
    all_slots_are_sufficient, entries_lead_on, epochs_are_chains, grown_histories_are_shown,
    last_accepted_is_chosen, new_pools_agree, paths_grow, reached_images_agree,
    sufficient_sets_show_committed, transitions_keep_agreement,
};
