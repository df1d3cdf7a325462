//! What stands on a pool's slots agrees with the pool's history at each instant of a call that moves it.
//!
//! Headline: if each image of a call's start comes to contents that agree with a history, so does each image of every instant of
//! the call ([`calls_keep_agreement`]). The contents of a new pool agree with the history that has no change yet
//! ([`made_pools_agree`]), and once all slots that joined an interval have started it, the contents agree also with the history
//! in which it went active ([`activations_agree`], [`complete_pools_agree`]).
#![tactic(auto)]

mod laws;

pub use laws::{
    activations_agree, calls_keep_agreement, complete_pools_agree, first_contents_agree,
    made_pools_agree, moves_keep_agreement,
};
