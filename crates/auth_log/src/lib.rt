//! The choice of the authoritative version, by what the shards that are up say of themselves.
//!
//! A slot is eligible if it is up, its shard is not partial, and its shard last started a kept interval that went alive. Take the
//! kept intervals that went alive, from the greatest epoch on that an eligible slot started. The eligible slots are sufficient if
//! those of each such interval's joined set decide all. The authoritative version is then the least head of the slots that
//! started that epoch.
//!
//! Headline: `choose` answers this version exactly if the slots are sufficient, and else the least epoch that stands against it
//! (`choice`, `sufficient` and `blocked`, by `IsSufficient`, `IsChosen` and `IsBlocked` of specs/Choice.antt).
//!
//! Three shards started epoch 2, and their heads are (2,2), (2,1) and (2,2). Then the version is (2,1). With the second one down
//! it is (2,2).
#![tactic(auto)]

mod choice;
mod decided;
mod eligible;
mod info;
mod laws;
mod order;
mod state;
mod survey;

pub use choice::{Blocked, Choice, choose};
pub use info::Info;
pub use laws::{
    alive_among_kept, blocked_is_one, greater_set_chooses_no_older_epoch,
    greater_set_is_sufficient, only_up_slots_count, state_is_one, state_is_there, survey_is_one,
    survey_is_there,
};
pub use state::State;
pub use survey::Survey;
