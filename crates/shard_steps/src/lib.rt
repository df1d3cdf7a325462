//! The steps of a shard, and their bytes.
//!
//! A step is an entry and changes one object under a version; or it moves the bounds of the log; or it fills a shard that is
//! partial. What a step does is said by `shard_model`, and done by `shard_state`.
//!
//! Headline: [`encode_steps`] gives the bytes of some steps, and [`decode_steps`] the steps that a text spells, or the first place
//! at which none is spelled.
//!
//! The step that starts epoch 1 is the five bytes `7 0 0 0 1`. docs/FORMAT.md has the tables.
#![tactic(auto)]

mod decoding;
mod encoding;
mod fault;
mod head;
mod kind;
mod kinds;
mod pairs;
mod reading;
mod step;
mod steps;

pub use decoding::decode_steps;
pub use encoding::encode_steps;
pub use fault::StepsFault;
pub use head::{EntryHead, head_of};
pub use kind::Kind;
pub use pairs::Pairs;
pub use step::Step;
pub use steps::Steps;
