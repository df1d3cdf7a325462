//! Profiles from texts, as settings or in JSON: a text is read as the profile that it means, or refused with its first fault.
#![tactic(auto)]

mod forms;
mod json;
mod layers;
mod reading;
mod settings;

pub use json::{read_any, read_profile_json};
pub use reading::{RegFault, read_profile};
