//! The registry of plugins: from a profile to the code that it means.
//!
//! Headline: after `pick` with Ok the first box of the profile's plugin is the code of the profile, and all others are as
//! they were; without such a box the plugin is unknown, and else the box's own fault is answered and no code has changed.
//!
//! `print_profile` gives the canonical lines of a profile: its settings by the bytes of their keys.
#![tactic(auto)]

mod laws;
mod opening;
mod picks;
mod printing;

pub use laws::{lines_are_read_back, read_profiles_are_writable};
pub use opening::{Opened, open_profile, print_fault};
pub use picks::{has_box, has_each_plugin, pick};
pub use printing::print_profile;
pub use profile_texts::{RegFault, read_any, read_profile, read_profile_json};
