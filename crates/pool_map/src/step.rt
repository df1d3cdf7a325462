//! A step of a map's text.

use ec_words::{Bytes, Mask, Version};

/// A step of a map's text.
#[derive(Drop)]
pub(crate) enum Step {
    /// The canonical lines of the pool's profile.
    Profile(Bytes),
    /// An interval begins, with the slots that are up.
    Begin {
        epoch: u32,
        up: Mask,
    },
    /// It goes alive, with the slots that joined it and the version that it begins with.
    Alive {
        epoch: u32,
        joined: Mask,
        base: Version,
    },
    /// A slot is marked as down (1), or no longer (0).
    Mark {
        slot: u8,
        down: u8,
    },
}
