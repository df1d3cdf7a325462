//! What a pool can do.
use ec_words::Mask;

/// What a pool can do.
#[derive(Clone, Copy, Debug, PartialEq, Eq)]
pub enum State {
    /// It serves, in the interval of this epoch with the slots that joined it.
    Active { epoch: u32, joined: Mask },
    /// The slots that joined decide all, and are fewer than `min`.
    Short { joined: Mask, min: u8 },
    /// The data are not decided: too few of the eligible slots `up` are left of the interval of this epoch, or too few of them
    /// hold the version.
    Down { epoch: u32, up: Mask },
}
