//! A call that is to fail.

/// A call that is to fail: the slot, or 17 for the output, and the number of the call on it, from 1.
#[derive(Clone, Copy, PartialEq, Eq)]
pub struct PlannedFault {
    pub slot: u8,
    pub call: u64,
}
