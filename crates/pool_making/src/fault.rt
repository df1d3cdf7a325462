//! Why a pool is not made.
use thiserror::Error;

/// Why a pool is not made.
#[derive(Clone, Copy, Debug, PartialEq, Eq, Error)]
pub enum MakeFault {
    /// There is a pool, or what is no map of one.
    #[error("there is a pool")]
    Exists,
    /// A call on this slot failed, and its count of faults rose.
    #[error("slot {slot} failed")]
    SlotFailed { slot: u8 },
    /// A call on the map's slot failed, and its count of faults rose.
    #[error("the map's slot failed")]
    MapFailed,
    /// Memory ran out.
    #[error("out of memory")]
    NoMemory,
}
