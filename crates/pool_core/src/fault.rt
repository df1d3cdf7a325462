//! Why a pool's call fails.
use thiserror::Error;

/// Why a call on a pool does not succeed.
#[derive(Clone, Copy, Debug, PartialEq, Eq, Error)]
pub enum PoolFault {
    /// A call on the map's slot failed, and its count of faults rose.
    #[error("the map's slot failed")]
    MapFailed,
    /// The epochs or the bytes of a text are used up.
    #[error("worn")]
    Worn,
    /// Memory ran out.
    #[error("out of memory")]
    NoMemory,
}
