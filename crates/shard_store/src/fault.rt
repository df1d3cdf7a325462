//! Why a store's call fails.
use shard_state::StepFault;
use slot_journal::JournalFault;
use thiserror::Error;

/// Why a store's call fails.
#[derive(Clone, Copy, Debug, PartialEq, Eq, Error)]
pub enum StoreFault {
    /// A call of the rig failed, and the slot's count of faults rose.
    #[error("failed")]
    Failed,
    /// The slot holds no shard: `at` is the first place where its text fails, or the gate of the first record that is no list
    /// of steps, or whose steps do not fit.
    #[error("no shard from byte {at} on")]
    BadSlot { at: u64 },
    /// A flush of this store has failed before.
    #[error("spent")]
    Spent,
    /// Memory ran out.
    #[error("out of memory")]
    NoMemory,
}
