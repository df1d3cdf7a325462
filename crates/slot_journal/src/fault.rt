//! Why a journal's call fails.
ghost use Rattle.std.specs.Prelude.{◌≡◌};
ghost use Rattle.slot_journal.specs.declared.fault.JournalFault.TheVariants.{Failed as SlotFailed, NoMemory as OutOfMemory};

use ec_words::NoMemory;
use rig_disk::Failed;
use std::alloc::{AllocError, AllocFailed};
use thiserror::Error;

/// Why a journal's call fails.
#[derive(Clone, Copy, Debug, PartialEq, Eq, Error)]
pub enum JournalFault {
    /// A call of the rig failed, and the slot's count of faults rose.
    #[error("failed")]
    Failed,
    /// The slot holds no text for the head. `at` is the first place where it fails.
    #[error("no text from byte {at} on")]
    BadSlot { at: u64 },
    /// A call of this journal has failed before.
    #[error("spent")]
    Spent,
    /// Memory ran out.
    #[error("out of memory")]
    NoMemory,
}

impl From<Failed> for JournalFault {
    ghost from_gives = { λ _ fault. fault ≡ SlotFailed };

    fn from(_: Failed) -> JournalFault {
        JournalFault::Failed
    }
}

impl From<NoMemory> for JournalFault {
    ghost from_gives = { λ _ fault. fault ≡ OutOfMemory };

    fn from(_: NoMemory) -> JournalFault {
        JournalFault::NoMemory
    }
}

impl From<AllocError> for JournalFault {
    ghost from_gives = { λ _ fault. fault ≡ OutOfMemory };

    fn from(_: AllocError) -> JournalFault {
        JournalFault::NoMemory
    }
}

impl<T: Drop> From<AllocFailed<T>> for JournalFault {
    ghost from_gives = { λ _ fault. fault ≡ OutOfMemory };

    fn from(_: AllocFailed<T>) -> JournalFault {
        JournalFault::NoMemory
    }
}
