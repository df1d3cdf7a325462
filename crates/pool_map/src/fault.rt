//! Why a call on a pool's map does not succeed.
ghost use Rattle.std.specs.Prelude.{◌≡◌};
ghost use Rattle.pool_map.specs.declared.fault.MapFault.TheVariants.{Failed as SlotFailed, BadMap as NoMap, NoMemory as OutOfMemory};
ghost use Rattle.pool_map.specs.Faults.{of_journal};

use ec_words::{Ended, NoMemory};
use rig_disk::Failed;
use slot_journal::JournalFault;
use std::alloc::AllocError;
use thiserror::Error;

/// Why a call on a pool's map does not succeed.
#[derive(Clone, Copy, Debug, PartialEq, Eq, Error)]
pub enum MapFault {
    /// A call of the rig failed, and the count of faults of the map's slot rose.
    #[error("failed")]
    Failed,
    /// The map's slot is not here, or its text in use is shorter than a header.
    #[error("no pool")]
    NoPool,
    /// The map's slot has a text in use, and it is not that of a map.
    #[error("bad map")]
    BadMap,
    /// The epochs or the text's bytes are used up.
    #[error("worn")]
    Worn,
    /// Memory ran out.
    #[error("out of memory")]
    NoMemory,
}

impl From<Failed> for MapFault {
    ghost from_gives = { λ _ fault. fault ≡ SlotFailed };

    fn from(_: Failed) -> MapFault {
        MapFault::Failed
    }
}

impl From<Ended> for MapFault {
    ghost from_gives = { λ _ fault. fault ≡ NoMap };

    fn from(_: Ended) -> MapFault {
        MapFault::BadMap
    }
}

impl From<NoMemory> for MapFault {
    ghost from_gives = { λ _ fault. fault ≡ OutOfMemory };

    fn from(_: NoMemory) -> MapFault {
        MapFault::NoMemory
    }
}

impl From<AllocError> for MapFault {
    ghost from_gives = { λ _ fault. fault ≡ OutOfMemory };

    fn from(_: AllocError) -> MapFault {
        MapFault::NoMemory
    }
}

impl From<JournalFault> for MapFault {
    ghost from_gives = { λ journal fault. fault ≡ of_journal journal };

    fn from(fault: JournalFault) -> MapFault {
        match fault {
            JournalFault::BadSlot { .. } => MapFault::BadMap,
            JournalFault::NoMemory => MapFault::NoMemory,
            JournalFault::Failed | JournalFault::Spent => MapFault::Failed,
        }
    }
}
