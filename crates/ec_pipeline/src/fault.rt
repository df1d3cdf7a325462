//! Why an update is not made.
ghost use Rattle.std.specs.Prelude.{◌≡◌};
ghost use Rattle.ec_pipeline.specs.declared.fault.PrepareFault.TheVariants.{NoMemory as OutOfMemory};

use ec_words::NoMemory;
use std::alloc::AllocError;
use thiserror::Error;

/// Why an update is refused.
#[derive(Clone, Copy, Debug, PartialEq, Eq)]
pub enum Refusal {
    /// There is no such object.
    Absent,
    /// The object has no such attribute.
    NoAttr,
    /// The object or the value would be too long.
    TooLarge,
    /// There are as many objects as there may be.
    Objects,
    /// The objects would take more than they may.
    Full,
    /// The object has as many attributes as it may.
    Attrs,
}

/// Why an update is not made.
#[derive(Clone, Copy, Debug, PartialEq, Eq, Error)]
pub enum PrepareFault {
    /// The objects do not allow it.
    #[error("refused")]
    Refused(Refusal),
    /// The versions or the room of a slot are used up.
    #[error("worn")]
    Worn,
    /// A call on the slot failed, its shard lacks something, or the step does not fit there.
    #[error("slot {slot}")]
    Slot { slot: u8 },
    /// Memory ran out.
    #[error("out of memory")]
    NoMemory,
}

/// Why a read gives nothing.
#[derive(Clone, Copy, Debug, PartialEq, Eq, Error)]
pub enum ReadFault {
    /// There is no such object.
    #[error("absent")]
    Absent,
    /// A call on the slot failed, or its shard lacks something.
    #[error("slot {slot}")]
    Slot { slot: u8 },
    /// Memory ran out.
    #[error("out of memory")]
    NoMemory,
}

impl From<NoMemory> for PrepareFault {
    ghost from_gives = { λ _ fault. fault ≡ OutOfMemory };

    fn from(_: NoMemory) -> PrepareFault {
        PrepareFault::NoMemory
    }
}

impl From<AllocError> for PrepareFault {
    ghost from_gives = { λ _ fault. fault ≡ OutOfMemory };

    fn from(_: AllocError) -> PrepareFault {
        PrepareFault::NoMemory
    }
}
