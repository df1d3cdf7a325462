//! Why a call did not succeed.
ghost use Rattle.std.specs.Prelude.{◌≡◌};
ghost use Rattle.shard_state.specs.declared.fault.StepFault.TheVariants.{NoMemory as StepNoMemory};

use ec_words::{NoMemory, Version};
use thiserror::Error;

/// Why a step is not done.
#[derive(Clone, Copy, Debug, PartialEq, Eq, Error)]
pub enum StepFault {
    /// The step does not fit the state.
    #[error("the step does not fit")]
    Misfit,
    /// Memory ran out.
    #[error("out of memory")]
    NoMemory,
}

impl From<NoMemory> for StepFault {
    ghost from_gives = { λ _ fault. fault ≡ StepNoMemory };

    fn from(_: NoMemory) -> StepFault {
        StepFault::NoMemory
    }
}

/// Why a shard cannot go back to a version.
#[derive(Clone, Copy, Debug, PartialEq, Eq, Error)]
pub enum UndoFault {
    /// The version is not held.
    #[error("the version is not held")]
    NoUndo { at: Version },
    /// Memory ran out.
    #[error("out of memory")]
    NoMemory,
}
