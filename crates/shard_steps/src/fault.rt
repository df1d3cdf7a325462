//! Why a text was not read as steps.
ghost use Rattle.std.specs.Prelude.{◌≡◌};
ghost use Rattle.shard_steps.specs.declared.fault.Unread.TheVariants.{NoStep as UnreadNoStep, NoMemory as UnreadNoMemory};

use ec_words::{Ended, NoMemory};
use thiserror::Error;

/// Why a text was not read as steps.
#[derive(Clone, Copy, Debug, PartialEq, Eq, Error)]
pub enum StepsFault {
    /// Steps stand before `at`, and there no step is spelled.
    #[error("no step at {at}")]
    BadStep { at: usize },
    /// Memory ran out.
    #[error("out of memory")]
    NoMemory,
}

/// Why the front of a text was not read.
#[derive(Clone, Copy)]
pub(crate) enum Unread {
    /// The text does not begin with what was asked for.
    NoStep,
    /// Memory ran out.
    NoMemory,
}

impl From<NoMemory> for Unread {
    ghost from_gives = { λ _ fault. fault ≡ UnreadNoMemory };

    fn from(_: NoMemory) -> Unread {
        Unread::NoMemory
    }
}

impl From<Ended> for Unread {
    ghost from_gives = { λ _ fault. fault ≡ UnreadNoStep };

    fn from(_: Ended) -> Unread {
        Unread::NoStep
    }
}
