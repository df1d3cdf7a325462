//! Why a command stops before it did what it was asked for.
ghost use Rattle.std.specs.Prelude.{◌≡◌};
ghost use Rattle.ec_files.specs.declared.stop.Stop.TheVariants.{NoMemory as OutOfMemory};

use ec_code::ProfileFault;
use ec_words::NoMemory;
use std::alloc::{AllocError, AllocFailed};

/// Why a command stops before it did what it was asked for.
#[derive(Drop)]
pub enum Stop {
    /// The words are no command, or a wanted position is not one of the code's.
    Usage,
    /// The profile is refused.
    Profile(ProfileFault),
    /// A file of this name is not there.
    Missing(String),
    /// The file of this name could not be read or written.
    Failed(String),
    /// The listed positions do not decide the data.
    NotDecided,
    /// The files of chunks differ in length, or their length is not that of whole chunks.
    Lengths,
    /// The file of this name has, or would have, too many bytes.
    TooLong(String),
    /// Memory ran out.
    NoMemory,
}

impl From<NoMemory> for Stop {
    ghost from_gives = { λ _ stop. stop ≡ OutOfMemory };

    fn from(_: NoMemory) -> Stop {
        Stop::NoMemory
    }
}

impl From<AllocError> for Stop {
    ghost from_gives = { λ _ stop. stop ≡ OutOfMemory };

    fn from(_: AllocError) -> Stop {
        Stop::NoMemory
    }
}

impl<T: Drop> From<AllocFailed<T>> for Stop {
    ghost from_gives = { λ _ stop. stop ≡ OutOfMemory };

    fn from(_: AllocFailed<T>) -> Stop {
        Stop::NoMemory
    }
}
