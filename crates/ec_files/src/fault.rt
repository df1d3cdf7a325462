//! Why a file is not read.
ghost use Rattle.std.specs.Prelude.{◌≡◌};
ghost use Rattle.ec_files.specs.declared.fault.FileFault.TheVariants.{NoMemory as OutOfMemory};

use ec_words::NoMemory;
use std::alloc::{AllocError, AllocFailed};
use thiserror::Error;

/// Why a file is not read.
#[derive(Clone, Copy, Debug, PartialEq, Eq, Error)]
pub enum FileFault {
    /// There is no such file.
    #[error("missing")]
    Missing,
    /// The file has more than [`MAX_FILE`](crate::MAX_FILE) bytes.
    #[error("too long")]
    TooLong,
    /// The call failed, and the count of faults rose.
    #[error("failed")]
    Failed,
    /// Memory ran out.
    #[error("out of memory")]
    NoMemory,
}

impl From<NoMemory> for FileFault {
    ghost from_gives = { λ _ fault. fault ≡ OutOfMemory };

    fn from(_: NoMemory) -> FileFault {
        FileFault::NoMemory
    }
}

impl From<AllocError> for FileFault {
    ghost from_gives = { λ _ fault. fault ≡ OutOfMemory };

    fn from(_: AllocError) -> FileFault {
        FileFault::NoMemory
    }
}
