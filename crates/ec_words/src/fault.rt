//! Why a text cannot be read, and that memory ran out.
ghost use Rattle.std.specs.Prelude.{◌≡◌};
ghost use Rattle.ec_words.specs.declared.fault.WordFault.TheVariants.{NoMemory as OutOfMemory};

use std::alloc::{AllocError, AllocFailed};
use thiserror::Error;

/// Memory ran out.
#[derive(Clone, Copy, Debug, PartialEq, Eq, Error)]
#[error("out of memory")]
pub struct NoMemory;

impl From<AllocError> for NoMemory {
    fn from(_: AllocError) -> NoMemory {
        NoMemory
    }
}

impl<T: Drop> From<AllocFailed<T>> for NoMemory {
    fn from(_: AllocFailed<T>) -> NoMemory {
        NoMemory
    }
}

/// Why a text is no word of the kind that was asked for.
#[derive(Clone, Copy, Debug, PartialEq, Eq, Error)]
pub enum WordFault {
    /// It is no name: see [`Name`](crate::Name).
    #[error("no name")]
    BadName,
    /// It is no decimal number.
    #[error("no number")]
    BadNumber,
    /// It has an odd number of hexadecimal digits, or a byte that is no digit.
    #[error("no hexadecimal text")]
    BadHex,
    /// Memory ran out.
    #[error("out of memory")]
    NoMemory,
}

impl From<AllocError> for WordFault {
    ghost from_gives = { λ _ fault. fault ≡ OutOfMemory };

    fn from(_: AllocError) -> WordFault {
        WordFault::NoMemory
    }
}
