//! The status and the line of each reason to stop.
ghost use Rattle.std.specs.Prelude.{◌≡◌, IfOk};
ghost use Rattle.ec_files.specs.Stops.{status_of, line_of, stop_of_registry};
ghost use Rattle.ec_files.specs.Texts.{line_with};

use crate::stop::Stop;
use crate::texts::{LENGTHS, NOT_DECIDED, USAGE};
use ec_words::{Bytes, NoMemory};
use plugin_reg::{RegFault, print_fault};
use std::alloc::Global;

impl Stop {
    /// The exit status.
    pub fn status(&self) -> u8
        ensures { result ≡ status_of self.now }
    {
        match self {
            Stop::Usage => 2,
            Stop::Profile(_) => 3,
            Stop::Missing(_) => 4,
            Stop::Failed(_) => 5,
            Stop::NotDecided => 6,
            Stop::Lengths => 7,
            Stop::TooLong(_) => 8,
            Stop::NoMemory => 13,
        }
    }

    /// The line that is said; none if memory ran out.
    pub fn line(&self, alloc: Global) -> Result<Bytes, NoMemory>
        ensures { IfOk result (λ line. line ≡ line_of self.now) }
    {
        match self {
            Stop::Usage => Bytes::from_slice(alloc, USAGE),
            Stop::Profile(fault) => print_fault(alloc, fault),
            Stop::Missing(name) => line_with(alloc, "missing", name),
            Stop::Failed(name) => line_with(alloc, "failed", name),
            Stop::NotDecided => Bytes::from_slice(alloc, NOT_DECIDED),
            Stop::Lengths => Bytes::from_slice(alloc, LENGTHS),
            Stop::TooLong(name) => line_with(alloc, "too long", name),
            Stop::NoMemory => Ok(Bytes::new(alloc)),
        }
    }
}

impl From<RegFault> for Stop {
    ghost from_gives = { λ fault stop. stop ≡ stop_of_registry fault };

    fn from(fault: RegFault) -> Stop {
        match fault {
            RegFault::Profile(fault) => Stop::Profile(fault),
            RegFault::NoMemory => Stop::NoMemory,
        }
    }
}

// A word, and the name of a file.
fn line_with(alloc: Global, word: &str, name: &str) -> Result<Bytes, NoMemory>
    ensures { IfOk result (λ line. line ≡ line_with word.now name.now) }
{
    let line = format!(in alloc; "{word} {name}\n")?;
    Bytes::from_slice(alloc, line.as_bytes())
}
