//! Reading one file, and writing a piece of one.
ghost use Rattle.std.specs.Prelude.{◌≡◌, ◌≢◌, ◌≤◌, ℕ, List, Option, Ok, Err, IfOk, IfErr, IsErr, OnOk, length, string_bytes};
ghost use Rattle.std.specs.FinMap as map;
ghost use Rattle.rig_disk.specs.Faults.{HasCause, Rose};
ghost use Rattle.ec_files.specs.Files.{max_file};
ghost use Rattle.ec_files.specs.Accesses.{Puts, ReadsOrStops};
ghost use Rattle.ec_files.specs.Stops.{status_after};

use crate::stop::Stop;
use crate::{FileFault, Files};
use ec_words::Bytes;
use rig_disk::Failed;
use std::alloc::Global;

/// All bytes of a file, with room for `spare` bytes more.
pub fn read<F: Files>(
    alloc: Global,
    name: String,
    spare: usize,
    files: &mut F,
) -> Result<Bytes, Stop>
    ensures value { ReadsOrStops (F.files files.old) (string_bytes name) result }
    ensures bound { IfOk result (λ bytes. length bytes ≤ max_file) }
    ensures kept { F.files files.new ≡ F.files files.old }
    ensures failed { status_after result ≡ 5 → Rose (F.faults files.old) (F.faults files.new) }
    ensures quiet { status_after result ≢ 5 → F.faults files.new ≡ F.faults files.old }
{
    match files.read_file(alloc, &name, spare) {
        Ok(bytes) => Ok(bytes),
        Err(FileFault::Missing) => Err(Stop::Missing(name)),
        Err(FileFault::TooLong) => Err(Stop::TooLong(name)),
        Err(FileFault::Failed) => Err(Stop::Failed(name)),
        Err(FileFault::NoMemory) => Err(Stop::NoMemory),
    }
}

/// Makes a piece the first bytes of a file, or adds it to the file.
pub fn put<F: Files>(name: &str, first: bool, piece: &[u8], files: &mut F) -> Result<(), Failed>
    ensures value { Puts (F.files files.old) (F.files files.new) name.now first piece.now result }
    ensures cause { HasCause (F.faults files.old) (F.faults files.new) result }
{
    if first {
        files.write_file(name, piece)
    } else {
        files.append_file(name, piece)
    }
}
