//! The real outside: folders and standard output ([`FileRig`]), and standard input ([`StdSource`]). Both tell no
//! contents, so what they do to files and streams is tested and trusted, and their counts of faults are proved.
ghost use Rattle.std.specs.Prelude.{◌≡◌, ◌≢◌, ◌<◌, ◌≤◌, ℕ, List, length, Option, None, IfOk, true, false, slice_index_or};
ghost use Rattle.rig_disk.specs.Faults.{Rose, count_limit};

use crate::limits::{COUNTED, SLOTS};
use crate::slot_files::SlotFiles;
use crate::{Failed, Rig, Source, VOICE};
use ec_words::NoMemory;
use std::alloc::Global;
use std::io;
use std::io::{ErrorKind, Read};
use std::rt::Runtime;

/// A rig over the folders `slot.00` to `slot.16` of a folder. It speaks to standard output.
#[derive(Drop)]
pub struct FileRig<T: Runtime> {
    files: SlotFiles<T>,
    here: [bool; SLOTS],
    faults: [u64; COUNTED],
}

impl<T: Runtime> FileRig<T> {
    /// Asks which slots have a folder in `dir`, and touches nothing. One that cannot be asked about is not here.
    pub fn open(rt: T, alloc: Global, dir: &str) -> Result<FileRig<T>, NoMemory>
        ensures { IfOk result (λ rig. (slot : ℕ) → ⟦<FileRig<T> as Rig>⟧.faults rig slot ≡ 0) }
    {
        let files = SlotFiles::new(rt, alloc, dir)?;
        let mut here = [false; SLOTS];
        for slot in 0..SLOTS {
            here[slot] = files.has_slot(slot as u8)?;
        }
        Ok(FileRig {
            files,
            here,
            faults: [0; COUNTED],
        })
    }
}

// Counts a fault.
fn count_fault(faults: &mut [u64; COUNTED], slot: u8)
    requires { slot ≤ 17 }
    ensures rose { Rose (slice_index_or faults.old slot 0) (slice_index_or faults.new slot 0) }
    ensures later { slice_index_or faults.old slot 0 ≤ slice_index_or faults.new slot 0 }
    ensures at_limit { slice_index_or faults.old slot 0 ≡ count_limit
        → slice_index_or faults.new slot 0 ≡ slice_index_or faults.old slot 0 }
    ensures others { (s : ℕ) → s ≢ slot
        → slice_index_or faults.new s 0 ≡ slice_index_or faults.old s 0 }
{
    let at = usize::from(slot);
    faults[at] = faults[at].saturating_add(1);
}

impl<T: Runtime> Rig for FileRig<T> {
    ghost use Rattle.rig_disk.specs.Untold.{none_told};

    ghost is_here = { λ rig slot. slice_index_or rig.here slot false ≡ true };

    ghost reads = { λ rig slot area. None };

    ghost said = { λ rig. None };

    ghost clock = { λ rig. 0 };

    ghost images = { λ rig t image text. ⊥ };

    ghost faults = { λ rig slot. slice_index_or rig.faults slot 0 };

    ghost syncs = { λ rig slot. None };

    ghost bytes_written = { λ rig slot. None };

    ghost bytes_read = { λ rig slot. None };

    ghost as_read = { λ rig s a there told. absurd (none_told told) };

    ghost said_now = { λ rig image text now. absurd now };

    fn here(&self, slot: u8) -> bool {
        self.here[usize::from(slot)]
    }

    fn place(&mut self, slot: u8) -> Result<(), Failed> {
        match self.files.make_slot(slot) {
            Ok(()) => {
                self.here[usize::from(slot)] = true;
                Ok(())
            }
            Err(_) => {
                count_fault(&mut self.faults, slot);
                Err(Failed)
            }
        }
    }

    fn length(&mut self, slot: u8, area: u8) -> Result<u64, Failed> {
        match self.files.length(slot, area) {
            Ok(len) => Ok(len),
            Err(_) => {
                count_fault(&mut self.faults, slot);
                Err(Failed)
            }
        }
    }

    fn read_at(&mut self, slot: u8, area: u8, at: u64, into: &mut [u8]) -> Result<usize, Failed> {
        match self.files.read(slot, area, at, into) {
            Ok(count) => Ok(count),
            Err(_) => {
                count_fault(&mut self.faults, slot);
                Err(Failed)
            }
        }
    }

    fn write_at(&mut self, slot: u8, area: u8, at: u64, bytes: &[u8]) -> Result<(), Failed> {
        match self.files.write(slot, area, at, bytes) {
            Ok(()) => Ok(()),
            Err(_) => {
                count_fault(&mut self.faults, slot);
                Err(Failed)
            }
        }
    }

    fn cut(&mut self, slot: u8, area: u8, len: u64) -> Result<(), Failed> {
        match self.files.cut(slot, area, len) {
            Ok(()) => Ok(()),
            Err(_) => {
                count_fault(&mut self.faults, slot);
                Err(Failed)
            }
        }
    }

    fn sync(&mut self, slot: u8, area: u8) -> Result<(), Failed> {
        match self.files.sync(slot, area) {
            Ok(()) => Ok(()),
            Err(_) => {
                count_fault(&mut self.faults, slot);
                Err(Failed)
            }
        }
    }

    fn say(&mut self, bytes: &[u8]) -> Result<(), Failed> {
        match self.files.say(bytes) {
            Ok(()) => Ok(()),
            Err(_) => {
                count_fault(&mut self.faults, VOICE);
                Err(Failed)
            }
        }
    }
}

/// Standard input. A read that was interrupted is made again.
#[derive(Drop)]
pub struct StdSource<T: Runtime> {
    rt: T,
    faults: u64,
}

impl<T: Runtime> StdSource<T> {
    /// The input from where it stands.
    pub fn new(rt: T) -> StdSource<T>
        ensures { ⟦<StdSource<T> as Source>⟧.faults result ≡ 0 }
    {
        StdSource { rt, faults: 0 }
    }
}

// Reads, and once more each time that the read is interrupted.
fn read_again<S: Read>(input: &mut S, into: &mut [u8]) -> io::Result<usize>
    ensures { IfOk result (λ count. count ≤ length into.new) }
{
    for _ in 0..u64::MAX {
        match input.read(into) {
            Err(error) if error.kind() == ErrorKind::Interrupted => {}
            answer => return answer,
        }
    }
    Err(ErrorKind::Interrupted.into())
}

impl<T: Runtime> Source for StdSource<T> {
    ghost left = { λ _. None };

    ghost faults = { λ source. source.faults };

    fn take(&mut self, into: &mut [u8]) -> Result<usize, Failed> {
        match read_again(&mut self.rt.reader(), into) {
            Ok(count) => Ok(count),
            Err(_) => {
                self.faults = self.faults.saturating_add(1);
                Err(Failed)
            }
        }
    }
}
