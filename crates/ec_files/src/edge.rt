//! Real files ([`DiskFiles`]). It does not tell its files, so what it reads and writes is tested and trusted. Its count of faults
//! is proved.
ghost use Rattle.std.specs.Prelude.{◌≡◌, ◌≤◌, Option, None, length, IfOk};
ghost use Rattle.rig_disk.specs.Faults.{HasCause};

use crate::limits::PIECE;
use crate::{FileFault, Files, MAX_FILE};
use ec_words::Bytes;
use rig_disk::Failed;
use std::alloc::Global;
use std::fs::{OpenFile, OpenOptions};
use std::io::{ErrorKind, Read, Write};
use std::rt::Runtime;
use std::{fs, io};

/// The files of the system, by their paths.
#[derive(Drop)]
pub struct DiskFiles<T: Runtime> {
    rt: T,
    faults: u64,
}

impl<T: Runtime> DiskFiles<T> {
    /// The files as they are. It touches no file.
    pub fn new(rt: T) -> DiskFiles<T>
        ensures { ⟦<DiskFiles<T> as Files>⟧.faults result ≡ 0 }
    {
        DiskFiles { rt, faults: 0 }
    }

    // Counts a write that failed.
    fn counted(&mut self, answer: io::Result<()>) -> Result<(), Failed>
        ensures { HasCause self.old.faults self.new.faults result }
    {
        match answer {
            Ok(()) => Ok(()),
            Err(_) => {
                self.faults = self.faults.saturating_add(1);
                Err(Failed)
            }
        }
    }
}

impl<T: Runtime> Files for DiskFiles<T> {
    ghost files = { λ _. None };

    ghost faults = { λ disk. disk.faults };

    fn read_file(&mut self, alloc: Global, name: &str, spare: usize) -> Result<Bytes, FileFault> {
        match read_whole(&self.rt, alloc, name, spare) {
            Err(FileFault::Failed) => {
                self.faults = self.faults.saturating_add(1);
                Err(FileFault::Failed)
            }
            answer => answer,
        }
    }

    fn write_file(&mut self, name: &str, bytes: &[u8]) -> Result<(), Failed> {
        let answer = write_whole(&self.rt, name, bytes);
        self.counted(answer)
    }

    fn append_file(&mut self, name: &str, bytes: &[u8]) -> Result<(), Failed> {
        let answer = append_piece(&self.rt, name, bytes);
        self.counted(answer)
    }
}

fn read_whole<T: Runtime>(
    rt: &T,
    alloc: Global,
    name: &str,
    spare: usize,
) -> Result<Bytes, FileFault>
    ensures bound { IfOk result (λ bytes. length bytes ≤ MAX_FILE) }
{
    match fs::open(rt, name) {
        Ok(file) => read_opened(file, alloc, spare),
        Err(error) if error.kind() == ErrorKind::NotFound => Err(FileFault::Missing),
        Err(_) => Err(FileFault::Failed),
    }
}

// The length is looked at before anything is read. A folder is no file.
fn read_opened<F: Read + OpenFile + Drop>(
    file: F,
    alloc: Global,
    spare: usize,
) -> Result<Bytes, FileFault>
    ensures bound { IfOk result (λ bytes. length bytes ≤ MAX_FILE) }
{
    match file.metadata() {
        Ok(found) if found.is_dir() => Err(FileFault::Failed),
        Ok(found) if found.len() > MAX_FILE as u64 => Err(FileFault::TooLong),
        Ok(found) => read_pieces(file, alloc, (found.len() as usize).saturating_add(spare)),
        Err(_) => Err(FileFault::Failed),
    }
}

/// Reads to the end, in memory that is taken for `room` bytes, and gives up if there are more than [`MAX_FILE`]: a file may
/// have grown since its length was looked at. An interrupted read is tried again.
pub fn read_pieces<F: Read + Drop>(
    mut file: F,
    alloc: Global,
    room: usize,
) -> Result<Bytes, FileFault>
    ensures bound { IfOk result (λ bytes. length bytes ≤ MAX_FILE) }
{
    let mut piece = vec![in alloc; 0u8; PIECE]?;
    let mut list = Vec::with_capacity(alloc, room)?;
    for _ in 0..u64::MAX {
        if read_piece(&mut file, &mut piece, &mut list)? {
            return Ok(Bytes::of(list));
        }
    }
    Err(FileFault::Failed)
}

// Appends what one read gives, and answers whether that was the end.
fn read_piece<F: Read>(
    file: &mut F,
    piece: &mut [u8],
    list: &mut Vec<u8>,
) -> Result<bool, FileFault>
    requires bound { length list.old.items ≤ MAX_FILE }
    ensures bound { length list.new.items ≤ MAX_FILE }
{
    match file.read(piece) {
        Ok(0) => Ok(true),
        Ok(count) => {
            append(list, &piece[..count])?;
            Ok(false)
        }
        Err(error) if error.kind() == ErrorKind::Interrupted => Ok(false),
        Err(_) => Err(FileFault::Failed),
    }
}

fn append(list: &mut Vec<u8>, piece: &[u8]) -> Result<(), FileFault>
    requires bound { length list.old.items ≤ MAX_FILE }
    ensures bound { length list.new.items ≤ MAX_FILE }
{
    if piece.len() > MAX_FILE - list.len() {
        return Err(FileFault::TooLong);
    }
    list.extend_from_slice(piece)?;
    Ok(())
}

// A failure may leave a part of the bytes.
fn write_whole<T: Runtime>(rt: &T, name: &str, bytes: &[u8]) -> io::Result<()> {
    let mut file = fs::create(rt, name)?;
    file.write_all(bytes)
}

// A failure may leave a part of the piece.
fn append_piece<T: Runtime>(rt: &T, name: &str, bytes: &[u8]) -> io::Result<()> {
    let mut file = OpenOptions::new().append(true).create(true).open(rt, name)?;
    file.write_all(bytes)
}
