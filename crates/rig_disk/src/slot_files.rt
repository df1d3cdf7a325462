//! The folders and files of slots: area A of slot NN is the file `slot.NN/area.A`. What they do is tested and trusted.
ghost use Rattle.std.specs.Prelude.{◌≤◌, length, IfOk};

use ec_words::NoMemory;
use std::alloc::Global;
use std::fs::{OpenFile, OpenOptions};
use std::io::{ErrorKind, Read, Seek, SeekFrom, Write};
use std::path::Path;
use std::rt::Runtime;
use std::{fs, io};

/// The count of areas: two of each slot.
const AREAS: usize = 34;

/// The folders `slot.00` to `slot.16` of a folder, and the files in them.
#[derive(Drop)]
pub struct SlotFiles<T: Runtime> {
    rt: T,
    alloc: Global,
    dir: String,
    areas: Vec<AreaFile<T::File>>,
}

impl<T: Runtime> SlotFiles<T> {
    /// The slots of a folder. It touches nothing.
    pub fn new(rt: T, alloc: Global, dir: &str) -> Result<SlotFiles<T>, NoMemory> {
        let mut areas = Vec::new(alloc);
        for _ in 0..AREAS {
            areas.push(AreaFile::Unasked)?;
        }
        Ok(SlotFiles {
            rt,
            alloc,
            dir: String::from_str(alloc, dir)?,
            areas,
        })
    }

    /// Whether a slot has a folder. One that cannot be asked about has none.
    pub fn has_slot(&self, slot: u8) -> Result<bool, NoMemory> {
        let path = format!(in self.alloc; "{}/slot.{slot:02}", self.dir)?;
        Ok(is_folder(&self.rt, path.as_str()))
    }

    /// Makes the folder of a slot and those above it, and syncs the folders that hold them.
    pub fn make_slot(&self, slot: u8) -> io::Result<()> {
        let path = format!(in self.alloc; "{}/slot.{slot:02}", self.dir)?;
        make_folder(&self.rt, path.as_str())
    }

    /// The length of an area in bytes.
    pub fn length(&mut self, slot: u8, area: u8) -> io::Result<u64> {
        let index = self.ask(slot, area)?;
        match self.areas.get(index) {
            Some(AreaFile::Open(open)) => Ok(open.len),
            _ => Ok(0),
        }
    }

    /// Reads from `at` on what fits and is there. It is an error if the file gives fewer bytes than its length says.
    pub fn read(&mut self, slot: u8, area: u8, at: u64, into: &mut [u8]) -> io::Result<usize>
        ensures { IfOk result (λ count. count ≤ length into.old) }
    {
        let index = self.ask(slot, area)?;
        match self.areas.get_mut(index) {
            Some(AreaFile::Open(open)) => open.read(at, into),
            _ => Ok(0),
        }
    }

    /// Writes from `at` on. The first write to an area makes its file.
    pub fn write(&mut self, slot: u8, area: u8, at: u64, bytes: &[u8]) -> io::Result<()> {
        let index = self.ask(slot, area)?;
        self.make_missing(index, slot, area)?;
        match self.areas.get_mut(index) {
            Some(AreaFile::Open(open)) => open.write(at, bytes),
            _ => Err(ErrorKind::NotFound.into()),
        }
    }

    /// Leaves the first `len` bytes of an area.
    pub fn cut(&mut self, slot: u8, area: u8, len: u64) -> io::Result<()> {
        let index = self.ask(slot, area)?;
        match self.areas.get_mut(index) {
            Some(AreaFile::Open(open)) => open.cut(len),
            _ => Ok(()),
        }
    }

    /// Syncs an area's bytes and length, and at its first sync the folder of the slot too: the run that made the file may
    /// have been stopped before it synced that.
    pub fn sync(&mut self, slot: u8, area: u8) -> io::Result<()> {
        let index = self.ask(slot, area)?;
        let folder = format!(in self.alloc; "{}/slot.{slot:02}", self.dir)?;
        match self.areas.get_mut(index) {
            Some(AreaFile::Open(open)) => open.sync(&self.rt, folder.as_str()),
            _ => Ok(()),
        }
    }

    /// Writes to standard output.
    pub fn say(&self, bytes: &[u8]) -> io::Result<()> {
        self.rt.write_all(bytes)
    }

    // The place of an area's file. The file is looked for at its first use.
    fn ask(&mut self, slot: u8, area: u8) -> io::Result<usize> {
        let index = 2 * usize::from(slot) + usize::from(area);
        if let Some(AreaFile::Unasked) = self.areas.get(index) {
            let found = self.find(slot, area)?;
            self.put(index, found);
        }
        Ok(index)
    }

    fn put(&mut self, index: usize, file: AreaFile<T::File>) {
        if let Some(place) = self.areas.get_mut(index) {
            *place = file;
        }
    }

    fn find(&self, slot: u8, area: u8) -> io::Result<AreaFile<T::File>> {
        let path = format!(in self.alloc; "{}/slot.{slot:02}/area.{area}", self.dir)?;
        find_file(&self.rt, path.as_str())
    }

    // Makes an area's file if there is none.
    fn make_missing(&mut self, index: usize, slot: u8, area: u8) -> io::Result<()> {
        if let Some(AreaFile::Missing) = self.areas.get(index) {
            let made = self.make(slot, area)?;
            self.put(index, made);
        }
        Ok(())
    }

    fn make(&self, slot: u8, area: u8) -> io::Result<AreaFile<T::File>> {
        let path = format!(in self.alloc; "{}/slot.{slot:02}/area.{area}", self.dir)?;
        make_file(&self.rt, path.as_str())
    }
}

fn find_file<T: Runtime>(rt: &T, path: &str) -> io::Result<AreaFile<T::File>> {
    match OpenOptions::new().read(true).write(true).open(rt, path) {
        Ok(file) => {
            let len = file.metadata()?.len();
            Ok(AreaFile::Open(opened(file, len)))
        }
        Err(error) if error.kind() == ErrorKind::NotFound => Ok(AreaFile::Missing),
        Err(error) => Err(error),
    }
}

fn make_file<T: Runtime>(rt: &T, path: &str) -> io::Result<AreaFile<T::File>> {
    let file = OpenOptions::new()
        .read(true)
        .write(true)
        .create_new(true)
        .open(rt, path)?;
    Ok(AreaFile::Open(opened(file, 0)))
}

/// What is known of an area's file.
#[derive(Drop)]
enum AreaFile<F: Drop> {
    Unasked,
    Missing,
    Open(OpenArea<F>),
}

/// An area's file. It stays open from its first use on.
#[derive(Drop)]
struct OpenArea<F: Drop> {
    file: F,
    /// The length in bytes, as the system said it at first and as the writes and cuts since then changed it.
    len: u64,
    /// The folder was synced since the file was opened.
    listed: bool,
}

// An area's file as it is opened.
fn opened<F: Drop>(file: F, len: u64) -> OpenArea<F> {
    let listed = false;
    OpenArea { file, len, listed }
}

impl<F: Read + Write + Seek + OpenFile + Drop> OpenArea<F> {
    fn read(&mut self, at: u64, into: &mut [u8]) -> io::Result<usize>
        ensures { IfOk result (λ count. count ≤ length into.old) }
    {
        let count = into.len().min(self.len.saturating_sub(at) as usize);
        if count == 0 {
            return Ok(0);
        }
        self.file.seek(SeekFrom::Start(at))?;
        self.file.read_exact(&mut into[..count])?;
        Ok(count)
    }

    fn write(&mut self, at: u64, bytes: &[u8]) -> io::Result<()> {
        self.file.seek(SeekFrom::Start(at))?;
        self.file.write_all(bytes)?;
        self.len = self.len.max(at.saturating_add(bytes.len() as u64));
        Ok(())
    }

    fn cut(&mut self, len: u64) -> io::Result<()> {
        let len = self.len.min(len);
        self.file.set_len(len)?;
        self.len = len;
        Ok(())
    }

    fn sync<T: Runtime>(&mut self, rt: &T, folder: &str) -> io::Result<()> {
        self.file.sync_data()?;
        if !self.listed {
            sync_folder(rt, folder)?;
            self.listed = true;
        }
        Ok(())
    }
}

fn is_folder<T: Runtime>(rt: &T, path: &str) -> bool {
    match fs::metadata(rt, path) {
        Ok(found) => found.is_dir(),
        Err(_) => false,
    }
}

// Makes a folder and those above it. Then it syncs the folder that holds it, and each folder that holds one that was made.
fn make_folder<T: Runtime>(rt: &T, path: &str) -> io::Result<()> {
    let missing = count_missing(rt, path).max(1);
    fs::create_dir_all(rt, path)?;
    for holder in Path::new(path).ancestors().skip(1).take(missing) {
        sync_folder(rt, holder.as_str())?;
    }
    Ok(())
}

// How many folders are missing among this one and those above it.
fn count_missing<T: Runtime>(rt: &T, path: &str) -> usize {
    let mut missing = 0usize;
    for folder in Path::new(path).ancestors() {
        if is_folder(rt, folder.as_str()) {
            break;
        }
        missing = missing.saturating_add(1);
    }
    missing
}

// Syncs the names in a folder. The empty path is the working folder.
fn sync_folder<T: Runtime>(rt: &T, path: &str) -> io::Result<()> {
    let path = if path.is_empty() { "." } else { path };
    fs::open(rt, path)?.sync_all()
}
