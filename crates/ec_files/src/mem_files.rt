//! Files in memory, for tests. They tell everything, and fail when it is planned.
ghost use Rattle.std.specs.Prelude.{◌≡◌, ◌≤◌, ◌↔◌, ◌-◌, ◌++◌, Option, Some, Err, length, IfOk, OnOk, OnErr, IsErr, option_copied};
ghost use Rattle.std.specs.FinMap as map;

use crate::{FileFault, Files, MAX_FILE};
use ec_words::{Bytes, NoMemory};
use rig_disk::Failed;
use std::alloc::Global;
use std::collections::BTreeMap;

/// Files in memory. A failed call changes no file.
#[derive(Drop)]
pub struct MemFiles {
    alloc: Global,
    kept: BTreeMap<String, Bytes>,
    planned: u64,
    faults: u64,
}

impl MemFiles {
    ghost use Rattle.rig_disk.specs.Faults.{HasCause};
    ghost use Rattle.stripe_map.specs.Decoding.{bytes_of};
    ghost use Rattle.ec_files.specs.MemFiles.{IsNew, files_of, faults_of, planned_of};

    /// It has no files, no fault, and no planned fault.
    pub fn new(alloc: Global) -> Result<MemFiles, NoMemory>
        ensures { IfOk result IsNew }
    {
        Ok(MemFiles {
            alloc,
            kept: BTreeMap::new(alloc),
            planned: 0,
            faults: 0,
        })
    }

    /// Makes these the bytes of a file. It is no call of the trait, and is not counted as one.
    pub fn put(&mut self, name: &str, bytes: Bytes) -> Result<(), NoMemory>
        ensures ok { OnOk result (files_of self.new ≡ map.insert (files_of self.old) name.now bytes) }
        ensures unchanged { OnErr result (files_of self.new ≡ files_of self.old) }
        ensures faults { faults_of self.new ≡ faults_of self.old }
        ensures planned { planned_of self.new ≡ planned_of self.old }
    {
        let name = String::from_str(self.alloc, name)?;
        self.kept.insert(name, bytes)?;
        Ok(())
    }

    /// Lets the `nth` further call of the trait fail, from 1, in place of a call that was planned before. 0 plans no failure.
    pub fn fail_at(&mut self, nth: u64)
        ensures planned { planned_of self.new ≡ nth }
        ensures files { files_of self.new ≡ files_of self.old }
        ensures faults { faults_of self.new ≡ faults_of self.old }
    {
        self.planned = nth;
    }

    /// The bytes of a file.
    pub fn bytes(&self, name: &str) -> Option<&[u8]>
        ensures { option_copied result ≡ map.get (files_of self.now) name.now }
    {
        match self.kept.get(name) {
            Some(bytes) => Some(bytes.as_slice()),
            None => None,
        }
    }

    // Counts a call of the trait, and fails if it is the planned one.
    fn count_call(&mut self) -> Result<(), Failed>
        ensures planned { IsErr result ↔ (planned_of self.old ≡ 1) }
        ensures counted { planned_of self.new ≡ planned_of self.old - 1 }
        ensures cause { HasCause (faults_of self.old) (faults_of self.new) result }
        ensures files { files_of self.new ≡ files_of self.old }
    {
        let fails = self.planned == 1;
        self.planned = self.planned.saturating_sub(1);
        if fails {
            self.faults = self.faults.saturating_add(1);
            return Err(Failed);
        }
        Ok(())
    }

    fn put_copy(&mut self, name: &str, bytes: &[u8]) -> Result<(), NoMemory>
        ensures ok { OnOk result (files_of self.new ≡ map.insert (files_of self.old) name.now bytes.now) }
        ensures unchanged { OnErr result (files_of self.new ≡ files_of self.old) }
        ensures faults { faults_of self.new ≡ faults_of self.old }
        ensures planned { planned_of self.new ≡ planned_of self.old }
    {
        let copy = Bytes::from_slice(self.alloc, bytes)?;
        self.put(name, copy)
    }

    fn put_more(&mut self, name: &str, bytes: &[u8]) -> Result<(), NoMemory>
        ensures ok { OnOk result (files_of self.new ≡ map.insert (files_of self.old) name.now (bytes_of (map.get (files_of self.old) name.now) ++ bytes.now)) }
        ensures unchanged { OnErr result (files_of self.new ≡ files_of self.old) }
        ensures faults { faults_of self.new ≡ faults_of self.old }
        ensures planned { planned_of self.new ≡ planned_of self.old }
    {
        let mut whole = self.copy_of(name)?;
        whole.extend_from_slice(bytes)?;
        self.put(name, Bytes::of(whole))
    }

    // The bytes of a file; empty if it is not there.
    fn copy_of(&self, name: &str) -> Result<Vec<u8>, NoMemory>
        ensures { IfOk result (λ copy. copy.items ≡ bytes_of (map.get (files_of self.now) name.now)) }
    {
        let there = self.bytes(name).unwrap_or(&[]);
        Ok(Vec::from_slice(self.alloc, there)?)
    }
}

impl Files for MemFiles {
    ghost use Rattle.rig_disk.specs.Faults.{HasCause};
    ghost use Rattle.ec_files.specs.Files.{Appends, FileMap, HasReadCause, Reads, Writes};
    ghost use Rattle.ec_files.specs.MemFiles.{files_of, faults_of, planned_of};

    ghost files = { λ mem. Some (files_of mem) };

    ghost faults = { faults_of };

    fn read_file(&mut self, alloc: Global, name: &str, _spare: usize) -> Result<Bytes, FileFault>
        ensures value { Reads (Some (files_of self.old)) name.now result }
        ensures bound { IfOk result (λ bytes. length bytes ≤ MAX_FILE) }
        ensures kept { Some (files_of self.new) ≡ Some (files_of self.old) }
        ensures cause { HasReadCause (faults_of self.old) (faults_of self.new) result }
        ensures planned { (result ≡ Err FileFault.Failed) ↔ (planned_of self.old ≡ 1) }
        ensures counted { planned_of self.new ≡ planned_of self.old - 1 }
    {
        if self.count_call().is_err() {
            return Err(FileFault::Failed);
        }
        match self.bytes(name) {
            Some(bytes) if bytes.len() > MAX_FILE => Err(FileFault::TooLong),
            Some(bytes) => Ok(Bytes::from_slice(alloc, bytes)?),
            None => Err(FileFault::Missing),
        }
    }

    fn write_file(&mut self, name: &str, bytes: &[u8]) -> Result<(), Failed>
        ensures written { Writes (Some (files_of self.old)) (Some (files_of self.new)) name.now bytes.now result }
        ensures unchanged { OnErr result (files_of self.new ≡ files_of self.old) }
        ensures cause { HasCause (faults_of self.old) (faults_of self.new) result }
        ensures planned { planned_of self.old ≡ 1 → IsErr result }
        ensures counted { planned_of self.new ≡ planned_of self.old - 1 }
    {
        self.count_call()?;
        if self.put_copy(name, bytes).is_err() {
            self.faults = self.faults.saturating_add(1);
            return Err(Failed);
        }
        Ok(())
    }

    fn append_file(&mut self, name: &str, bytes: &[u8]) -> Result<(), Failed>
        ensures written { Appends (Some (files_of self.old)) (Some (files_of self.new)) name.now bytes.now result }
        ensures unchanged { OnErr result (files_of self.new ≡ files_of self.old) }
        ensures cause { HasCause (faults_of self.old) (faults_of self.new) result }
        ensures planned { planned_of self.old ≡ 1 → IsErr result }
        ensures counted { planned_of self.new ≡ planned_of self.old - 1 }
    {
        self.count_call()?;
        if self.put_more(name, bytes).is_err() {
            self.faults = self.faults.saturating_add(1);
            return Err(Failed);
        }
        Ok(())
    }
}
