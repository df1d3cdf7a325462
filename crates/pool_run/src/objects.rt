//! The objects of a run, in memory.
ghost use Rattle.std.specs.Prelude.{◌≡◌, ◌≤◌, ◌+◌, ◌&&◌, ◌∷◌, [], ℕ, Some, true, length, nat_le, nat_lt, IfOk, OnOk, OnErr};
ghost use Rattle.std.specs.Option.{option_map};
ghost use Rattle.std.specs.FinMap as map;
ghost use Rattle.shard_model.specs.Limits.{max_size};
ghost use Rattle.ec_model.specs.Codes.{CodeRows};
ghost use Rattle.ec_positions.specs.Objects.{Objects as ObjectMap, bytes_in, max_objects, max_usage, usage};
ghost use Rattle.ec_positions.specs.Updates.{Append, WriteAt, Full, Delete, after};
ghost use Rattle.ec_positions.specs.Refusals.{TooManyObjects, TooFull, first_of, refusal_of};
ghost use Rattle.ec_positions.specs.Commands.{Updates, Get, Stat, ListObjects, Refused};
ghost use Rattle.pool_run.specs.Lines.{command_in, is_served, line_shown};
ghost use Rattle.pool_run.specs.Replies.{shown};
ghost use Rattle.pool_run.specs.Served.{Serves};
ghost use Rattle.pool_run.specs.Stored.{AreStored, OfKept, bytes_at, nothing, or_zero, size_at};

use crate::limits::{MAX_OBJECTS, MAX_SIZE, MAX_USAGE};
use crate::line::Line;
use crate::object::StoredObject;
use crate::overlay::overlay;
use crate::reply::Reply;
use ec_code::Code;
use ec_words::{Bytes, Name, NoMemory};
use std::alloc::Global;
use std::collections::BTreeMap;
use std::marker::Model;

/// The objects of a run. A contract sees the map from their names to what is kept of them, their number and what they take.
#[derive(Drop)]
pub struct Objects {
    alloc: Global,
    objects: BTreeMap<Name, StoredObject>,
    usage: u64,
}

impl Model for Objects {
    ghost use Rattle.std.specs.Prelude.{length};
    ghost use Rattle.std.specs.FinMap as map;
    ghost use Rattle.pool_run.specs.Stored.{Kept, coded_kept};

    ghost Value = { Kept };

    ghost coded = { coded_kept };

    ghost view = { λ o. record { objects = map.from_entries o.objects.entries; count = length o.objects.entries; usage = o.usage } };
}

impl Objects {
    /// No objects. It takes no memory yet.
    pub fn new(alloc: Global) -> Objects
        ensures { result ≡ nothing }
    {
        Objects {
            alloc,
            objects: BTreeMap::new(alloc),
            usage: 0,
        }
    }

    /// Does a line that is served, and answers it. After an `Err` nothing has changed.
    pub fn apply(&mut self, line: Line, code: &dyn Code, unit: u32) -> Result<Reply, NoMemory>
        requires some { 1 ≤ unit }
        requires few { unit ≤ 65536 }
        requires served { is_served (line_shown line) ≡ true }
        requires stored { (objects : ObjectMap) × AreStored (meaning code.now) unit objects self.old }
        ensures done { IfOk result (Serves (meaning code.now) unit (command_in (line_shown line)) self.old self.new) }
        ensures unchanged { OnErr result (self.new ≡ self.old) }
    {
        match line {
            Line::Append { name, bytes } => self.append(name, &bytes, code, unit),
            Line::Write { name, off, bytes } => self.write(name, off, &bytes, code, unit),
            Line::Full { name, bytes } => self.full(name, &bytes, code, unit),
            Line::Delete { name } => Ok(self.delete(&name)),
            Line::Get { name } => self.get(&name, code, unit),
            Line::Stat { name } => self.stat(&name),
            Line::ListObjects => self.list(),
            Line::Flush => Ok(Reply::done(self.alloc)),
            _ => unreachable!(),
        }
    }

    // The bytes are put behind those of the object.
    fn append(
        &mut self,
        name: Name,
        bytes: &Bytes,
        code: &dyn Code,
        unit: u32,
    ) -> Result<Reply, NoMemory>
        requires some { 1 ≤ unit }
        requires few { unit ≤ 65536 }
        requires stored { (objects : ObjectMap) × AreStored (meaning code.now) unit objects self.old }
        ensures done { IfOk result (Serves (meaning code.now) unit (Some (Updates (Append name bytes.now))) self.old self.new) }
        ensures unchanged { OnErr result (self.new ≡ self.old) }
    {
        let mut all = self.bytes_or_none(&name, code, unit)?;
        all.extend(bytes.as_slice())?;
        self.full(name, &all, code, unit)
    }

    // The bytes are put from byte `off` of the object on.
    fn write(
        &mut self,
        name: Name,
        off: u64,
        bytes: &Bytes,
        code: &dyn Code,
        unit: u32,
    ) -> Result<Reply, NoMemory>
        requires some { 1 ≤ unit }
        requires few { unit ≤ 65536 }
        requires stored { (objects : ObjectMap) × AreStored (meaning code.now) unit objects self.old }
        ensures done { IfOk result (Serves (meaning code.now) unit (Some (Updates (WriteAt name off bytes.now))) self.old self.new) }
        ensures unchanged { OnErr result (self.new ≡ self.old) }
    {
        let old = self.bytes_or_none(&name, code, unit)?;
        let bytes = bytes.as_slice();
        if bytes.is_empty() {
            return self.full(name, &old, code, unit);
        }
        if off > MAX_SIZE as u64 {
            return Ok(Reply::TooLarge);
        }
        let all = overlay(old, off as usize, bytes)?;
        self.full(name, &all, code, unit)
    }

    // The object's bytes become these.
    fn full(
        &mut self,
        name: Name,
        bytes: &Bytes,
        code: &dyn Code,
        unit: u32,
    ) -> Result<Reply, NoMemory>
        requires some { 1 ≤ unit }
        requires few { unit ≤ 65536 }
        requires stored { (objects : ObjectMap) × AreStored (meaning code.now) unit objects self.old }
        ensures done { IfOk result (Serves (meaning code.now) unit (Some (Updates (Full name bytes.now))) self.old self.new) }
        ensures unchanged { OnErr result (self.new ≡ self.old) }
    {
        match self.refusal(&name, bytes.as_slice()) {
            Some(refused) => return Ok(refused),
            None => {}
        }
        self.set_bytes(name, bytes, code, unit)?;
        Ok(Reply::done(self.alloc))
    }

    // The reply that refuses these bytes to the object of this name, if they are refused.
    fn refusal(&self, name: &Name, bytes: &[u8]) -> Option<Reply>
        requires stored { (code : CodeRows) × (unit : ℕ) × (objects : ObjectMap) × AreStored code unit objects self.now }
        ensures { (code : CodeRows) (unit : ℕ) → OfKept code unit self.now (λ objects.
            option_map shown result ≡ option_map (λ why. Refused why) (refusal_of objects (Full name.now bytes.now))) }
    {
        let before = self.size_of(name);
        if bytes.len() > MAX_SIZE {
            return Some(Reply::TooLarge);
        }
        let usage = usage_with(self.usage, before, bytes.len() as u64);
        limit(before.is_none(), self.objects.len(), usage)
    }

    // The object of this name gets these bytes. After an `Err` nothing has changed.
    fn set_bytes(
        &mut self,
        name: Name,
        bytes: &Bytes,
        code: &dyn Code,
        unit: u32,
    ) -> Result<(), NoMemory>
        requires some { 1 ≤ unit }
        requires few { unit ≤ 65536 }
        requires stored { (objects : ObjectMap) × AreStored (meaning code.now) unit objects self.old }
        requires within_limit { length bytes.now ≤ max_size }
        ensures ok { OnOk result (OfKept (meaning code.now) unit self.old (λ objects.
            usage (after objects (Full name bytes.now)) ≤ max_usage
            → AreStored (meaning code.now) unit (after objects (Full name bytes.now)) self.new)) }
        ensures unchanged { OnErr result (self.new ≡ self.old) }
    {
        let usage = usage_with(
            self.usage,
            self.size_of(&name),
            bytes.as_slice().len() as u64,
        );
        let object = StoredObject::encode(self.alloc, code, unit, bytes.as_slice())?;
        self.objects.insert(name, object)?;
        self.usage = usage;
        Ok(())
    }

    // The object of this name goes.
    fn delete(&mut self, name: &Name) -> Reply
        requires stored { (code : CodeRows) × (unit : ℕ) × (objects : ObjectMap) × AreStored code unit objects self.old }
        ensures { (code : CodeRows) (unit : ℕ) → Serves code unit (Some (Updates (Delete name.now))) self.old self.new result }
    {
        match self.objects.remove(name) {
            Some(object) => {
                self.usage -= u64::from(object.size());
                Reply::done(self.alloc)
            }
            None => Reply::Absent,
        }
    }

    fn get(&self, name: &Name, code: &dyn Code, unit: u32) -> Result<Reply, NoMemory>
        requires some { 1 ≤ unit }
        requires few { unit ≤ 65536 }
        requires stored { (objects : ObjectMap) × AreStored (meaning code.now) unit objects self.now }
        ensures { IfOk result (Serves (meaning code.now) unit (Some (Get name.now)) self.now self.now) }
    {
        match self.bytes(name, code, unit)? {
            Some(bytes) => Reply::of_bytes(self.alloc, bytes.as_slice()),
            None => Ok(Reply::Absent),
        }
    }

    fn stat(&self, name: &Name) -> Result<Reply, NoMemory>
        ensures { IfOk result (λ reply. (code : CodeRows) (unit : ℕ) → Serves code unit (Some (Stat name.now)) self.now self.now reply) }
    {
        match self.size_of(name) {
            Some(size) => Reply::of_number(self.alloc, size),
            None => Ok(Reply::Absent),
        }
    }

    // All names in their order, with the sizes of their objects.
    fn list(&self) -> Result<Reply, NoMemory>
        ensures { IfOk result (λ reply. (code : CodeRows) (unit : ℕ) → Serves code unit (Some ListObjects) self.now self.now reply) }
    {
        let mut entries = Vec::new(self.alloc);
        for (name, object) in self.objects.iter() {
            let name = name.copy(self.alloc)?;
            entries.push((name, object.size()))?;
        }
        Ok(Reply::Listing(entries))
    }

    // The bytes of the object of this name; none if it is not there.
    fn bytes_or_none(&self, name: &Name, code: &dyn Code, unit: u32) -> Result<Bytes, NoMemory>
        requires some { 1 ≤ unit }
        requires few { unit ≤ 65536 }
        requires stored { (objects : ObjectMap) × AreStored (meaning code.now) unit objects self.now }
        ensures { IfOk result (λ found. OfKept (meaning code.now) unit self.now (λ objects.
            found ≡ bytes_in (map.get objects name.now))) }
    {
        match self.bytes(name, code, unit)? {
            Some(bytes) => Ok(bytes),
            None => Ok(Bytes::new(self.alloc)),
        }
    }

    fn bytes(&self, name: &Name, code: &dyn Code, unit: u32) -> Result<Option<Bytes>, NoMemory>
        requires some { 1 ≤ unit }
        requires few { unit ≤ 65536 }
        requires stored { (objects : ObjectMap) × AreStored (meaning code.now) unit objects self.now }
        ensures { IfOk result (λ found. OfKept (meaning code.now) unit self.now (λ objects.
            found ≡ bytes_at objects name.now)) }
    {
        match self.objects.get(name) {
            Some(object) => Ok(Some(object.decode(self.alloc, code, unit)?)),
            None => Ok(None),
        }
    }

    // The size of the object of this name, if it is there.
    fn size_of(&self, name: &Name) -> Option<u32>
        ensures { (code : CodeRows) (unit : ℕ) → OfKept code unit self.now (λ objects. result ≡ size_at objects name.now) }
    {
        match self.objects.get(name) {
            Some(object) => Some(object.size()),
            None => None,
        }
    }
}

// What objects take that take `usage`, once one of them has this size in place of the one before.
fn usage_with(usage: u64, before: Option<u32>, size: u64) -> u64
    requires taken { or_zero before ≤ usage }
    requires within { usage ≤ max_usage }
    requires small { size ≤ max_size }
    ensures { result + or_zero before ≡ usage + size }
{
    match before {
        Some(before) => usage - u64::from(before) + size,
        None => usage + size,
    }
}

// The reply that refuses an object beside others, by their number and by what all take with it.
fn limit(is_new: bool, count: usize, usage: u64) -> Option<Reply>
    ensures { option_map shown result ≡ option_map (λ why. Refused why)
        (first_of ((is_new && nat_le max_objects count, TooManyObjects) ∷ (nat_lt max_usage usage, TooFull) ∷ [])) }
{
    if is_new && count >= MAX_OBJECTS {
        Some(Reply::TooManyObjects)
    } else if usage > MAX_USAGE {
        Some(Reply::TooFull)
    } else {
        None
    }
}
