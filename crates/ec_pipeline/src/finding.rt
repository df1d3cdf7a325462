//! Objects, as the joined slots have them.
ghost use Rattle.std.specs.Prelude.{◌≡◌, ◌<◌, ◌≤◌, ◌^◌, ◌⊎◌, ◌↔◌, ℕ, length, Some, None, Err, IfErr, IfOk, IsErrOf, IsSomeAnd};
ghost use Rattle.std.specs.FinMap as fin;
ghost use Rattle.ec_model.specs.Codes.{CodeRows, HasPosition, LiesBelow};
ghost use Rattle.ec_model.specs.Stripes.{shard_len};
ghost use Rattle.ec_model.specs.Versions.{Version as Meant};
ghost use Rattle.rig_disk.specs.Faults.{Rose};
ghost use Rattle.shard_model.specs.Limits.{max_size};
ghost use Rattle.shard_store.specs.Shelves.{store_at};
ghost use Rattle.shard_store.specs.Stored.{told_in};
ghost use Rattle.shard_store.specs.Told.{IsAccepted};
ghost use Rattle.ec_positions.specs.Objects.{Objects};
ghost use Rattle.ec_pipeline.specs.Drafts.{HasSize, size_or_none};
ghost use Rattle.ec_pipeline.specs.Finding.{AreReadable, IsFound, IsFoundIn, LacksFound, bytes_if, read_fault, size_read};
ghost use Rattle.ec_pipeline.specs.Reading.{AreIdle, AreStored, DecidesAll, FetchesPlan, OnlyFetches};
ghost use Rattle.ec_pipeline.specs.Showing.{ShowsAt};

use crate::checking::{held_size, lowest};
use crate::reading::read_part;
use crate::{Pipeline, PrepareFault, ReadFault};
use ec_code::Code;
use ec_words::{Bytes, Geometry, Mask, Name};
use rig_disk::Rig;
use shard_state::ShardState;
use shard_store::Shelf;
use std::alloc::Global;

impl Pipeline {
    /// The size of an object in bytes. It takes no memory.
    pub fn stat(&self, shelf: &Shelf, joined: Mask, name: &Name) -> Result<u32, ReadFault>
        requires some { 1 ≤ joined.0 }
        requires few { joined.0 < 2 ^ 16 }
        requires there { (s : ℕ) → HasPosition joined.0 s → IsSomeAnd (store_at shelf.now s) (λ store. IsAccepted (told_in store)) }
        ensures value { (code : CodeRows) (unit : ℕ) (objects : Objects) (head : Meant) → ShowsAt code unit joined.0 objects head shelf.now
            → HasSize (fin.get objects name.now) (size_read result) }
        ensures faults { IfErr result (λ fault. fault ≡ ReadFault.Absent) }
    {
        match found(shelf, joined, name).1 {
            Some(size) => Ok(size),
            None => Err(ReadFault::Absent),
        }
    }

    /// The bytes of an object, read by the least plan of the joined slots for the data positions.
    pub fn get<R: Rig>(
        &self,
        alloc: Global,
        shelf: &mut Shelf,
        rig: &mut R,
        code: &dyn Code,
        joined: Mask,
        name: &Name,
    ) -> Result<Bytes, ReadFault>
        requires some { 1 ≤ joined.0 }
        requires few { joined.0 < 2 ^ 16 }
        requires below { LiesBelow (meaning code.now).n joined.0 }
        requires decides { DecidesAll (meaning code.now) joined.0 }
        requires readable { AreReadable (meaning code.now).k joined.0 shelf.old }
        requires idle { AreIdle (R.is_here rig.old) (R.reads rig.old) (R.images rig.old (R.clock rig.old)) joined.0 shelf.old }

        ensures value { IfOk result (λ bytes. (unit : ℕ) (objects : Objects) (head : Meant) → ShowsAt (meaning code.now) unit joined.0 objects head shelf.old
            → AreStored (R.reads rig.old) (R.images rig.old (R.clock rig.old)) joined.0 shelf.old → bytes_if (fin.get objects name.now) ≡ Some bytes) }
        ensures absent { (unit : ℕ) (objects : Objects) (head : Meant) → ShowsAt (meaning code.now) unit joined.0 objects head shelf.old
            → (result ≡ Err ReadFault.Absent) ↔ (fin.get objects name.now ≡ None) }
        ensures counted { IfOk result (λ bytes. (unit : ℕ) (objects : Objects) (head : Meant) → ShowsAt (meaning code.now) unit joined.0 objects head shelf.old
            → FetchesPlan (meaning code.now) joined.0 (shard_len (meaning code.now).k unit (length bytes)) shelf.old shelf.new) }
        ensures slot { (s : ℕ) → IsErrOf result (ReadFault.Slot s) → Rose (R.faults rig.old s) (R.faults rig.new s) ⊎ LacksFound joined.0 shelf.old name.now s }
        ensures by_count { (unit : ℕ) (objects : Objects) (head : Meant) (s : ℕ) → ShowsAt (meaning code.now) unit joined.0 objects head shelf.old
            → IsErrOf result (ReadFault.Slot s) → Rose (R.faults rig.old s) (R.faults rig.new s) }
        ensures quiet { (s : ℕ) → (IsErrOf result (ReadFault.Slot s) → ⊥) → R.faults rig.new s ≡ R.faults rig.old s }
        ensures stores { (s : ℕ) → store_at shelf.new s ≡ store_at shelf.old s }
        ensures rig { OnlyFetches R.is_here R.reads R.said R.clock R.images R.syncs R.bytes_written rig.old rig.new }
    {
        let there = found(shelf, joined, name);
        match there.1 {
            None => Err(ReadFault::Absent),
            Some(size) => {
                match read_part(alloc, shelf, rig, code, there.0, joined, name, 0, size) {
                    Ok(bytes) => Ok(bytes),
                    Err(fault) => Err(read_fault(fault)),
                }
            }
        }
    }
}

// A fault of a range that is read, as the fault of a read.
fn read_fault(fault: PrepareFault) -> ReadFault
    ensures { result ≡ read_fault fault }
{
    match fault {
        PrepareFault::Slot { slot } => ReadFault::Slot { slot },
        PrepareFault::NoMemory => ReadFault::NoMemory,
        PrepareFault::Refused(_) => ReadFault::NoMemory,
        PrepareFault::Worn => ReadFault::NoMemory,
    }
}

// The stripes of the lowest joined slot, and the size that it has of an object in bytes, if it is there.
fn found(shelf: &Shelf, joined: Mask, name: &Name) -> (Geometry, Option<u32>)
    requires some { 1 ≤ joined.0 }
    requires few { joined.0 < 2 ^ 16 }
    requires there { (s : ℕ) → HasPosition joined.0 s → IsSomeAnd (store_at shelf.now s) (λ store. IsAccepted (told_in store)) }
    ensures value { IsFound joined.0 shelf.now name.now result.0.k result.0.unit result.1 }
    ensures small { size_or_none result.1 ≤ max_size }
{
    match lowest(joined) {
        None => unreachable!(),
        Some(lead) => match shelf.get(lead) {
            None => unreachable!(),
            Some(store) => found_in(store.state(), name),
        },
    }
}

// The stripes of a shard, and the size that it has of an object in bytes, if it is there.
fn found_in(state: &ShardState, name: &Name) -> (Geometry, Option<u32>)
    ensures { IsFoundIn state.now name.now result.0.k result.0.unit result.1 }
{
    (state.geometry(), held_size(state.object(name)))
}
