//! A shard that starts an epoch: its record, and a failed call.
ghost use Rattle.std.specs.Prelude.{IfOk};
ghost use Rattle.pool_tests.specs.Started.{IsFirst};

use ec_words::{Geometry, Version};
use pool_slots::start_stored;
use rig_disk::{MemRig, Rig};
use shard_store::{Shelf, Store, StoreFault};
use std::alloc::Global;
use std::test::Fail;

const GEOMETRY: Geometry = Geometry { k: 2, unit: 32 };

// The calls on a slot that place it and make its store.
const MADE: u64 = 13;

const BASE: Version = Version { epoch: 0, seq: 0 };

// The header of slot 0's text, the record of the step Started 1, that of Started 4, and a closed gate.
const STARTED: &[u8; 45] =
    b"OECSHARD\x01\0\x02\x03\0\0\0\x20\0\0\0\0\0\0\0\0O\0\0\0\x05\x07\0\0\0\x01O\0\0\0\x05\x07\0\0\0\x04\0";

/// Makes a shard in slot 0.
fn made(alloc: Global, rig: &mut MemRig) -> Result<Store, Fail>
    ensures { IfOk result (λ store. IsFirst (⟦<MemRig as Rig>⟧.is_here rig.new) (⟦<MemRig as Rig>⟧.reads rig.new)
        (⟦<MemRig as Rig>⟧.images rig.new (⟦<MemRig as Rig>⟧.clock rig.new)) store) }
{
    rig.place(0)?;
    Ok(Store::make(alloc, rig, 0, GEOMETRY, 3, false)?)
}

/// Starts epoch 4 on the shard of slot 0, and answers the epoch that the shard has started then.
fn started(rig: &mut MemRig, store: Store) -> Result<u32, StoreFault>
    requires first { IsFirst (⟦<MemRig as Rig>⟧.is_here rig.old) (⟦<MemRig as Rig>⟧.reads rig.old)
        (⟦<MemRig as Rig>⟧.images rig.old (⟦<MemRig as Rig>⟧.clock rig.old)) store }
{
    if store.room() < 64 {
        return Err(StoreFault::NoMemory);
    }
    let mut shelf = Shelf::new();
    shelf.put(0, store);
    start_stored(rig, &mut shelf, 0, 4, &BASE)?;
    match shelf.get(0) {
        Some(store) => Ok(store.state().les()),
        None => Ok(0),
    }
}

#[test]
fn the_record_of_an_epoch_stands_behind_those_before(rt: HostRuntime) -> Result<(), Fail> {
    let mut rig = MemRig::new(rt.alloc())?;
    let store = made(rt.alloc(), &mut rig)?;
    assert!(rt; started(&mut rig, store) == Ok(4) && rig.bytes(0, 0) == STARTED.as_slice());
    Ok(())
}

#[test]
fn a_failed_sync_is_told(rt: HostRuntime) -> Result<(), Fail> {
    let mut rig = MemRig::new(rt.alloc())?;
    rig.fail_at(0, MADE + 1)?;
    let store = made(rt.alloc(), &mut rig)?;
    assert!(rt; started(&mut rig, store) == Err(StoreFault::Failed));
    Ok(())
}
