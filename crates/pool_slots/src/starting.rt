//! The record by which a shard starts an epoch.
ghost use Rattle.std.specs.Prelude.{◌≡◌, ◌⊎◌, ◌≤◌, ◌<◌, Err, true, false, IfErr, OnOk, OnErr, Some};
ghost use Rattle.rig_disk.specs.During.{During};
ghost use Rattle.shard_model.specs.States.{holds};
ghost use Rattle.slot_journal.specs.Journal.{InSlot};
ghost use Rattle.slot_journal.specs.Reading.{KeepsOtherSlots};
ghost use Rattle.shard_store.specs.Faults.{HasStoreCause};
ghost use Rattle.shard_store.specs.Stored.{slot_in, room_in, told_in, IsAtRest, Becomes};
ghost use Rattle.shard_store.specs.Shelves.{store_at, KeepsStores};
ghost use Rattle.shard_store.specs.declared.store.Store.{Store as Stored};
ghost use Rattle.pool_slots.specs.Ready.{IsReadyStore, MayStart};
ghost use Rattle.pool_slots.specs.Slots.{AddsRecord, HasRecord, IsIdle, IsSameSlot, start_steps, with_staged};

use ec_words::Version;
use rig_disk::Rig;
use shard_state::StepFault;
use shard_steps::Step;
use shard_store::{Shelf, Store, StoreFault};

/// Stages the steps of the record by which a shard starts an epoch at a base. On a refusal all is as it was.
fn stage_start(store: &mut Store, epoch: u32, base: &Version) -> Result<(), StepFault>
    requires idle { IsIdle store.old }
    requires room { 64 ≤ room_in store.old }
    requires whole { (told_in store.old).shard.state.partial ≡ false }
    requires held { holds (told_in store.old).shard.state base.now ≡ true }
    requires older { (told_in store.old).shard.state.les < epoch }
    ensures ok { OnOk result (Becomes store.old store.new (with_staged (told_in store.old)
        (start_steps epoch base.now (told_in store.old).shard.state.head))) }
    ensures unchanged { OnErr result (Becomes store.old store.new (told_in store.old)) }
    ensures plain { result ≡ Err StepFault.Misfit → ⊥ }
{
    if store.state().head().is_same(base) {
        return store.stage(Step::Started(epoch));
    }
    store.stage(Step::Back(*base))?;
    match store.stage(Step::Started(epoch)) {
        Ok(()) => Ok(()),
        Err(fault) => {
            store.unstage();
            Err(fault)
        }
    }
}

/// Adds the record by which a shard starts an epoch at a base. A crash at any instant leaves the steps of before, or also
/// those of the record.
fn start_epoch<R: Rig>(
    rig: &mut R,
    store: &mut Store,
    epoch: u32,
    base: &Version,
) -> Result<(), StoreFault>
    requires here { R.is_here rig.old (slot_in store.old) }
    requires idle { IsIdle store.old }
    requires settled { IsAtRest (R.reads rig.old) (R.images rig.old (R.clock rig.old)) store.old }
    requires room { 64 ≤ room_in store.old }
    requires whole { (told_in store.old).shard.state.partial ≡ false }
    requires held { holds (told_in store.old).shard.state base.now ≡ true }
    requires older { (told_in store.old).shard.state.les < epoch }

    ensures ok { OnOk result (HasRecord (R.reads rig.old) (R.reads rig.new)
        (R.images rig.old (R.clock rig.old)) (R.images rig.new (R.clock rig.new))
        store.old store.new (start_steps epoch base.now (told_in store.old).shard.state.head)) }
    ensures untouched { result ≡ Err StoreFault.NoMemory → (rig.new ≡ rig.old) × Becomes store.old store.new (told_in store.old) }
    ensures same { IsSameSlot store.old store.new }
    ensures faults { IfErr result (λ fault. (fault ≡ StoreFault.Failed) ⊎ (fault ≡ StoreFault.NoMemory)) }
    ensures only_if_fault { HasStoreCause (R.faults rig.old (slot_in store.old)) (R.faults rig.new (slot_in store.old)) result }
    ensures any_moment { During R.clock R.images rig.old rig.new (InSlot (R.images rig.old (R.clock rig.old)) (slot_in store.old)
        (AddsRecord (R.reads rig.old) (R.images rig.old (R.clock rig.old)) store.old
        (start_steps epoch base.now (told_in store.old).shard.state.head))) }
    ensures kept { KeepsOtherSlots R.is_here R.reads R.said R.faults R.syncs R.bytes_written R.bytes_read
        (slot_in store.old) rig.old rig.new }
{
    match stage_start(store, epoch, base) {
        Ok(()) => {}
        Err(_) => return Err(StoreFault::NoMemory),
    }
    store.accept();
    store.flush(rig)?;
    Ok(())
}

/// The shard of a slot starts an epoch at a base, as one record more of its store. A crash at any instant leaves the steps of
/// before, or also those of the record.
pub fn start_stored<R: Rig>(
    rig: &mut R,
    shelf: &mut Shelf,
    slot: u8,
    epoch: u32,
    base: &Version,
) -> Result<(), StoreFault>
    requires slot { slot < 16 }
    requires may { MayStart shelf.old epoch base.now slot }
    requires ready { (store : Stored) → store_at shelf.old slot ≡ Some store
        → IsReadyStore (R.is_here rig.old) (R.reads rig.old) (R.images rig.old (R.clock rig.old)) slot store }
    requires room { (store : Stored) → store_at shelf.old slot ≡ Some store → 64 ≤ room_in store }

    ensures lent { (store : Stored) → store_at shelf.old slot ≡ Some store → (later : Stored) × (store_at shelf.new slot ≡ Some later)
        × IsSameSlot store later
        × OnOk result (HasRecord (R.reads rig.old) (R.reads rig.new)
        (R.images rig.old (R.clock rig.old)) (R.images rig.new (R.clock rig.new))
        store later (start_steps epoch base.now (told_in store).shard.state.head))
        × (result ≡ Err StoreFault.NoMemory → (rig.new ≡ rig.old) × Becomes store later (told_in store)) }
    ensures others { KeepsStores shelf.old shelf.new slot }
    ensures faults { IfErr result (λ fault. (fault ≡ StoreFault.Failed) ⊎ (fault ≡ StoreFault.NoMemory)) }
    ensures only_if_fault { HasStoreCause (R.faults rig.old slot) (R.faults rig.new slot) result }
    ensures any_moment { (store : Stored) → store_at shelf.old slot ≡ Some store
        → During R.clock R.images rig.old rig.new (InSlot (R.images rig.old (R.clock rig.old)) slot
        (AddsRecord (R.reads rig.old) (R.images rig.old (R.clock rig.old)) store
        (start_steps epoch base.now (told_in store).shard.state.head))) }
    ensures kept { KeepsOtherSlots R.is_here R.reads R.said R.faults R.syncs R.bytes_written R.bytes_read
        slot rig.old rig.new }
{
    match shelf.get_mut(slot) {
        None => unreachable!(),
        Some(store) => start_epoch(rig, store, epoch, base),
    }
}
