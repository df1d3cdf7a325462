//! Calls on the store of one slot of a shelf. If the slot has no store, they do nothing and answer Ok.
ghost use Rattle.std.specs.Prelude.{◌≡◌, ◌⊎◌, ◌<◌, ◌+◌, ◌↔◌, ◌++◌, [], ℕ, List, length, Err, true, false, IfErr, IfSome, OnOk, OnErr, IsSome};
ghost use Rattle.rig_disk.specs.During.{During};
ghost use Rattle.rig_disk.specs.Frame.{Spends};
ghost use Rattle.shard_model.specs.States.{fits};
ghost use Rattle.shard_model.specs.Steps.{Step as Meant};
ghost use Rattle.shard_steps.specs.StepMeanings.{step_of};
ghost use Rattle.slot_journal.specs.Journal.{InSlot};
ghost use Rattle.slot_journal.specs.Limits.{commit_syncs, commit_bytes};
ghost use Rattle.slot_journal.specs.Reading.{KeepsOtherSlots};
ghost use Rattle.shard_store.specs.Faults.{HasStoreCause};
ghost use Rattle.shard_store.specs.OnSlot.{AreOwn, ChangesAt, FlushesAt, HasFlushed, HasRoomFor, MayFlush, pending_at};
ghost use Rattle.shard_store.specs.Shelves.{store_at, KeepsStores};
ghost use Rattle.shard_store.specs.Stored.{told_in, is_stuck, Becomes, IsFlushed};
ghost use Rattle.shard_store.specs.Told.{IsTold, staged_shard, with_step, all_accepted, none_staged};

use crate::{Shelf, StoreFault};
use rig_disk::Rig;
use shard_state::StepFault;
use shard_steps::Step;

impl Shelf {
    ghost use Rattle.shard_store.specs.declared.fault.StoreFault.TheVariants.{Failed as SlotFailed, Spent};

    /// Stages a step on a slot's store, as `stage` of [`crate::Store`] does.
    pub fn stage(&mut self, slot: u8, step: Step) -> Result<(), StepFault>
        requires slot { slot < 16 }
        requires room { IfSome (store_at self.old slot) (HasRoomFor (step_of step)) }
        ensures ok { OnOk result (ChangesAt (λ old new. Becomes old new (with_step (told_in old) (step_of step)))
            (store_at self.old slot) (store_at self.new slot)) }
        ensures misfit { IfSome (store_at self.old slot) (λ store. (result ≡ Err StepFault.Misfit)
            ↔ (fits (staged_shard (told_in store)).geometry (staged_shard (told_in store)).state (step_of step) ≡ false)) }
        ensures some { OnErr result (IsSome (store_at self.old slot)) }
        ensures unchanged { OnErr result (store_at self.new slot ≡ store_at self.old slot) }
        ensures others { KeepsStores self.old self.new slot }
        ensures own { AreOwn self.old → AreOwn self.new }
    {
        match self.get_mut(slot) {
            None => Ok(()),
            Some(store) => store.stage(step),
        }
    }

    /// The staged steps of a slot's store take effect, in order. It takes no memory.
    pub fn accept(&mut self, slot: u8)
        requires slot { slot < 16 }
        ensures value { ChangesAt (λ old new. Becomes old new (all_accepted (told_in old))) (store_at self.old slot) (store_at self.new slot) }
        ensures told { ChangesAt (λ old new. (flushed pending : List Meant) → IsTold (told_in old) flushed pending
            → IsTold (told_in new) flushed (pending ++ (told_in old).staged)) (store_at self.old slot) (store_at self.new slot) }
        ensures others { KeepsStores self.old self.new slot }
        ensures own { AreOwn self.old → AreOwn self.new }
    {
        match self.get_mut(slot) {
            None => {}
            Some(store) => store.accept(),
        }
    }

    /// Forgets the staged steps of a slot's store. It takes no memory.
    pub fn unstage(&mut self, slot: u8)
        requires slot { slot < 16 }
        ensures value { ChangesAt (λ old new. Becomes old new (none_staged (told_in old))) (store_at self.old slot) (store_at self.new slot) }
        ensures others { KeepsStores self.old self.new slot }
        ensures own { AreOwn self.old → AreOwn self.new }
    {
        match self.get_mut(slot) {
            None => {}
            Some(store) => store.unstage(),
        }
    }

    /// Flushes a slot's store, as `flush` of [`crate::Store`] does. A crash at any instant leaves the steps that were flushed
    /// before, or all accepted ones; after `Ok` it leaves all. It takes no memory.
    pub fn flush<R: Rig>(&mut self, rig: &mut R, slot: u8) -> Result<(), StoreFault>
        requires slot { slot < 16 }
        requires ready { IfSome (store_at self.old slot)
            (MayFlush (R.is_here rig.old) (R.reads rig.old) (R.images rig.old (R.clock rig.old)) slot) }

        ensures ok { OnOk result (ChangesAt (HasFlushed (R.reads rig.old) (R.images rig.old (R.clock rig.old))
            (R.reads rig.new) (R.images rig.new (R.clock rig.new))) (store_at self.old slot) (store_at self.new slot)) }
        ensures after { ChangesAt (λ old new. IsFlushed old new result) (store_at self.old slot) (store_at self.new slot) }
        ensures ready { IfSome (store_at self.new slot)
            (MayFlush (R.is_here rig.new) (R.reads rig.new) (R.images rig.new (R.clock rig.new)) slot) }
        ensures some { OnErr result (IsSome (store_at self.old slot)) }
        ensures spent { IfSome (store_at self.old slot) (λ store. (result ≡ Err StoreFault.Spent)
            ↔ (is_stuck store × ((told_in store).pending ≡ [] → ⊥))) }
        ensures unchanged { IfSome (store_at self.old slot) (λ store. is_stuck store → rig.new ≡ rig.old) }
        ensures nothing { pending_at (store_at self.old slot) ≡ [] → rig.new ≡ rig.old }
        ensures faults { IfErr result (λ fault. (fault ≡ SlotFailed) ⊎ (fault ≡ Spent)) }
        ensures only_if_fault { HasStoreCause (R.faults rig.old slot) (R.faults rig.new slot) result }

        ensures any_moment { During R.clock R.images rig.old rig.new (InSlot (R.images rig.old (R.clock rig.old)) slot
            (FlushesAt (R.reads rig.old) (R.images rig.old (R.clock rig.old)) (store_at self.old slot))) }
        ensures counts { Spends R.syncs R.bytes_written R.bytes_read
            slot commit_syncs (length (pending_at (store_at self.old slot)) + commit_bytes) 0 rig.old rig.new }
        ensures kept { KeepsOtherSlots R.is_here R.reads R.said R.faults R.syncs R.bytes_written R.bytes_read
            slot rig.old rig.new }
        ensures others { KeepsStores self.old self.new slot }
        ensures own { AreOwn self.old → AreOwn self.new }
    {
        match self.get_mut(slot) {
            None => Ok(()),
            Some(store) => store.flush(rig),
        }
    }
}
