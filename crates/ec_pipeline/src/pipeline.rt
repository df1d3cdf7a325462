//! Updates, prepared on all joined slots and then flushed together.
ghost use Rattle.std.specs.Prelude.{◌≡◌, ◌≤◌, ◌<◌, ◌+◌, ◌^◌, ◌++◌, ◌∷◌, [], ◌⊎◌, ◌↔◌, ℕ, length, map, Err, None, IfOk, IfErr, IfSome, IsErrOf, OnOk, OnErr};
ghost use Rattle.ec_model.specs.Codes.{CodeRows, LiesBelow, HasPosition};
ghost use Rattle.ec_model.specs.Versions.{Version as Meant};
ghost use Rattle.rig_disk.specs.Faults.{Rose};
ghost use Rattle.shard_store.specs.Shelves.{store_at};
ghost use Rattle.shard_store.specs.Stored.{room_in};
ghost use Rattle.ec_positions.specs.Objects.{Objects};
ghost use Rattle.ec_positions.specs.Refusals.{refusal_of};
ghost use Rattle.ec_pipeline.specs.Checking.{IsKnown, IsWorn, MayFollow, worn_room};
ghost use Rattle.ec_pipeline.specs.Drafts.{size_or_none};
ghost use Rattle.ec_pipeline.specs.Flushing.{AreFlushed};
ghost use Rattle.ec_pipeline.specs.Preparing.{AreReady, Hinders, IsHindered, Prepared};
ghost use Rattle.ec_pipeline.specs.Reading.{AreIdle, AreStored, DecidesAll, OnlyFetches};
ghost use Rattle.ec_pipeline.specs.Refusals.{IsSmall, refusal_if, refused_in};
ghost use Rattle.ec_pipeline.specs.Shelving.{BecomesAt};
ghost use Rattle.ec_pipeline.specs.Showing.{ShowsAt};
ghost use Rattle.ec_pipeline.specs.Updates.{update_of};

use crate::changing::make_change;
use crate::checking::{Checked, check};
use crate::flushing::flush_all;
use crate::{PrepareFault, Update};
use ec_code::Code;
use ec_words::{Mask, NoMemory};
use rig_disk::Rig;
use shard_store::Shelf;
use std::alloc::Global;

/// What a flush did: how many updates were in the queue, and the slots that did not take them.
#[derive(Clone, Copy, Debug, PartialEq, Eq)]
pub struct Flushed {
    pub done: u32,
    pub lost: Mask,
}

/// The updates that are prepared and not flushed yet.
#[derive(Drop)]
pub struct Pipeline {
    queue: Vec<Update>,
}

impl Pipeline {
    /// No updates.
    pub fn new(alloc: Global) -> Result<Pipeline, NoMemory>
        ensures { IfOk result (λ pipeline. pipeline.queue.items ≡ []) }
    {
        let queue = Vec::with_capacity(alloc, 16)?;
        Ok(Pipeline { queue })
    }

    /// Makes an update on each joined slot, or leaves all stores and the queue as they were.
    pub fn prepare<R: Rig>(
        &mut self,
        alloc: Global,
        shelf: &mut Shelf,
        rig: &mut R,
        code: &dyn Code,
        joined: Mask,
        epoch: u32,
        update: &Update,
    ) -> Result<(), PrepareFault>
        requires queued { length self.old.queue.items < 16 }
        requires some { 1 ≤ joined.0 }
        requires below { LiesBelow (meaning code.now).n joined.0 }
        requires few { joined.0 < 2 ^ 16 }
        requires decides { DecidesAll (meaning code.now) joined.0 }
        requires ready { AreReady (meaning code.now).k (length self.old.queue.items) joined.0 shelf.old }
        requires idle { AreIdle (R.is_here rig.old) (R.reads rig.old) (R.images rig.old (R.clock rig.old)) joined.0 shelf.old }

        ensures refused { (unit : ℕ) (objects : Objects) (head : Meant) → ShowsAt (meaning code.now) unit joined.0 objects head shelf.old
            → refusal_of objects (update_of update.now) ≡ refusal_if (refused_in result) }
        ensures worn { (unit : ℕ) (objects : Objects) (head : Meant) → ShowsAt (meaning code.now) unit joined.0 objects head shelf.old
            → refusal_of objects (update_of update.now) ≡ None → (result ≡ Err PrepareFault.Worn) ↔ IsWorn joined.0 head shelf.old }
        ensures ok { OnOk result ((unit : ℕ) (objects : Objects) (head : Meant) → ShowsAt (meaning code.now) unit joined.0 objects head shelf.old
            → AreStored (R.reads rig.old) (R.images rig.old (R.clock rig.old)) joined.0 shelf.old
            → Prepared (meaning code.now) unit joined.0 objects head epoch (update_of update.now) shelf.old shelf.new) }
        ensures queue { OnOk result (map update_of self.new.queue.items ≡ map update_of self.old.queue.items ++ update_of update.now ∷ []) }
        ensures ready { OnOk result (AreReady (meaning code.now).k (length self.new.queue.items) joined.0 shelf.new) }
        ensures slot { (s : ℕ) → IsErrOf result (PrepareFault.Slot s) → Rose (R.faults rig.old s) (R.faults rig.new s)
            ⊎ IsHindered (meaning code.now) joined.0 shelf.old epoch (update_of update.now) s }
        ensures by_count { (unit : ℕ) (objects : Objects) (head : Meant) (s : ℕ) → ShowsAt (meaning code.now) unit joined.0 objects head shelf.old
            → MayFollow joined.0 shelf.old epoch head → IsErrOf result (PrepareFault.Slot s) → Rose (R.faults rig.old s) (R.faults rig.new s) }
        ensures idle { AreIdle (R.is_here rig.new) (R.reads rig.new) (R.images rig.new (R.clock rig.new)) joined.0 shelf.new }
        ensures stored { AreStored (R.reads rig.old) (R.images rig.old (R.clock rig.old)) joined.0 shelf.old
            → AreStored (R.reads rig.new) (R.images rig.new (R.clock rig.new)) joined.0 shelf.new }
        ensures unchanged { OnErr result (((s : ℕ) → BecomesAt (λ t. t) (store_at shelf.old s) (store_at shelf.new s)) × (self.new.queue.items ≡ self.old.queue.items)) }
        ensures quiet { (s : ℕ) → (IsErrOf result (PrepareFault.Slot s) → ⊥) → R.faults rig.new s ≡ R.faults rig.old s }
        ensures rig { OnlyFetches R.is_here R.reads R.said R.clock R.images R.syncs R.bytes_written rig.old rig.new }
    {
        let checked = match check(shelf, joined, epoch, update) {
            Ok(checked) => checked,
            Err(fault) => return Err(fault),
        };
        match self.make(alloc, shelf, rig, code, joined, &checked, update) {
            Ok(()) => Ok(()),
            Err(fault) => Err(fault),
        }
    }

    /// Flushes the updates of the queue on each joined slot, in ascending order, each also after another failed. It takes no
    /// memory.
    pub fn flush<R: Rig>(&mut self, shelf: &mut Shelf, rig: &mut R, joined: Mask) -> Flushed
        requires queued { length self.old.queue.items ≤ 16 }
        requires few { joined.0 < 2 ^ 16 }
        requires idle { AreIdle (R.is_here rig.old) (R.reads rig.old) (R.images rig.old (R.clock rig.old)) joined.0 shelf.old }

        ensures done { result.done ≡ length self.old.queue.items }
        ensures flushed { AreFlushed R.is_here R.reads R.said R.clock R.images R.faults joined.0 16 result.lost.0 shelf.old shelf.new rig.old rig.new }
        ensures shows { (code : CodeRows) (unit : ℕ) (objects : Objects) (head : Meant) → ShowsAt code unit joined.0 objects head shelf.old
            → ShowsAt code unit joined.0 objects head shelf.new }
        ensures again { result.lost.0 ≡ 0 → (k queued : ℕ) → AreReady k queued joined.0 shelf.old → AreReady k 0 joined.0 shelf.new }
        ensures queue { self.new.queue.items ≡ [] }
    {
        let done = self.queue.len() as u32;
        let lost = flush_all(shelf, rig, joined);
        self.queue.clear();
        Flushed { done, lost }
    }

    // Makes a checked update, and puts it behind the queue.
    fn make<R: Rig>(
        &mut self,
        alloc: Global,
        shelf: &mut Shelf,
        rig: &mut R,
        code: &dyn Code,
        joined: Mask,
        checked: &Checked,
        update: &Update,
    ) -> Result<(), PrepareFault>
        requires queued { length self.old.queue.items < 16 }
        requires same_k { checked.now.g.k ≡ (meaning code.now).k }
        requires small { IsSmall (update_of update.now) (size_or_none checked.now.size) }
        requires below { LiesBelow (meaning code.now).n joined.0 }
        requires decides { DecidesAll (meaning code.now) joined.0 }
        requires ready { AreReady (meaning code.now).k (length self.old.queue.items) joined.0 shelf.old }
        requires roomy { (s : ℕ) → s < 16 → HasPosition joined.0 s → IfSome (store_at shelf.old s) (λ store. worn_room ≤ room_in store) }
        requires idle { AreIdle (R.is_here rig.old) (R.reads rig.old) (R.images rig.old (R.clock rig.old)) joined.0 shelf.old }
        ensures ok { OnOk result ((unit : ℕ) (objects : Objects) (head : Meant) (epoch : ℕ) → ShowsAt (meaning code.now) unit joined.0 objects head shelf.old
            → AreStored (R.reads rig.old) (R.images rig.old (R.clock rig.old)) joined.0 shelf.old
            → IsKnown (meaning code.now) unit objects head epoch (update_of update.now) checked.now → refusal_of objects (update_of update.now) ≡ None
            → Prepared (meaning code.now) unit joined.0 objects head epoch (update_of update.now) shelf.old shelf.new) }
        ensures queue { OnOk result (map update_of self.new.queue.items ≡ map update_of self.old.queue.items ++ update_of update.now ∷ []) }
        ensures ready { OnOk result (AreReady (meaning code.now).k (length self.new.queue.items) joined.0 shelf.new) }
        ensures slot { (s : ℕ) → IsErrOf result (PrepareFault.Slot s) → Rose (R.faults rig.old s) (R.faults rig.new s)
            ⊎ Hinders (meaning code.now) joined.0 shelf.old (update_of update.now) checked.now s }
        ensures idle { AreIdle (R.is_here rig.new) (R.reads rig.new) (R.images rig.new (R.clock rig.new)) joined.0 shelf.new }
        ensures stored { AreStored (R.reads rig.old) (R.images rig.old (R.clock rig.old)) joined.0 shelf.old
            → AreStored (R.reads rig.new) (R.images rig.new (R.clock rig.new)) joined.0 shelf.new }
        ensures unchanged { OnErr result (((s : ℕ) → BecomesAt (λ t. t) (store_at shelf.old s) (store_at shelf.new s)) × (self.new.queue.items ≡ self.old.queue.items)) }
        ensures faults { IfErr result (λ fault. (fault ≡ PrepareFault.NoMemory) ⊎ ((s : ℕ) × (fault ≡ PrepareFault.Slot s))) }
        ensures quiet { (s : ℕ) → (IsErrOf result (PrepareFault.Slot s) → ⊥) → R.faults rig.new s ≡ R.faults rig.old s }
        ensures rig { OnlyFetches R.is_here R.reads R.said R.clock R.images R.syncs R.bytes_written rig.old rig.new }
    {
        let kept = update.copy(alloc)?;
        self.queue.reserve(1)?;
        let queued = self.queue.len();
        match make_change(alloc, shelf, rig, code, joined, queued, checked, update) {
            Ok(()) => {}
            Err(fault) => return Err(fault),
        }
        match self.queue.push(kept) {
            Ok(()) => Ok(()),
            Err(_) => unreachable!(),
        }
    }
}
