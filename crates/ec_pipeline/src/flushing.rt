//! The flush of the stores of a set of slots.
ghost use Rattle.std.specs.Prelude.{◌≡◌, ◌⊎◌, ◌<◌, ℕ, true, false, IfSome};
ghost use Rattle.ec_model.specs.Codes.{HasPosition};
ghost use Rattle.rig_disk.specs.During.{During};
ghost use Rattle.rig_disk.specs.Faults.{Rose};
ghost use Rattle.slot_journal.specs.Journal.{InSlot};
ghost use Rattle.slot_journal.specs.Reading.{KeepsOtherSlots};
ghost use Rattle.shard_store.specs.OnSlot.{FlushesAt, MayFlush};
ghost use Rattle.shard_store.specs.Shelves.{store_at, KeepsStores};
ghost use Rattle.ec_pipeline.specs.Flushing.{FlushedAt, IsBarredAt, StandsAt, AreFlushed};

use ec_words::Mask;
use rig_disk::Rig;
use shard_store::Shelf;

/// Flushes a slot's store. False if the slot is lost.
fn flush_slot<R: Rig>(shelf: &mut Shelf, rig: &mut R, slot: u8) -> bool
    requires slot { slot < 16 }
    requires ready { IfSome (store_at shelf.old slot) (MayFlush (R.is_here rig.old) (R.reads rig.old) (R.images rig.old (R.clock rig.old)) slot) }
    ensures after { FlushedAt (store_at shelf.old slot) (store_at shelf.new slot) result }
    ensures cause { result ≡ false → Rose (R.faults rig.old slot) (R.faults rig.new slot) ⊎ IsBarredAt (store_at shelf.old slot) }
    ensures unbarred { result ≡ true → IsBarredAt (store_at shelf.old slot) → ⊥ }
    ensures ready { IfSome (store_at shelf.new slot) (MayFlush (R.is_here rig.new) (R.reads rig.new) (R.images rig.new (R.clock rig.new)) slot) }
    ensures stands { result ≡ true → StandsAt (R.reads rig.old) (R.images rig.old (R.clock rig.old))
        (R.reads rig.new) (R.images rig.new (R.clock rig.new)) (store_at shelf.old slot) (store_at shelf.new slot) }
    ensures quiet { result ≡ true → R.faults rig.new slot ≡ R.faults rig.old slot }
    ensures any_moment { During R.clock R.images rig.old rig.new (InSlot (R.images rig.old (R.clock rig.old)) slot
        (FlushesAt (R.reads rig.old) (R.images rig.old (R.clock rig.old)) (store_at shelf.old slot))) }
    ensures kept { KeepsOtherSlots R.is_here R.reads R.said R.faults R.syncs R.bytes_written R.bytes_read slot rig.old rig.new }
    ensures others { KeepsStores shelf.old shelf.new slot }
{
    match shelf.flush(rig, slot) {
        Ok(()) => true,
        Err(_) => false,
    }
}

/// Flushes the stores of a set in ascending order, each also after another failed. The result has the slots that are lost.
pub fn flush_all<R: Rig>(shelf: &mut Shelf, rig: &mut R, set: Mask) -> Mask
    requires ready { (s : ℕ) → HasPosition set.0 s
        → IfSome (store_at shelf.old s) (MayFlush (R.is_here rig.old) (R.reads rig.old) (R.images rig.old (R.clock rig.old)) s) }
    ensures { AreFlushed R.is_here R.reads R.said R.clock R.images R.faults set.0 16 result.0 shelf.old shelf.new rig.old rig.new }
{
    let mut lost = 0u16;
    for slot in 0..16u8 {
        if set.has(slot) {
            let kept = flush_slot(shelf, rig, slot);
            if !kept {
                lost |= 1u16 << slot;
            }
        }
    }
    Mask(lost)
}
