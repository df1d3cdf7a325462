//! Reading the text in use of a slot.
ghost use Rattle.std.specs.Prelude.{◌≡◌, ◌≤◌, ℕ, List, Some, IfOk, IsErrOf, OnOk};
ghost use Rattle.rig_disk.specs.During.{Only};
ghost use Rattle.slot_journal.specs.InUse.{told_text};
ghost use Rattle.slot_journal.specs.Text.{IsText, IsBadText};
ghost use Rattle.slot_journal.specs.Reading.{HasSlotCause, SyncsAndReadsArea};
ghost use Rattle.slot_journal.specs.declared.fault.JournalFault.TheVariants.{Failed as SlotFailed, BadSlot, Spent};

use crate::check::bad_header;
use crate::piece::{first_piece, sync_and_measure};
use crate::records::read_records;
use crate::{Bodies, JournalFault};
use rig_disk::Rig;
use std::alloc::Global;

/// The place of the closed gate, and the bodies, of a slot's text in use. All of it is on the disk then.
pub fn read_text<R: Rig>(
    alloc: Global,
    rig: &mut R,
    slot: u8,
    head: &[u8; 23],
) -> Result<(u64, Bodies), JournalFault>
    requires slot { slot ≤ 16 }
    requires here { R.is_here rig.old slot }
    ensures value { IfOk result (λ read. (text : List ℕ) → told_text slot (R.reads rig.old slot) ≡ Some text
        → IsText head.now read.1 read.0 text) }
    ensures bad_slot { (at : ℕ) → IsErrOf result (BadSlot at) → (text : List ℕ)
        → told_text slot (R.reads rig.old slot) ≡ Some text → IsBadText head.now text at }
    ensures spent { IsErrOf result Spent → ⊥ }
    ensures durable { OnOk result ((there : List ℕ) → R.reads rig.new slot 0 ≡ Some there
        → Only R.clock R.images rig.new slot 0 there) }
    ensures bad_durable { (at : ℕ) → IsErrOf result (BadSlot at) → (there : List ℕ) → R.reads rig.new slot 0 ≡ Some there
        → Only R.clock R.images rig.new slot 0 there }
    ensures cause { HasSlotCause (R.faults rig.old slot) (R.faults rig.new slot) result }
    ensures kept { SyncsAndReadsArea R.is_here R.reads R.said R.clock R.images R.faults R.syncs R.bytes_written R.bytes_read
        slot 0 1 (IsErrOf result SlotFailed) rig.old rig.new }
{
    let len = sync_and_measure(rig, slot)?;
    let mut piece = first_piece(alloc, rig, slot, len)?;
    match bad_header(&piece.bytes, head) {
        Some(at) => Err(JournalFault::BadSlot { at: at as u64 }),
        None => {
            let read = read_records(alloc, rig, slot, len, &mut piece)?;
            Ok(read)
        }
    }
}
