//! All records of a text.
ghost use Rattle.std.specs.Prelude.{◌≡◌, ◌≢◌, ◌≤◌, ◌<◌, ◌^◌, ℕ, List, length, Some, IfOk, IsErrOf};
ghost use Rattle.slot_journal.specs.Reading.{HasSlotCause, OnlyReadsArea, IsPiece, StopsAt, BreaksAt};
ghost use Rattle.slot_journal.specs.declared.fault.JournalFault.TheVariants.{BadSlot, Spent};

use crate::limits::PREFIX_LEN;
use crate::piece::Piece;
use crate::read::next_record;
use crate::{Bodies, HEADER_LEN, JournalFault};
use rig_disk::Rig;
use std::alloc::Global;

/// The records behind the header, and the place of the gate that closes them. `len` is the text's length.
pub fn read_records<R: Rig>(
    alloc: Global,
    rig: &mut R,
    slot: u8,
    len: u64,
    piece: &mut Piece,
) -> Result<(u64, Bodies), JournalFault>
    requires slot { slot ≤ 16 }
    requires here { R.is_here rig.old slot }
    requires start { piece.old.start ≡ 0 }
    requires header { 24 ≤ len }
    requires len { (there : List ℕ) → R.reads rig.old slot 0 ≡ Some there → len ≡ length there }
    requires is_piece { (there : List ℕ) → R.reads rig.old slot 0 ≡ Some there
        → IsPiece there piece.old.start piece.old.bytes.items }
    ensures value { IfOk result (λ read. (there : List ℕ) → R.reads rig.old slot 0 ≡ Some there
        → StopsAt there read.1 read.0) }
    ensures bad { (p : ℕ) → IsErrOf result (BadSlot p) → (there : List ℕ) → R.reads rig.old slot 0 ≡ Some there
        → BreaksAt there p }
    ensures spent { IsErrOf result Spent → ⊥ }
    ensures cause { HasSlotCause (R.faults rig.old slot) (R.faults rig.new slot) result }
    ensures kept { OnlyReadsArea R.is_here R.reads R.said R.clock R.images R.faults R.syncs R.bytes_written R.bytes_read
        slot 0 rig.old rig.new }
{
    let mut bodies = Vec::new(alloc);
    let mut at = HEADER_LEN as u64;
    while at < len {
        match next_record(alloc, rig, slot, len, at, piece)? {
            None => return Ok((at, Bodies::of(bodies))),
            Some(body) => {
                at += (PREFIX_LEN + body.as_slice().len()) as u64;
                bodies.push(body)?;
            }
        }
    }
    Err(JournalFault::BadSlot { at })
}
