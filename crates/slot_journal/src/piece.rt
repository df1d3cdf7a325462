//! The pieces in which a text is read: large ones, so that small records share a read.
ghost use Rattle.std.specs.Prelude.{◌≡◌, ◌≤◌, ◌<◌, ◌⊎◌, ◌+◌, ◌-◌, ℕ, List, length, take, drop, min, Some, IfOk, IfErr, IsErr, OnOk};
ghost use Rattle.rig_disk.specs.Faults.{HasCause};
ghost use Rattle.rig_disk.specs.During.{Only};
ghost use Rattle.slot_journal.specs.declared.fault.JournalFault.TheVariants.{Failed as SlotFailed, NoMemory as OutOfMemory};
ghost use Rattle.slot_journal.specs.Reading.{HasSlotCause, OnlyReadsArea, SyncsAndReadsArea, IsPiece, ShowsPrefix};

use crate::JournalFault;
use crate::limits::{AREA, PIECE_LEN, PREFIX_LEN};
use rig_disk::{Failed, Rig};
use std::alloc::Global;

/// Some bytes of a text.
#[derive(Drop)]
pub struct Piece {
    /// The place of the first of them.
    pub start: u64,
    pub bytes: Vec<u8>,
}

/// Syncs the area, so that a crash leaves what is read from now on, and tells its length.
pub fn sync_and_measure<R: Rig>(rig: &mut R, slot: u8) -> Result<u64, Failed>
    requires slot { slot ≤ 16 }
    requires here { R.is_here rig.old slot }
    ensures value { IfOk result (λ len. (there : List ℕ) → R.reads rig.old slot 0 ≡ Some there → len ≡ length there) }
    ensures durable { OnOk result ((there : List ℕ) → R.reads rig.new slot 0 ≡ Some there
        → Only R.clock R.images rig.new slot 0 there) }
    ensures cause { HasCause (R.faults rig.old slot) (R.faults rig.new slot) result }
    ensures kept { SyncsAndReadsArea R.is_here R.reads R.said R.clock R.images R.faults R.syncs R.bytes_written R.bytes_read
        slot 0 1 (IsErr result) rig.old rig.new }
{
    rig.sync(slot, AREA)?;
    let len = rig.length(slot, AREA)?;
    Ok(len)
}

/// Reads the bytes from `start` on, at most `count`, into the place of those that the piece had. It reads fewer only if the
/// text ends.
pub fn read_piece<R: Rig>(
    rig: &mut R,
    slot: u8,
    start: u64,
    count: usize,
    piece: &mut Piece,
) -> Result<(), JournalFault>
    requires slot { slot ≤ 16 }
    requires here { R.is_here rig.old slot }
    ensures start { OnOk result (piece.new.start ≡ start) }
    ensures within { OnOk result (length piece.new.bytes.items ≤ count) }
    ensures bytes { OnOk result ((there : List ℕ) → R.reads rig.old slot 0 ≡ Some there
        → piece.new.bytes.items ≡ take count (drop start there)) }
    ensures plain { IfErr result (λ fault. (fault ≡ SlotFailed) ⊎ (fault ≡ OutOfMemory)) }
    ensures cause { HasSlotCause (R.faults rig.old slot) (R.faults rig.new slot) result }
    ensures kept { OnlyReadsArea R.is_here R.reads R.said R.clock R.images R.faults R.syncs R.bytes_written R.bytes_read
        slot 0 rig.old rig.new }
{
    piece.bytes.resize(count, 0)?;
    let n = rig.read_at(slot, AREA, start, &mut piece.bytes)?;
    piece.bytes.truncate(n);
    piece.start = start;
    Ok(())
}

/// The piece with the text's first bytes. `len` is the text's length.
pub fn first_piece<R: Rig>(
    alloc: Global,
    rig: &mut R,
    slot: u8,
    len: u64,
) -> Result<Piece, JournalFault>
    requires slot { slot ≤ 16 }
    requires here { R.is_here rig.old slot }
    ensures start { IfOk result (λ piece. piece.start ≡ 0) }
    ensures within { IfOk result (λ piece. length piece.bytes.items ≤ len) }
    ensures is_piece { IfOk result (λ piece. (there : List ℕ) → R.reads rig.old slot 0 ≡ Some there
        → IsPiece there 0 piece.bytes.items) }
    ensures enough { IfOk result (λ piece. (there : List ℕ) → R.reads rig.old slot 0 ≡ Some there
        → len ≡ length there → min 24 len ≤ length piece.bytes.items) }
    ensures plain { IfErr result (λ fault. (fault ≡ SlotFailed) ⊎ (fault ≡ OutOfMemory)) }
    ensures cause { HasSlotCause (R.faults rig.old slot) (R.faults rig.new slot) result }
    ensures kept { OnlyReadsArea R.is_here R.reads R.said R.clock R.images R.faults R.syncs R.bytes_written R.bytes_read
        slot 0 rig.old rig.new }
{
    let count = u64::min(len, PIECE_LEN as u64) as usize;
    let mut piece = Piece {
        start: 0,
        bytes: Vec::new(alloc),
    };
    read_piece(rig, slot, 0, count, &mut piece)?;
    Ok(piece)
}

/// The bytes of a piece from `at` on.
pub fn ahead(piece: &Piece, at: u64) -> &[u8]
    requires { piece.now.start ≤ at }
    ensures { result.now ≡ drop (at - piece.now.start) piece.now.bytes.items }
{
    let from = (at - piece.start) as usize;
    if from < piece.bytes.len() {
        &piece.bytes[from..]
    } else {
        &[]
    }
}

/// Reads the next piece from `at` on if the present one does not show what a record begins with. `len` is the
/// text's length.
pub fn refill<R: Rig>(
    rig: &mut R,
    slot: u8,
    len: u64,
    at: u64,
    piece: &mut Piece,
) -> Result<(), JournalFault>
    requires slot { slot ≤ 16 }
    requires here { R.is_here rig.old slot }
    requires start { piece.old.start ≤ at }
    requires within { at ≤ len }
    requires len { (there : List ℕ) → R.reads rig.old slot 0 ≡ Some there → len ≡ length there }
    requires is_piece { (there : List ℕ) → R.reads rig.old slot 0 ≡ Some there
        → IsPiece there piece.old.start piece.old.bytes.items }
    ensures start { OnOk result (piece.new.start ≤ at) }
    ensures is_piece { OnOk result ((there : List ℕ) → R.reads rig.old slot 0 ≡ Some there
        → IsPiece there piece.new.start piece.new.bytes.items) }
    ensures shows { OnOk result ((there : List ℕ) → R.reads rig.old slot 0 ≡ Some there
        → ShowsPrefix there at (drop (at - piece.new.start) piece.new.bytes.items)) }
    ensures plain { IfErr result (λ fault. (fault ≡ SlotFailed) ⊎ (fault ≡ OutOfMemory)) }
    ensures cause { HasSlotCause (R.faults rig.old slot) (R.faults rig.new slot) result }
    ensures kept { OnlyReadsArea R.is_here R.reads R.said R.clock R.images R.faults R.syncs R.bytes_written R.bytes_read
        slot 0 rig.old rig.new }
{
    if ahead(piece, at).len() >= PREFIX_LEN {
        return Ok(());
    }
    let count = u64::min(len - at, PIECE_LEN as u64) as usize;
    read_piece(rig, slot, at, count, piece)?;
    Ok(())
}
