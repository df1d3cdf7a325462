//! The records of a text, read one after the other.
ghost use Rattle.std.specs.Prelude.{◌≡◌, ◌≢◌, ◌≤◌, ◌<◌, ◌⊎◌, ◌+◌, ◌-◌, ◌++◌, ℕ, List, [], length, take, drop, get_or, Some, Ok, None, IfOk, IfErr, IfSome, IfNone, OnOk, IsErrOf, ◌^◌};
ghost use Rattle.rig_disk.specs.Faults.{HasCause};
ghost use Rattle.slot_journal.specs.Header.{open_gate};
ghost use Rattle.slot_journal.specs.Text.{max_body, FailsAt};
ghost use Rattle.slot_journal.specs.Reading.{HasSlotCause, OnlyReadsArea, IsPiece, IsPieceFor, IsRecordAt, IsReadUpTo};
ghost use Rattle.slot_journal.specs.declared.fault.JournalFault.TheVariants.{BadSlot, Spent};

use crate::limits::{AREA, PREFIX_LEN};
use crate::piece::{Piece, ahead, refill};
use crate::{Bodies, JournalFault, OPEN_GATE, read_body_len};
use ec_words::Bytes;
use rig_disk::{Failed, Rig};
use std::alloc::{AllocError, Global};

/// A body of `len` bytes whose first bytes are known.
fn begin_body(alloc: Global, len: usize, known: &[u8]) -> Result<Vec<u8>, AllocError>
    requires { length known.now ≤ len }
    ensures len { IfOk result (λ body. length body.items ≡ len) }
    ensures known { IfOk result (λ body. take (length known.now) body.items ≡ known.now) }
{
    let mut body = Vec::with_capacity(alloc, len)?;
    body.extend_from_slice(known)?;
    body.resize(len, 0)?;
    Ok(body)
}

/// Fills a body whose first bytes are known with those that follow from `at` on, and answers how many it read.
fn fill_behind<R: Rig>(
    rig: &mut R,
    slot: u8,
    at: u64,
    known: usize,
    body: &mut [u8],
) -> Result<usize, Failed>
    requires slot { slot ≤ 16 }
    requires here { R.is_here rig.old slot }
    requires known { known ≤ length body.old }
    requires fits { at + length body.old < 2 ^ 64 }
    ensures count { IfOk result (λ n. (there : List ℕ) → R.reads rig.old slot 0 ≡ Some there
        → at + length body.old ≤ length there → n ≡ length body.old - known) }
    ensures value { OnOk result ((there : List ℕ) → R.reads rig.old slot 0 ≡ Some there
        → at + length body.old ≤ length there
        → body.new ≡ take known body.old ++ take (length body.old - known) (drop (at + known) there)) }
    ensures cause { HasCause (R.faults rig.old slot) (R.faults rig.new slot) result }
    ensures kept { OnlyReadsArea R.is_here R.reads R.said R.clock R.images R.faults R.syncs R.bytes_written R.bytes_read
        slot 0 rig.old rig.new }
{
    let n = rig.read_at(slot, AREA, at + known as u64, &mut body[known..])?;
    Ok(n)
}

/// The `len` bytes from `at` on. The first of them are known. If a rig has fewer bytes than its length says, it tells nothing,
/// and the length is then bad.
fn read_body<R: Rig>(
    alloc: Global,
    rig: &mut R,
    slot: u8,
    at: u64,
    len: usize,
    known: &[u8],
) -> Result<Bytes, JournalFault>
    requires slot { slot ≤ 16 }
    requires here { R.is_here rig.old slot }
    requires length { 4 ≤ at }
    requires fits { at + len < 2 ^ 64 }
    ensures len { IfOk result (λ body. length body ≡ len) }
    ensures value { IfOk result (λ body. (there : List ℕ) → R.reads rig.old slot 0 ≡ Some there
        → at + len ≤ length there → IsPiece there at known.now → body ≡ take len (drop at there)) }
    ensures bad { (p : ℕ) → IsErrOf result (BadSlot p) → (there : List ℕ) → R.reads rig.old slot 0 ≡ Some there
        → length there < at + len }
    ensures spent { IsErrOf result Spent → ⊥ }
    ensures cause { HasSlotCause (R.faults rig.old slot) (R.faults rig.new slot) result }
    ensures kept { OnlyReadsArea R.is_here R.reads R.said R.clock R.images R.faults R.syncs R.bytes_written R.bytes_read
        slot 0 rig.old rig.new }
{
    if known.len() >= len {
        return Ok(Bytes::from_slice(alloc, &known[..len])?);
    }
    let mut body = begin_body(alloc, len, known)?;
    let n = fill_behind(rig, slot, at, known.len(), &mut body)?;
    if n < len - known.len() {
        return Err(JournalFault::BadSlot { at: at - 4 });
    }
    Ok(Bytes::of(body))
}

/// The body of the record at `at`, or `None` if the gate there is closed. `len` is the text's length.
pub fn next_record<R: Rig>(
    alloc: Global,
    rig: &mut R,
    slot: u8,
    len: u64,
    at: u64,
    piece: &mut Piece,
) -> Result<Option<Bytes>, JournalFault>
    requires slot { slot ≤ 16 }
    requires here { R.is_here rig.old slot }
    requires start { piece.old.start ≤ at }
    requires within { at < len }
    requires len { (there : List ℕ) → R.reads rig.old slot 0 ≡ Some there → len ≡ length there }
    requires is_piece { (there : List ℕ) → R.reads rig.old slot 0 ≡ Some there
        → IsPiece there piece.old.start piece.old.bytes.items }
    ensures within { IfOk result (λ found. IfSome found (λ body. at + (5 + length body) ≤ len)) }
    ensures piece { OnOk result (IsPieceFor (R.reads rig.old slot 0) at piece.new.start piece.new.bytes.items) }
    ensures none { IfOk result (λ found. IfNone found ((there : List ℕ) → R.reads rig.old slot 0 ≡ Some there
        → get_or there at 0 ≢ open_gate)) }
    ensures some { IfOk result (λ found. IfSome found (λ body. (there : List ℕ)
        → R.reads rig.old slot 0 ≡ Some there → IsRecordAt there at body)) }
    ensures bad { (p : ℕ) → IsErrOf result (BadSlot p) → (there : List ℕ) → R.reads rig.old slot 0 ≡ Some there
        → FailsAt (drop at there) at p }
    ensures spent { IsErrOf result Spent → ⊥ }
    ensures cause { HasSlotCause (R.faults rig.old slot) (R.faults rig.new slot) result }
    ensures kept { OnlyReadsArea R.is_here R.reads R.said R.clock R.images R.faults R.syncs R.bytes_written R.bytes_read
        slot 0 rig.old rig.new }
{
    refill(rig, slot, len, at, piece)?;
    let known = ahead(piece, at);
    if known.is_empty() {
        return Err(JournalFault::BadSlot { at });
    }
    if known[0] != OPEN_GATE {
        return Ok(None);
    }
    match read_body_len(&known[1..], len - at - 1) {
        None => Err(JournalFault::BadSlot { at: at + 1 }),
        Some(body_len) => {
            let body = read_body(alloc, rig, slot, at + 5, body_len, &known[PREFIX_LEN..])?;
            Ok(Some(body))
        }
    }
}
