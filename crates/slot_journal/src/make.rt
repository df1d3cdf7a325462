//! The writes that make a journal: the first gate is closed on the disk before anything is written behind it.
ghost use Rattle.std.specs.Prelude.{◌≡◌, ◌⊎◌, ◌≤◌, ◌+◌, ◌++◌, ◌∷◌, [], ℕ, List, length, Some, IfOk, IsTrue, OnOk, false};
ghost use Rattle.rig_disk.specs.Disk.{From, on_told, written};
ghost use Rattle.rig_disk.specs.During.{During, Only};
ghost use Rattle.rig_disk.specs.Faults.{HasCause};
ghost use Rattle.rig_disk.specs.Frame.{Spends, KeepsOthers};
ghost use Rattle.slot_journal.specs.Header.{open_gate};
ghost use Rattle.slot_journal.specs.Reading.{OnlyReadsArea};
ghost use Rattle.slot_journal.specs.Text.{max_body};
ghost use Rattle.slot_journal.specs.Writing.{KeepsFront, behind_gate, IsShut, IsUnshut, IsSameOrVoid, IsVoidOrFirst, ReadsBytes, first_text};

use crate::limits::AREA;
use crate::write::append_record;
use crate::{CLOSED_GATE, HEAD_LEN, HEADER_LEN, OPEN_GATE};
use rig_disk::{Failed, Rig};

/// Whether the area's first byte is there, and is a closed gate.
fn is_shut<R: Rig>(rig: &mut R, slot: u8) -> Result<bool, Failed>
    requires slot { slot ≤ 16 }
    requires here { R.is_here rig.old slot }
    ensures shut { IfOk result (λ shut. IsTrue shut → (there : List ℕ) → R.reads rig.old slot 0 ≡ Some there
        → IsShut there) }
    ensures unshut { IfOk result (λ shut. shut ≡ false → (there : List ℕ) → R.reads rig.old slot 0 ≡ Some there
        → IsUnshut there) }
    ensures cause { HasCause (R.faults rig.old slot) (R.faults rig.new slot) result }
    ensures counts { Spends R.syncs R.bytes_written R.bytes_read slot 0 0 1 rig.old rig.new }
    ensures kept { OnlyReadsArea R.is_here R.reads R.said R.clock R.images R.faults R.syncs R.bytes_written R.bytes_read
        slot 0 rig.old rig.new }
{
    let len = rig.length(slot, AREA)?;
    if len == 0 {
        return Ok(false);
    }
    let mut gate = [OPEN_GATE];
    rig.read_at(slot, AREA, 0, &mut gate)?;
    Ok(gate[0] != OPEN_GATE)
}

/// Closes the area's first gate if it is open or missing. A closed gate is not written again: a crash could open it over what
/// stands behind it.
pub fn shut<R: Rig>(rig: &mut R, slot: u8) -> Result<(), Failed>
    requires slot { slot ≤ 16 }
    requires here { R.is_here rig.old slot }
    ensures done { OnOk result ((after : List ℕ) → R.reads rig.new slot 0 ≡ Some after → IsShut after
        × Only R.clock R.images rig.new slot 0 after) }
    ensures told { OnOk result (ReadsBytes (R.reads rig.old slot 0) → ReadsBytes (R.reads rig.new slot 0)) }
    ensures told_before { OnOk result (ReadsBytes (R.reads rig.new slot 0) → ReadsBytes (R.reads rig.old slot 0)) }
    ensures any_moment { During R.clock R.images rig.old rig.new (From (R.images rig.old (R.clock rig.old)) slot 0
        (λ before after. ReadsBytes (R.reads rig.old slot 0) → IsSameOrVoid before after)) }
    ensures cause { HasCause (R.faults rig.old slot) (R.faults rig.new slot) result }
    ensures counts { Spends R.syncs R.bytes_written R.bytes_read slot 2 1 1 rig.old rig.new }
    ensures kept { KeepsOthers R.is_here R.reads R.said R.faults R.syncs R.bytes_written R.bytes_read
        slot 0 rig.old rig.new }
{
    rig.sync(slot, AREA)?; // The gate that is read is then the one on the disk.
    if is_shut(rig, slot)? {
        return Ok(());
    }
    rig.write_at(slot, AREA, 0, &[CLOSED_GATE])?;
    rig.sync(slot, AREA)?;
    Ok(())
}

/// Writes a head, a record and a closed gate behind the area's first byte.
fn write_behind<R: Rig>(rig: &mut R, slot: u8, head: &[u8; 23], body: &[u8]) -> Result<(), Failed>
    requires slot { slot ≤ 16 }
    requires here { R.is_here rig.old slot }
    requires fits { length body.now ≤ max_body }
    requires some { (there : List ℕ) → R.reads rig.old slot 0 ≡ Some there → 1 ≤ length there }
    ensures written { OnOk result (R.reads rig.new slot 0 ≡ on_told (written 25 (behind_gate body.now))
        (on_told (written 1 (head.now ++ open_gate ∷ [])) (R.reads rig.old slot 0))) }
    ensures any_moment { During R.clock R.images rig.old rig.new
        (From (R.images rig.old (R.clock rig.old)) slot 0 (KeepsFront 1)) }
    ensures cause { HasCause (R.faults rig.old slot) (R.faults rig.new slot) result }
    ensures counts { Spends R.syncs R.bytes_written R.bytes_read slot 0 (length body.now + 29) 0 rig.old rig.new }
    ensures kept { KeepsOthers R.is_here R.reads R.said R.faults R.syncs R.bytes_written R.bytes_read
        slot 0 rig.old rig.new }
{
    let mut bytes = [OPEN_GATE; HEADER_LEN];
    bytes[..HEAD_LEN].copy_from_slice(head);
    rig.write_at(slot, AREA, 1, &bytes)?;
    append_record(rig, slot, AREA, HEADER_LEN as u64 + 1, body)?;
    Ok(())
}

/// Writes a text with one record over an area whose first gate is closed, and opens that gate once the rest is on the
/// disk.
pub fn write_first<R: Rig>(
    rig: &mut R,
    slot: u8,
    head: &[u8; 23],
    body: &[u8],
) -> Result<(), Failed>
    requires slot { slot ≤ 16 }
    requires here { R.is_here rig.old slot }
    requires some { 1 ≤ length body.now }
    requires fits { length body.now ≤ max_body }
    requires shut { (there : List ℕ) → R.reads rig.old slot 0 ≡ Some there → IsShut there
        × Only R.clock R.images rig.old slot 0 there }
    ensures done { OnOk result ((was : ReadsBytes (R.reads rig.old slot 0))
        → (R.reads rig.new slot 0 ≡ Some (first_text head.now body.now))
        × Only R.clock R.images rig.new slot 0 (first_text head.now body.now)) }
    ensures told { OnOk result (ReadsBytes (R.reads rig.new slot 0) → ReadsBytes (R.reads rig.old slot 0)) }
    ensures any_moment { During R.clock R.images rig.old rig.new (From (R.images rig.old (R.clock rig.old)) slot 0
        (λ _ after. (was : ReadsBytes (R.reads rig.old slot 0)) → IsVoidOrFirst head.now body.now after)) }
    ensures cause { HasCause (R.faults rig.old slot) (R.faults rig.new slot) result }
    ensures counts { Spends R.syncs R.bytes_written R.bytes_read slot 2 (length body.now + 30) 0 rig.old rig.new }
    ensures kept { KeepsOthers R.is_here R.reads R.said R.faults R.syncs R.bytes_written R.bytes_read
        slot 0 rig.old rig.new }
{
    rig.cut(slot, AREA, 1)?;
    write_behind(rig, slot, head, body)?;
    rig.sync(slot, AREA)?;
    rig.write_at(slot, AREA, 0, &[OPEN_GATE])?;
    rig.sync(slot, AREA)?;
    Ok(())
}
