//! The writes of one record.
ghost use Rattle.std.specs.Prelude.{◌≡◌, ◌≤◌, ◌+◌, ◌^◌, ◌++◌, ◌∷◌, [], ℕ, List, length, Some, OnOk};
ghost use Rattle.rig_disk.specs.Disk.{From, on_told, written};
ghost use Rattle.rig_disk.specs.During.{During, Only};
ghost use Rattle.rig_disk.specs.Faults.{HasCause};
ghost use Rattle.rig_disk.specs.Frame.{Spends, KeepsOthers};
ghost use Rattle.slot_journal.specs.Limits.{area_limit, commit_bytes, commit_syncs, prefix_len};
ghost use Rattle.slot_journal.specs.Text.{IsText, max_body};
ghost use Rattle.slot_journal.specs.Writing.{KeepsFront, behind_gate, next_gate, IsBeforeOrAfter, IsAtRest, ReadsAsText, ReadsBytes};

use crate::{CLOSED_GATE, OPEN_GATE};
use byteorder::{BigEndian, ByteOrder};
use rig_disk::{Failed, Rig};

/// Writes a length, a body and a closed gate from `at` on.
pub fn append_record<R: Rig>(
    rig: &mut R,
    slot: u8,
    area: u8,
    at: u64,
    body: &[u8],
) -> Result<(), Failed>
    requires slot { slot ≤ 16 }
    requires area { area ≤ 1 }
    requires here { R.is_here rig.old slot }
    requires fits { length body.now ≤ max_body }
    requires room { at + length body.now + prefix_len ≤ area_limit }
    requires at { (there : List ℕ) → R.reads rig.old slot area ≡ Some there → at ≤ length there }
    ensures written { OnOk result (R.reads rig.new slot area
        ≡ on_told (written at (behind_gate body.now)) (R.reads rig.old slot area)) }
    ensures any_moment { During R.clock R.images rig.old rig.new
        (From (R.images rig.old (R.clock rig.old)) slot area (KeepsFront at)) }
    ensures cause { HasCause (R.faults rig.old slot) (R.faults rig.new slot) result }
    ensures counts { Spends R.syncs R.bytes_written R.bytes_read slot 0 (length body.now + prefix_len) 0 rig.old rig.new }
    ensures kept { KeepsOthers R.is_here R.reads R.said R.faults R.syncs R.bytes_written R.bytes_read
        slot area rig.old rig.new }
{
    let mut size = [0; 4];
    BigEndian::write_u32(&mut size, body.len() as u32);
    rig.write_at(slot, area, at, &size)?;
    rig.write_at(slot, area, at + 4, body)?;
    rig.write_at(slot, area, at + 4 + body.len() as u64, &[CLOSED_GATE])?;
    Ok(())
}

/// Writes a record behind the closed gate, and opens the gate once the record is on the disk.
pub fn commit_record<R: Rig>(
    rig: &mut R,
    slot: u8,
    area: u8,
    gate: u64,
    body: &[u8],
) -> Result<(), Failed>
    requires slot { slot ≤ 16 }
    requires area { area ≤ 1 }
    requires here { R.is_here rig.old slot }
    requires some { 1 ≤ length body.now }
    requires fits { length body.now ≤ max_body }
    requires room { gate + length body.now + commit_bytes ≤ area_limit }
    requires settled { (there : List ℕ) → R.reads rig.old slot area ≡ Some there
        → Only R.clock R.images rig.old slot area there × IsAtRest there gate }
    ensures done { OnOk result ((was : ReadsAsText (R.reads rig.old slot area) gate) → (after : List ℕ)
        × (R.reads rig.new slot area ≡ Some after)
        × IsText was.head (was.bodies ++ body.now ∷ []) (next_gate gate body.now) after
        × Only R.clock R.images rig.new slot area after) }
    ensures told { OnOk result (ReadsBytes (R.reads rig.new slot area) → ReadsBytes (R.reads rig.old slot area)) }
    ensures any_moment { During R.clock R.images rig.old rig.new (From (R.images rig.old (R.clock rig.old)) slot area
        (λ _ c. (was : ReadsAsText (R.reads rig.old slot area) gate)
        → IsBeforeOrAfter was.head was.bodies body.now gate c)) }
    ensures cause { HasCause (R.faults rig.old slot) (R.faults rig.new slot) result }
    ensures counts { Spends R.syncs R.bytes_written R.bytes_read slot commit_syncs (length body.now + commit_bytes) 0 rig.old rig.new }
    ensures kept { KeepsOthers R.is_here R.reads R.said R.faults R.syncs R.bytes_written R.bytes_read
        slot area rig.old rig.new }
{
    append_record(rig, slot, area, gate + 1, body)?;
    rig.sync(slot, area)?;
    rig.write_at(slot, area, gate, &[OPEN_GATE])?;
    rig.sync(slot, area)?;
    Ok(())
}
