//! The first bytes of the map's text.
ghost use Rattle.std.specs.Prelude.{◌≡◌, ◌≢◌, ◌≤◌, ◌<◌, ◌⊎◌, ℕ, List, length, take, get_or, Some, IfOk, OnOk, IsErr, IsTrue, false};
ghost use Rattle.rig_disk.specs.During.{Only};
ghost use Rattle.rig_disk.specs.Faults.{HasCause};
ghost use Rattle.slot_journal.specs.Header.{open_gate};
ghost use Rattle.slot_journal.specs.Reading.{SyncsAndReadsArea};
ghost use Rattle.pool_map.specs.Maps.{HasNoText};

use crate::limits::{AREA, MAP_SLOT};
use rig_disk::{Failed, Rig};
use slot_journal::{HEADER_LEN, OPEN_GATE};

/// Reads the first bytes of the map's text, if there is one that is no shorter than a header. All of it is on the disk then.
pub(crate) fn read_front<R: Rig>(rig: &mut R, front: &mut [u8; 24]) -> Result<bool, Failed>
    requires here { R.is_here rig.old 16 }
    ensures some { IfOk result (λ is. IsTrue is → (there : List ℕ) → R.reads rig.old 16 0 ≡ Some there
        → (24 ≤ length there) × ((get_or there 0 0 ≡ open_gate) × (front.new ≡ take 24 there))) }
    ensures none { IfOk result (λ is. is ≡ false → (there : List ℕ) → R.reads rig.old 16 0 ≡ Some there → HasNoText there) }
    ensures durable { OnOk result ((there : List ℕ) → R.reads rig.new 16 0 ≡ Some there → Only R.clock R.images rig.new 16 0 there) }
    ensures cause { HasCause (R.faults rig.old 16) (R.faults rig.new 16) result }
    ensures kept { SyncsAndReadsArea R.is_here R.reads R.said R.clock R.images R.faults R.syncs R.bytes_written R.bytes_read
        16 0 1 (IsErr result) rig.old rig.new }
{
    rig.sync(MAP_SLOT, AREA)?;
    let len = rig.length(MAP_SLOT, AREA)?;
    if len < HEADER_LEN as u64 {
        return Ok(false);
    }
    rig.read_at(MAP_SLOT, AREA, 0, front)?;
    Ok(front[0] == OPEN_GATE)
}
