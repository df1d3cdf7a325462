//! What an update makes of an object, read and put together before it is cut into positions.
ghost use Rattle.std.specs.Prelude.{◌≡◌, ◌<◌, ◌≤◌, ◌+◌, ◌^◌, ◌⊎◌, ℕ, length, Option, IfOk, IfErr, IsErrOf};
ghost use Rattle.std.specs.List.{All};
ghost use Rattle.ec_model.specs.Codes.{HasPosition, LiesBelow};
ghost use Rattle.ec_model.specs.Stripes.{shard_len};
ghost use Rattle.rig_disk.specs.Faults.{Rose};
ghost use Rattle.shard_model.specs.Limits.{max_size};
ghost use Rattle.shard_store.specs.Ranges.{object_bytes};
ghost use Rattle.shard_store.specs.Shelves.{store_at};
ghost use Rattle.stripe_map.specs.Sizes.{max_object};
ghost use Rattle.ec_positions.specs.Objects.{Object, bytes_in};
ghost use Rattle.ec_positions.specs.Positions.{write_of};
ghost use Rattle.ec_pipeline.specs.Drafts.{drafted_write, size_or_none, fresh_number, HasShape, HasSize};
ghost use Rattle.ec_pipeline.specs.Reading.{AreIdle, AreStored, DecidesAll, HasStripesOf, LacksStripes, OnlyFetches};

use crate::PrepareFault;
use crate::checking::{Checked, size_or_none};
use crate::draft::Draft;
use crate::reading::window;
use ec_code::Code;
use ec_words::{Mask, Name};
use rig_disk::Rig;
use shard_store::Shelf;
use std::alloc::Global;

/// The draft of bytes that are put into an object from `off` on.
pub(crate) fn write_draft<R: Rig>(
    alloc: Global,
    shelf: &mut Shelf,
    rig: &mut R,
    code: &dyn Code,
    joined: Mask,
    checked: &Checked,
    name: &Name,
    off: u32,
    bytes: &[u8],
) -> Result<Draft, PrepareFault>
    requires same_k { checked.now.g.k ≡ (meaning code.now).k }
    requires few { checked.now.g.k ≤ 16 }
    requires size { size_or_none checked.now.size ≤ max_size }
    requires new_size { off + length bytes.now ≤ max_size }
    requires below { LiesBelow (meaning code.now).n joined.0 }
    requires decides { DecidesAll (meaning code.now) joined.0 }
    requires idle { AreIdle (R.is_here rig.old) (R.reads rig.old) (R.images rig.old (R.clock rig.old)) joined.0 shelf.old }
    ensures value { IfOk result (λ draft. (o : Option Object) → HasSize o checked.now.size → All (λ b. b < 2 ^ 8) (bytes_in o)
        → AreStored (R.reads rig.old) (R.images rig.old (R.clock rig.old)) joined.0 shelf.old
        → HasStripesOf (meaning code.now) checked.now.g.unit joined.0 shelf.old name.now (bytes_in o)
        → (p : ℕ) → drafted_write (meaning code.now) checked.now.g.unit p draft ≡ write_of (meaning code.now) checked.now.g.unit p o off bytes.now) }
    ensures shape { IfOk result (HasShape checked.now.g.k checked.now.g.unit checked.now.size off (length bytes.now)) }
    ensures versions { IfOk result (λ draft. (draft.version ≡ checked.now.version) × (draft.prior ≡ checked.now.prior)) }
    ensures window { IfOk result (λ draft. length draft.window.items ≤ max_object) }
    ensures list { IfOk result (λ draft. shard_len (meaning code.now).k checked.now.g.unit (length draft.window.items) ≤ 2 ^ 20 + 2 ^ 16) }
    ensures slot { (s : ℕ) → IsErrOf result (PrepareFault.Slot s) → Rose (R.faults rig.old s) (R.faults rig.new s)
        ⊎ LacksStripes checked.now.g.k checked.now.g.unit (size_or_none checked.now.size) (object_bytes (store_at shelf.old s) name.now) }
    ensures among { (s : ℕ) → IsErrOf result (PrepareFault.Slot s) → HasPosition joined.0 s }
    ensures faults { IfErr result (λ fault. (fault ≡ PrepareFault.NoMemory) ⊎ ((s : ℕ) × (fault ≡ PrepareFault.Slot s))) }
    ensures quiet { (s : ℕ) → (IsErrOf result (PrepareFault.Slot s) → ⊥) → R.faults rig.new s ≡ R.faults rig.old s }
    ensures stores { (s : ℕ) → store_at shelf.new s ≡ store_at shelf.old s }
    ensures rig { OnlyFetches R.is_here R.reads R.said R.clock R.images R.syncs R.bytes_written rig.old rig.new }
{
    let g = checked.g;
    let fresh = fresh_number(checked.size);
    let size = size_or_none(checked.size);
    if bytes.len() == 0 {
        return Ok(Draft {
            version: checked.version,
            prior: checked.prior,
            fresh,
            size,
            at: 0,
            window: Vec::new(alloc),
        });
    }
    let window = match window(alloc, shelf, rig, code, g, joined, name, size, off, bytes) {
        Ok(window) => window,
        Err(fault) => return Err(fault),
    };
    Ok(Draft {
        version: checked.version,
        prior: checked.prior,
        fresh,
        size: u32::max(size, off + bytes.len() as u32),
        at: off / (u32::from(g.k) * g.unit) * g.unit,
        window,
    })
}

// 1 if there is no object.
fn fresh_number(size: Option<u32>) -> u8
    ensures { result ≡ fresh_number size }
{
    match size {
        Some(_) => 0,
        None => 1,
    }
}
