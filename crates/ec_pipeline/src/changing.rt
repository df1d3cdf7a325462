//! A checked update, made on each joined slot.
ghost use Rattle.std.specs.Prelude.{◌≡◌, ◌≤◌, ◌<◌, ◌+◌, ◌^◌, ◌⊎◌, ℕ, length, None, Option, IfOk, IfErr, IfSome, IsErrOf, OnOk, OnErr};
ghost use Rattle.std.specs.List.{All};
ghost use Rattle.ec_model.specs.Codes.{LiesBelow, HasPosition};
ghost use Rattle.ec_model.specs.Stripes.{shard_len};
ghost use Rattle.ec_model.specs.Versions.{Version as Meant};
ghost use Rattle.rig_disk.specs.Faults.{Rose};
ghost use Rattle.shard_store.specs.Ranges.{object_bytes};
ghost use Rattle.shard_store.specs.Shelves.{store_at};
ghost use Rattle.shard_store.specs.Stored.{room_in};
ghost use Rattle.stripe_map.specs.Sizes.{max_object};
ghost use Rattle.ec_positions.specs.Objects.{Object, Objects, bytes_in};
ghost use Rattle.ec_positions.specs.Positions.{change_of, write_of};
ghost use Rattle.ec_positions.specs.Refusals.{refusal_of};
ghost use Rattle.ec_positions.specs.Updates.{bytes_given, name_of};
ghost use Rattle.ec_pipeline.specs.Checking.{IsKnown, worn_room};
ghost use Rattle.ec_pipeline.specs.Drafts.{drafted_change, drafted_write, size_or_none, HasShape, HasSize, IsShapedFor};
ghost use Rattle.ec_pipeline.specs.Preparing.{AreReady, HasNames, Hinders, Prepared};
ghost use Rattle.ec_pipeline.specs.Reading.{AreIdle, AreStored, DecidesAll, HasStripesOf, LacksStripes, OnlyFetches};
ghost use Rattle.ec_pipeline.specs.Refusals.{IsSmall};
ghost use Rattle.ec_pipeline.specs.Shelving.{BecomesAt};
ghost use Rattle.ec_pipeline.specs.Showing.{ShowsAt};
ghost use Rattle.ec_pipeline.specs.Updates.{update_of};

use crate::checking::{Checked, size_or_none};
use crate::draft::Draft;
use crate::drafting::write_draft;
use crate::staging::change_all;
use crate::{PrepareFault, Update};
use ec_code::Code;
use ec_words::{Mask, Name};
use rig_disk::Rig;
use shard_store::Shelf;
use std::alloc::Global;

// The draft of bytes that are put into an object from `off` on.
fn draft_at<R: Rig>(
    alloc: Global,
    shelf: &mut Shelf,
    rig: &mut R,
    code: &dyn Code,
    joined: Mask,
    checked: &Checked,
    name: &Name,
    off: u64,
    bytes: &[u8],
) -> Result<Draft, PrepareFault>
    requires same_k { checked.now.g.k ≡ (meaning code.now).k }
    requires few { checked.now.g.k ≤ 16 }
    requires old { size_or_none checked.now.size ≤ 2 ^ 20 }
    requires new { 1 ≤ length bytes.now → off + length bytes.now ≤ 2 ^ 20 }
    requires below { LiesBelow (meaning code.now).n joined.0 }
    requires decides { DecidesAll (meaning code.now) joined.0 }
    requires idle { AreIdle (R.is_here rig.old) (R.reads rig.old) (R.images rig.old (R.clock rig.old)) joined.0 shelf.old }
    ensures value { IfOk result (λ draft. (o : Option Object) → HasSize o checked.now.size → All (λ b. b < 2 ^ 8) (bytes_in o)
        → AreStored (R.reads rig.old) (R.images rig.old (R.clock rig.old)) joined.0 shelf.old
        → HasStripesOf (meaning code.now) checked.now.g.unit joined.0 shelf.old name.now (bytes_in o)
        → (p : ℕ) → drafted_write (meaning code.now) checked.now.g.unit p draft ≡ write_of (meaning code.now) checked.now.g.unit p o off bytes.now) }
    ensures shape { IfOk result (HasShape checked.now.g.k checked.now.g.unit checked.now.size off (length bytes.now)) }
    ensures versions { IfOk result (λ draft. (draft.version ≡ checked.now.version) × (draft.prior ≡ checked.now.prior)) }
    ensures window { IfOk result (λ draft. length draft.window.items ≤ max_object) }
    ensures list { IfOk result (λ draft. shard_len (meaning code.now).k checked.now.g.unit (length draft.window.items) ≤ 2 ^ 20 + 2 ^ 16) }
    ensures slot { (s : ℕ) → IsErrOf result (PrepareFault.Slot s) → Rose (R.faults rig.old s) (R.faults rig.new s)
        ⊎ LacksStripes checked.now.g.k checked.now.g.unit (size_or_none checked.now.size) (object_bytes (store_at shelf.old s) name.now) }
    ensures among { (s : ℕ) → IsErrOf result (PrepareFault.Slot s) → HasPosition joined.0 s }
    ensures faults { IfErr result (λ fault. (fault ≡ PrepareFault.NoMemory) ⊎ ((s : ℕ) × (fault ≡ PrepareFault.Slot s))) }
    ensures quiet { (s : ℕ) → (IsErrOf result (PrepareFault.Slot s) → ⊥) → R.faults rig.new s ≡ R.faults rig.old s }
    ensures stores { (s : ℕ) → store_at shelf.new s ≡ store_at shelf.old s }
    ensures rig { OnlyFetches R.is_here R.reads R.said R.clock R.images R.syncs R.bytes_written rig.old rig.new }
{
    let at = first_byte(off, bytes.len());
    match write_draft(alloc, shelf, rig, code, joined, checked, name, at, bytes) {
        Ok(draft) => Ok(draft),
        Err(fault) => Err(fault),
    }
}

// The first byte of `len` bytes from `off` on; 0 if there are none.
fn first_byte(off: u64, len: usize) -> u32
    requires short { 1 ≤ len → off < 2 ^ 32 }
    ensures none { len ≡ 0 → result ≡ 0 }
    ensures some { 1 ≤ len → result ≡ off }
{
    if len == 0 { 0 } else { off as u32 }
}

// The draft of an update that writes no range.
fn plain_draft(alloc: Global, checked: &Checked) -> Draft
    ensures versions { (result.version ≡ checked.now.version) × (result.prior ≡ checked.now.prior) }
    ensures window { length result.window.items ≡ 0 }
{
    Draft {
        version: checked.version,
        prior: checked.prior,
        fresh: 0,
        size: 0,
        at: 0,
        window: Vec::new(alloc),
    }
}

// What an update makes of an object.
fn draft_of<R: Rig>(
    alloc: Global,
    shelf: &mut Shelf,
    rig: &mut R,
    code: &dyn Code,
    joined: Mask,
    checked: &Checked,
    update: &Update,
) -> Result<Draft, PrepareFault>
    requires same_k { checked.now.g.k ≡ (meaning code.now).k }
    requires few { checked.now.g.k ≤ 16 }
    requires small { IsSmall (update_of update.now) (size_or_none checked.now.size) }
    requires below { LiesBelow (meaning code.now).n joined.0 }
    requires decides { DecidesAll (meaning code.now) joined.0 }
    requires idle { AreIdle (R.is_here rig.old) (R.reads rig.old) (R.images rig.old (R.clock rig.old)) joined.0 shelf.old }
    ensures value { IfOk result (λ draft. (o : Option Object) → HasSize o checked.now.size → All (λ b. b < 2 ^ 8) (bytes_in o)
        → AreStored (R.reads rig.old) (R.images rig.old (R.clock rig.old)) joined.0 shelf.old
        → HasStripesOf (meaning code.now) checked.now.g.unit joined.0 shelf.old (name_of (update_of update.now)) (bytes_in o)
        → (p : ℕ) → drafted_change (meaning code.now) checked.now.g.unit p draft (update_of update.now)
        ≡ change_of (meaning code.now) checked.now.g.unit p o (update_of update.now)) }
    ensures shape { IfOk result (IsShapedFor checked.now.g.k checked.now.g.unit checked.now.size (update_of update.now)) }
    ensures versions { IfOk result (λ draft. (draft.version ≡ checked.now.version) × (draft.prior ≡ checked.now.prior)) }
    ensures window { IfOk result (λ draft. length draft.window.items ≤ max_object) }
    ensures list { IfOk result (λ draft. shard_len (meaning code.now).k checked.now.g.unit (length draft.window.items) ≤ 2 ^ 20 + 2 ^ 16) }
    ensures slot { (s : ℕ) → IsErrOf result (PrepareFault.Slot s) → Rose (R.faults rig.old s) (R.faults rig.new s)
        ⊎ LacksStripes checked.now.g.k checked.now.g.unit (size_or_none checked.now.size) (object_bytes (store_at shelf.old s) (name_of (update_of update.now))) }
    ensures among { (s : ℕ) → IsErrOf result (PrepareFault.Slot s) → HasPosition joined.0 s }
    ensures faults { IfErr result (λ fault. (fault ≡ PrepareFault.NoMemory) ⊎ ((s : ℕ) × (fault ≡ PrepareFault.Slot s))) }
    ensures quiet { (s : ℕ) → (IsErrOf result (PrepareFault.Slot s) → ⊥) → R.faults rig.new s ≡ R.faults rig.old s }
    ensures stores { (s : ℕ) → store_at shelf.new s ≡ store_at shelf.old s }
    ensures rig { OnlyFetches R.is_here R.reads R.said R.clock R.images R.syncs R.bytes_written rig.old rig.new }
{
    match update {
        Update::Append { name, bytes } => {
            let off = u64::from(size_or_none(checked.size));
            draft_at(
                alloc,
                shelf,
                rig,
                code,
                joined,
                checked,
                name,
                off,
                bytes.as_slice(),
            )
        }
        Update::Write { name, off, bytes } => {
            draft_at(
                alloc,
                shelf,
                rig,
                code,
                joined,
                checked,
                name,
                *off,
                bytes.as_slice(),
            )
        }
        Update::Full { .. } => Ok(plain_draft(alloc, checked)),
        Update::Delete { .. } => Ok(plain_draft(alloc, checked)),
        Update::SetAttr { .. } => Ok(plain_draft(alloc, checked)),
        Update::RemoveAttr { .. } => Ok(plain_draft(alloc, checked)),
    }
}

// Says that the names in an update are names, and does nothing.
fn are_names(update: &Update)
    ensures { HasNames (update_of update.now) }
{
    let _name = update.name().as_slice();
    match update {
        Update::SetAttr { attr, .. } => {
            let _attr = attr.as_slice();
        }
        Update::RemoveAttr { attr, .. } => {
            let _attr = attr.as_slice();
        }
        _ => {}
    }
}

// Says that the bytes in an update are bytes, and does nothing.
fn are_bytes(update: &Update)
    ensures { All (λ b. b < 2 ^ 8) (bytes_given (update_of update.now)) }
{
    match update {
        Update::Append { bytes, .. } => {
            let _bytes = bytes.as_slice();
        }
        Update::Write { bytes, .. } => {
            let _bytes = bytes.as_slice();
        }
        Update::Full { bytes, .. } => {
            let _bytes = bytes.as_slice();
        }
        _ => {}
    }
}

/// Makes a checked update on each joined slot, or leaves all stores as they were. `queued` updates are not flushed yet.
pub(crate) fn make_change<R: Rig>(
    alloc: Global,
    shelf: &mut Shelf,
    rig: &mut R,
    code: &dyn Code,
    joined: Mask,
    queued: usize,
    checked: &Checked,
    update: &Update,
) -> Result<(), PrepareFault>
    requires same_k { checked.now.g.k ≡ (meaning code.now).k }
    requires small { IsSmall (update_of update.now) (size_or_none checked.now.size) }
    requires below { LiesBelow (meaning code.now).n joined.0 }
    requires decides { DecidesAll (meaning code.now) joined.0 }
    requires queued { queued < 16 }
    requires ready { AreReady (meaning code.now).k queued joined.0 shelf.old }
    requires roomy { (s : ℕ) → s < 16 → HasPosition joined.0 s → IfSome (store_at shelf.old s) (λ store. worn_room ≤ room_in store) }
    requires idle { AreIdle (R.is_here rig.old) (R.reads rig.old) (R.images rig.old (R.clock rig.old)) joined.0 shelf.old }
    ensures ok { OnOk result ((unit : ℕ) (objects : Objects) (head : Meant) (epoch : ℕ) → ShowsAt (meaning code.now) unit joined.0 objects head shelf.old
        → AreStored (R.reads rig.old) (R.images rig.old (R.clock rig.old)) joined.0 shelf.old
        → IsKnown (meaning code.now) unit objects head epoch (update_of update.now) checked.now → refusal_of objects (update_of update.now) ≡ None
        → Prepared (meaning code.now) unit joined.0 objects head epoch (update_of update.now) shelf.old shelf.new) }
    ensures ready { OnOk result (AreReady (meaning code.now).k (queued + 1) joined.0 shelf.new) }
    ensures slot { (s : ℕ) → IsErrOf result (PrepareFault.Slot s) → Rose (R.faults rig.old s) (R.faults rig.new s)
        ⊎ Hinders (meaning code.now) joined.0 shelf.old (update_of update.now) checked.now s }
    ensures idle { AreIdle (R.is_here rig.new) (R.reads rig.new) (R.images rig.new (R.clock rig.new)) joined.0 shelf.new }
    ensures stored { AreStored (R.reads rig.old) (R.images rig.old (R.clock rig.old)) joined.0 shelf.old
        → AreStored (R.reads rig.new) (R.images rig.new (R.clock rig.new)) joined.0 shelf.new }
    ensures unchanged { OnErr result ((s : ℕ) → BecomesAt (λ t. t) (store_at shelf.old s) (store_at shelf.new s)) }
    ensures faults { IfErr result (λ fault. (fault ≡ PrepareFault.NoMemory) ⊎ ((s : ℕ) × (fault ≡ PrepareFault.Slot s))) }
    ensures quiet { (s : ℕ) → (IsErrOf result (PrepareFault.Slot s) → ⊥) → R.faults rig.new s ≡ R.faults rig.old s }
    ensures rig { OnlyFetches R.is_here R.reads R.said R.clock R.images R.syncs R.bytes_written rig.old rig.new }
{
    let _shape = code.shape();
    are_names(update);
    are_bytes(update);
    let draft = match draft_of(alloc, shelf, rig, code, joined, checked, update) {
        Ok(draft) => draft,
        Err(fault) => return Err(fault),
    };
    match change_all(alloc, shelf, code, checked.g, joined, &draft, update) {
        Ok(()) => Ok(()),
        Err(fault) => Err(fault),
    }
}
