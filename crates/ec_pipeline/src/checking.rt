//! What the joined slots tell of an update before it is made.
ghost use Rattle.std.specs.Prelude.{◌≡◌, ◌<◌, ◌≤◌, ◌⊎◌, ◌↔◌, ◌-◌, ◌+◌, ◌^◌, ℕ, true, false, min, max, Err, None, IfOk, IfErr, IfSome, IsSomeAnd};
ghost use Rattle.std.specs.Option.{option_copied};
ghost use Rattle.std.specs.FinMap as fin;
ghost use Rattle.ec_model.specs.Codes.{CodeRows, HasPosition};
ghost use Rattle.ec_model.specs.Versions.{Version as Meant};
ghost use Rattle.shard_store.specs.Shelves.{store_at};
ghost use Rattle.shard_store.specs.Stored.{told_in, room_in};
ghost use Rattle.shard_store.specs.Told.{IsAccepted};
ghost use Rattle.ec_positions.specs.Objects.{Objects};
ghost use Rattle.ec_positions.specs.Refusals.{refusal_of};
ghost use Rattle.ec_positions.specs.Updates.{name_of, puts_bytes};
ghost use Rattle.ec_pipeline.specs.Checking.{IsKnown, IsToldByLead, IsWorn, next_version, worn_room};
ghost use Rattle.ec_pipeline.specs.Drafts.{size_or_none, size_if};
ghost use Rattle.ec_pipeline.specs.Refusals.{IsRefusalFor, IsSmall, refusal_if, refused_in};
ghost use Rattle.ec_pipeline.specs.Showing.{ShowsAt};
ghost use Rattle.ec_pipeline.specs.Sizes.{new_size_of};
ghost use Rattle.ec_pipeline.specs.Updates.{update_of};
ghost use Rattle.ec_pipeline.specs.declared.fault.Refusal.{Refusal as Refused};

use crate::limits::{SEQ_LIMIT, WORN_ROOM};
use crate::refusing::{delete_refusal, put_refusal, remove_refusal, set_refusal};
use crate::{PrepareFault, Refusal, Update};
use ec_words::{Geometry, Mask, Version};
use shard_state::{Held, ShardState};
use shard_store::Shelf;

/// What the lowest joined slot tells of an update: the stripes, the version of the update and the one before it, and the
/// object's size in bytes, if it is there.
#[derive(Clone, Copy)]
pub struct Checked {
    pub g: Geometry,
    pub version: Version,
    pub prior: Version,
    pub size: Option<u32>,
}

/// The size that an object of `old` bytes has after an update that puts bytes into it.
fn new_size(update: &Update, old: u64) -> u64
    requires old { old < 2 ^ 32 }
    ensures { result ≡ min (new_size_of (update_of update.now) old) (2 ^ 64 - 1) }
{
    match update {
        Update::Append { bytes, .. } => old + bytes.as_slice().len() as u64,
        Update::Write { off, bytes, .. } => size_after(old, *off, bytes.as_slice().len() as u64),
        Update::Full { bytes, .. } => bytes.as_slice().len() as u64,
        _ => old,
    }
}

/// The size once `len` bytes lie from `off` on in an object of `old` bytes.
fn size_after(old: u64, off: u64, len: u64) -> u64
    ensures zero { len ≡ 0 → result ≡ old }
    ensures some { 1 ≤ len → result ≡ min (max old (off + len)) (2 ^ 64 - 1) }
{
    if len == 0 {
        old
    } else {
        u64::max(old, off.saturating_add(len))
    }
}

/// The size of an object that may be there.
pub(crate) fn held_size(held: Option<&Held>) -> Option<u32>
    ensures { result ≡ size_if (option_copied held.entry) }
{
    match held {
        Some(held) => Some(held.size),
        None => None,
    }
}

/// The size of an object that may be there: 0 if it is not.
pub(crate) fn size_or_none(size: Option<u32>) -> u32
    ensures { result ≡ size_or_none size }
{
    match size {
        Some(size) => size,
        None => 0,
    }
}

/// The least position of a set.
pub(crate) fn lowest(set: Mask) -> Option<u8>
    requires few { set.0 < 2 ^ 16 }
    ensures some { IfSome result (λ p. (p < 16) × HasPosition set.0 p) }
    ensures least { IfSome result (λ p. (q : ℕ) → q < p → HasPosition set.0 q → ⊥) }
    ensures none { result ≡ None → set.0 ≡ 0 }
{
    for p in 0..16u8 {
        if set.has(p) {
            return Some(p);
        }
    }
    None
}

/// Whether some slot of a set has too little room.
fn is_worn(shelf: &Shelf, set: Mask) -> bool
    ensures worn { result ≡ true → (s : ℕ) × (HasPosition set.0 s × IsSomeAnd (store_at shelf.now s) (λ store. room_in store < worn_room)) }
    ensures roomy { result ≡ false → (s : ℕ) → s < 16 → HasPosition set.0 s → IfSome (store_at shelf.now s) (λ store. worn_room ≤ room_in store) }
{
    for slot in 0..16u8 {
        if set.has(slot) && lacks_room(shelf, slot) {
            return true;
        }
    }
    false
}

fn lacks_room(shelf: &Shelf, slot: u8) -> bool
    requires slot { slot < 16 }
    ensures worn { result ≡ true → IsSomeAnd (store_at shelf.now slot) (λ store. room_in store < worn_room) }
    ensures roomy { result ≡ false → IfSome (store_at shelf.now slot) (λ store. worn_room ≤ room_in store) }
{
    match shelf.get(slot) {
        None => false,
        Some(store) => store.room() < WORN_ROOM,
    }
}

/// Looks whether an update may be made, by what the joined slots tell. It takes no memory.
pub fn check(
    shelf: &Shelf,
    joined: Mask,
    epoch: u32,
    update: &Update,
) -> Result<Checked, PrepareFault>
    requires some { 1 ≤ joined.0 }
    requires few { joined.0 < 2 ^ 16 }
    requires there { (s : ℕ) → HasPosition joined.0 s → IsSomeAnd (store_at shelf.now s) (λ store. IsAccepted (told_in store)) }
    ensures refused { (code : CodeRows) (unit : ℕ) (objects : Objects) (head : Meant) → ShowsAt code unit joined.0 objects head shelf.now
        → refusal_of objects (update_of update.now) ≡ refusal_if (refused_in result) }
    ensures worn { (code : CodeRows) (unit : ℕ) (objects : Objects) (head : Meant) → ShowsAt code unit joined.0 objects head shelf.now
        → refusal_of objects (update_of update.now) ≡ None → (result ≡ Err PrepareFault.Worn) ↔ IsWorn joined.0 head shelf.now }
    ensures faults { IfErr result (λ fault. (fault ≡ PrepareFault.Worn) ⊎ ((refusal : Refused) × (fault ≡ PrepareFault.Refused refusal))) }
    ensures known { IfOk result (λ checked. (code : CodeRows) (unit : ℕ) (objects : Objects) (head : Meant)
        → ShowsAt code unit joined.0 objects head shelf.now → IsKnown code unit objects head epoch (update_of update.now) checked) }
    ensures lead { IfOk result (IsToldByLead joined.0 shelf.now epoch (update_of update.now)) }
    ensures k { IfOk result (λ checked. (k : ℕ)
        → ((s : ℕ) → HasPosition joined.0 s → IsSomeAnd (store_at shelf.now s) (λ store. (told_in store).shard.geometry.k ≡ k)) → checked.g.k ≡ k) }
    ensures roomy { IfOk result (λ _. (s : ℕ) → s < 16 → HasPosition joined.0 s → IfSome (store_at shelf.now s) (λ store. worn_room ≤ room_in store)) }
    ensures small { IfOk result (λ checked. IsSmall (update_of update.now) (size_or_none checked.size)) }
{
    match lowest(joined) {
        None => unreachable!(),
        Some(lead) => match shelf.get(lead) {
            None => unreachable!(),
            Some(store) => check_by(shelf, store.state(), joined, epoch, update),
        },
    }
}

// The same by what one slot tells.
fn check_by(
    shelf: &Shelf,
    state: &ShardState,
    joined: Mask,
    epoch: u32,
    update: &Update,
) -> Result<Checked, PrepareFault>
    requires few { joined.0 < 2 ^ 16 }
    ensures refused { IsRefusalFor state.now.state.objects (update_of update.now) (refused_in result) }
    ensures is_worn { result ≡ Err PrepareFault.Worn → IsWorn joined.0 state.now.state.head shelf.now }
    ensures not_worn { IfOk result (λ _. IsWorn joined.0 state.now.state.head shelf.now → ⊥) }
    ensures faults { IfErr result (λ fault. (fault ≡ PrepareFault.Worn) ⊎ ((refusal : Refused) × (fault ≡ PrepareFault.Refused refusal))) }
    ensures size { IfOk result (λ checked. checked.size ≡ size_if (fin.get state.now.state.objects (name_of (update_of update.now)))) }
    ensures versions { IfOk result (λ checked. (checked.prior ≡ state.now.state.head) × (checked.version ≡ next_version epoch state.now.state.head)) }
    ensures geometry { IfOk result (λ checked. (checked.g.k ≡ state.now.geometry.k) × (checked.g.unit ≡ state.now.geometry.unit)) }
    ensures roomy { IfOk result (λ _. (s : ℕ) → s < 16 → HasPosition joined.0 s → IfSome (store_at shelf.now s) (λ store. worn_room ≤ room_in store)) }
    ensures small { IfOk result (λ checked. IsSmall (update_of update.now) (size_or_none checked.size)) }
{
    let size = held_size(state.object(update.name()));
    match refusal_by(state, size, update) {
        Some(refusal) => Err(PrepareFault::Refused(refusal)),
        None => {
            let prior = state.head();
            if prior.seq >= SEQ_LIMIT - 1 {
                return Err(PrepareFault::Worn);
            }
            if is_worn(shelf, joined) {
                return Err(PrepareFault::Worn);
            }
            let version = Version {
                epoch,
                seq: prior.seq + 1,
            };
            Ok(Checked {
                g: state.geometry(),
                version,
                prior,
                size,
            })
        }
    }
}

// The refusal of an update by what one slot tells; `size` is that of its object there.
fn refusal_by(state: &ShardState, size: Option<u32>, update: &Update) -> Option<Refusal>
    requires size { size ≡ size_if (fin.get state.now.state.objects (name_of (update_of update.now))) }
    ensures meant { IsRefusalFor state.now.state.objects (update_of update.now) result }
    ensures small { result ≡ None → IsSmall (update_of update.now) (size_or_none size) }
{
    match update {
        Update::Append { .. } => refusal_of_put(state, size, update),
        Update::Write { .. } => refusal_of_put(state, size, update),
        Update::Full { .. } => refusal_of_put(state, size, update),
        Update::Delete { name } => delete_refusal(state, name),
        Update::SetAttr { name, attr, value } => set_refusal(state, name, attr, value.as_slice()),
        Update::RemoveAttr { name, attr } => remove_refusal(state, name, attr),
    }
}

// The refusal of an update that puts bytes.
fn refusal_of_put(state: &ShardState, size: Option<u32>, update: &Update) -> Option<Refusal>
    requires size { size ≡ size_if (fin.get state.now.state.objects (name_of (update_of update.now))) }
    requires puts { puts_bytes (update_of update.now) ≡ true }
    ensures meant { IsRefusalFor state.now.state.objects (update_of update.now) result }
    ensures small { result ≡ None → IsSmall (update_of update.now) (size_or_none size) }
{
    let size_then = new_size(update, u64::from(size_or_none(size)));
    put_refusal(state, update.name(), size_then)
}
