//! Steps on the stores of a set of slots.
ghost use Rattle.std.specs.Prelude.{◌≡◌, ◌<◌, ◌≤◌, ◌⊎◌, ℕ, length, IfErr, IfSome, OnOk, OnErr};
ghost use Rattle.ec_model.specs.Codes.{HasPosition, LiesBelow};
ghost use Rattle.shard_store.specs.OnSlot.{HasRoomFor};
ghost use Rattle.shard_store.specs.Shelves.{store_at, KeepsStores};
ghost use Rattle.shard_store.specs.Stored.{told_in};
ghost use Rattle.shard_store.specs.Told.{IsAccepted, with_step, all_accepted, none_staged};
ghost use Rattle.stripe_map.specs.Sizes.{max_object};
ghost use Rattle.ec_positions.specs.Updates.{bytes_given};
ghost use Rattle.ec_pipeline.specs.Drafts.{drafted_step};
ghost use Rattle.ec_pipeline.specs.Shelving.{BecomesAt, AreTold, AreSame, TellsOn};
ghost use Rattle.ec_pipeline.specs.Staging.{HasStagingCause, IsMisfitAt};
ghost use Rattle.ec_pipeline.specs.Updates.{update_of};

use crate::draft::{Draft, draft_step};
use crate::{PrepareFault, Update};
use ec_code::Code;
use ec_words::{Geometry, Mask};
use shard_state::StepFault;
use shard_store::Shelf;
use std::alloc::Global;

/// What is staged on the slots of a set takes effect. It takes no memory.
pub fn accept_all(shelf: &mut Shelf, set: Mask)
    ensures value { AreTold (λ _. all_accepted) set.0 16 shelf.old shelf.new }
    ensures told { (s : ℕ) → TellsOn (store_at shelf.old s) (store_at shelf.new s) }
{
    for slot in 0..16u8 {
        if set.has(slot) {
            shelf.accept(slot);
        }
    }
}

/// What is staged on the slots of a set is forgotten. It takes no memory.
pub fn unstage_all(shelf: &mut Shelf, set: Mask)
    ensures { AreTold (λ _. none_staged) set.0 16 shelf.old shelf.new }
{
    for slot in 0..16u8 {
        if set.has(slot) {
            shelf.unstage(slot);
        }
    }
}

/// Stages what each slot of a set gets of an update, in ascending order. After `Err` it is staged on some of the first slots.
fn stage_all(
    alloc: Global,
    shelf: &mut Shelf,
    code: &dyn Code,
    g: Geometry,
    set: Mask,
    draft: &Draft,
    update: &Update,
) -> Result<(), PrepareFault>
    requires same_k { g.k ≡ (meaning code.now).k }
    requires below { LiesBelow (meaning code.now).n set.0 }
    requires window { length draft.now.window.items ≤ max_object }
    requires bytes { length (bytes_given (update_of update.now)) ≤ max_object }
    requires room { (s : ℕ) → HasPosition set.0 s
        → IfSome (store_at shelf.old s) (HasRoomFor (drafted_step (meaning code.now) g.unit s draft.now (update_of update.now))) }
    ensures ok { OnOk result (AreTold (λ s t. with_step t (drafted_step (meaning code.now) g.unit s draft.now (update_of update.now)))
        set.0 16 shelf.old shelf.new) }
    ensures faults { IfErr result (HasStagingCause set.0 (λ s. drafted_step (meaning code.now) g.unit s draft.now (update_of update.now)) shelf.old) }
    ensures some { OnErr result ((b : ℕ) × (b ≤ 16)
        × AreTold (λ s t. with_step t (drafted_step (meaning code.now) g.unit s draft.now (update_of update.now))) set.0 b shelf.old shelf.new) }
{
    for slot in 0..16u8 {
        if set.has(slot) {
            stage_slot(alloc, shelf, code, g, draft, update, slot)?;
        }
    }
    Ok(())
}

// Stages what a slot gets of an update.
fn stage_slot(
    alloc: Global,
    shelf: &mut Shelf,
    code: &dyn Code,
    g: Geometry,
    draft: &Draft,
    update: &Update,
    slot: u8,
) -> Result<(), PrepareFault>
    requires same_k { g.k ≡ (meaning code.now).k }
    requires slot { slot < (meaning code.now).n }
    requires few { slot < 16 }
    requires window { length draft.now.window.items ≤ max_object }
    requires bytes { length (bytes_given (update_of update.now)) ≤ max_object }
    requires room { IfSome (store_at shelf.old slot) (HasRoomFor (drafted_step (meaning code.now) g.unit slot draft.now (update_of update.now))) }
    ensures ok { OnOk result (BecomesAt (λ t. with_step t (drafted_step (meaning code.now) g.unit slot draft.now (update_of update.now)))
        (store_at shelf.old slot) (store_at shelf.new slot)) }
    ensures faults { IfErr result (λ fault. (fault ≡ PrepareFault.NoMemory) ⊎ ((fault ≡ PrepareFault.Slot slot)
        × IsMisfitAt (store_at shelf.old slot) (drafted_step (meaning code.now) g.unit slot draft.now (update_of update.now)))) }
    ensures unchanged { OnErr result (store_at shelf.new slot ≡ store_at shelf.old slot) }
    ensures others { KeepsStores shelf.old shelf.new slot }
{
    let step = draft_step(alloc, code, g, draft, update, slot)?;
    match shelf.stage(slot, step) {
        Ok(()) => Ok(()),
        Err(StepFault::Misfit) => Err(PrepareFault::Slot { slot }),
        Err(StepFault::NoMemory) => Err(PrepareFault::NoMemory),
    }
}

/// Makes an update on each slot of a set, or leaves all stores as they were.
pub fn change_all(
    alloc: Global,
    shelf: &mut Shelf,
    code: &dyn Code,
    g: Geometry,
    set: Mask,
    draft: &Draft,
    update: &Update,
) -> Result<(), PrepareFault>
    requires same_k { g.k ≡ (meaning code.now).k }
    requires below { LiesBelow (meaning code.now).n set.0 }
    requires window { length draft.now.window.items ≤ max_object }
    requires bytes { length (bytes_given (update_of update.now)) ≤ max_object }
    requires accepted { (s : ℕ) → HasPosition set.0 s → IfSome (store_at shelf.old s) (λ store. IsAccepted (told_in store)) }
    requires room { (s : ℕ) → HasPosition set.0 s
        → IfSome (store_at shelf.old s) (HasRoomFor (drafted_step (meaning code.now) g.unit s draft.now (update_of update.now))) }
    ensures ok { OnOk result (AreTold
        (λ s t. all_accepted (with_step t (drafted_step (meaning code.now) g.unit s draft.now (update_of update.now)))) set.0 16 shelf.old shelf.new) }
    ensures told { OnOk result ((s : ℕ) → TellsOn (store_at shelf.old s) (store_at shelf.new s)) }
    ensures faults { IfErr result (HasStagingCause set.0 (λ s. drafted_step (meaning code.now) g.unit s draft.now (update_of update.now)) shelf.old) }
    ensures unchanged { OnErr result (AreSame shelf.old shelf.new) }
{
    match stage_all(alloc, shelf, code, g, set, draft, update) {
        Ok(()) => {
            accept_all(shelf, set);
            Ok(())
        }
        Err(fault) => {
            unstage_all(shelf, set);
            Err(fault)
        }
    }
}
