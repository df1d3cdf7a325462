//! What the first update of a batch stages before itself.
ghost use Rattle.std.specs.Prelude.{◌≡◌, ◌<◌, ◌≤◌, ◌↔◌, length, Err, IfSome, IsSomeAnd, OnOk, OnErr};
ghost use Rattle.shard_model.specs.StepBytes.{steps_bytes};
ghost use Rattle.shard_store.specs.OnSlot.{HasRoomFor};
ghost use Rattle.shard_store.specs.Shelves.{store_at, KeepsStores};
ghost use Rattle.shard_steps.specs.StepMeanings.{step_of};
ghost use Rattle.ec_pipeline.specs.Settling.{firming, trimming, steps_if, with_steps};
ghost use Rattle.ec_pipeline.specs.Shelving.{BecomesAt};
ghost use Rattle.ec_pipeline.specs.Staging.{IsMisfitAt};

use ec_words::Version;
use shard_state::{ShardState, StepFault};
use shard_steps::Step;
use shard_store::Shelf;

/// The entries that stay in a log.
const KEPT: usize = 512;

/// The step that makes a version firm, if another is.
pub fn firm_step(state: &ShardState, committed: &Version) -> Option<Step>
    ensures value { steps_if result ≡ firming committed.now state.now }
    ensures short { length (steps_bytes (steps_if result)) ≤ 13 }
{
    if state.firm().is_same(committed) {
        None
    } else {
        Some(Step::Firm(*committed))
    }
}

/// The step that leaves the newest entries of a log, if it has more.
pub fn trim_step(state: &ShardState) -> Option<Step>
    ensures value { steps_if result ≡ trimming state.now }
    ensures short { length (steps_bytes (steps_if result)) ≤ 13 }
{
    let len = state.log_len();
    if len <= KEPT {
        return None;
    }
    match state.logged(len - KEPT - 1) {
        None => unreachable!(),
        Some(what) => Some(Step::Trim(what.version)),
    }
}

/// Stages a step on a slot, if there is one.
pub fn stage_if(shelf: &mut Shelf, slot: u8, step: Option<Step>) -> Result<(), StepFault>
    requires slot { slot < 16 }
    requires room { IfSome step (λ s. IfSome (store_at shelf.old slot) (HasRoomFor (step_of s))) }
    ensures ok { OnOk result (BecomesAt (λ t. with_steps t (steps_if step)) (store_at shelf.old slot) (store_at shelf.new slot)) }
    ensures misfit { (result ≡ Err StepFault.Misfit) ↔ IsSomeAnd step (λ s. IsMisfitAt (store_at shelf.old slot) (step_of s)) }
    ensures unchanged { OnErr result (store_at shelf.new slot ≡ store_at shelf.old slot) }
    ensures others { KeepsStores shelf.old shelf.new slot }
{
    match step {
        None => Ok(()),
        Some(step) => shelf.stage(slot, step),
    }
}
