//! The steps of the records that a slot holds.
ghost use Rattle.std.specs.Prelude.{◌≡◌, ◌⊎◌, ◌<◌, ◌+◌, ◌-◌, ◌^◌, ℕ, List, length, min, Err, map, IfOk, OnOk, IfErr};
ghost use Rattle.shard_model.specs.StepBytes.{AreSteps};
ghost use Rattle.shard_model.specs.Steps.{Step as Meant};
ghost use Rattle.shard_steps.specs.StepMeanings.{step_of};
ghost use Rattle.slot_journal.specs.Journal.{gate_of};
ghost use Rattle.shard_store.specs.Stories.{fresh_shard, shard_after, AreFitting, AreTold, IsBadAmong, IsBadBody};
ghost use Rattle.shard_store.specs.declared.fault.StoreFault.TheVariants.{BadSlot, NoMemory as OutOfMemory};

use crate::StoreFault;
use ec_words::{Bytes, Geometry};
use shard_state::{ShardState, StepFault};
use shard_steps::{Step, StepsFault, decode_steps};
use slot_journal::{HEADER_LEN, Journal};
use std::alloc::Global;

/// The state that the steps of all bodies lead to. A body is let go as soon as its steps are done. A refusal is at the gate of
/// the first record that adds none.
pub(crate) fn replay_bodies(
    alloc: Global,
    g: Geometry,
    bodies: Vec<Bytes>,
) -> Result<ShardState, StoreFault>
    ensures ok { IfOk result (λ state. (steps : List Meant) × AreTold (record { k = g.k; unit = g.unit }) bodies.items steps
        × (state ≡ shard_after (fresh_shard (record { k = g.k; unit = g.unit })) steps)) }
    ensures bad { (at : ℕ) → result ≡ Err (StoreFault.BadSlot at) → IsBadAmong (record { k = g.k; unit = g.unit }) bodies.items at }
    ensures faults { IfErr result (λ fault. (fault ≡ OutOfMemory) ⊎ ((at : ℕ) × (fault ≡ BadSlot at))) }
{
    let mut state = ShardState::fresh(alloc, g);
    let mut at = HEADER_LEN as u64;
    for body in bodies {
        match do_body(alloc, &mut state, body.as_slice()) {
            Ok(()) => {}
            Err(StepFault::Misfit) => return Err(StoreFault::BadSlot { at }),
            Err(StepFault::NoMemory) => return Err(StoreFault::NoMemory),
        }
        at = after_record(at, body.as_slice());
    }
    Ok(state)
}

/// The place behind a record with this body.
fn after_record(at: u64, body: &[u8]) -> u64
    ensures { result ≡ min (at + (5 + length body.now)) (2 ^ 64 - 1) }
{
    at.saturating_add(5).saturating_add(body.len() as u64)
}

/// Does the steps of a record's body.
fn do_body(alloc: Global, state: &mut ShardState, body: &[u8]) -> Result<(), StepFault>
    ensures ok { OnOk result ((more : List Meant) × AreSteps body.now more
        × AreFitting state.old more × (state.new ≡ shard_after state.old more)) }
    ensures bad { result ≡ Err StepFault.Misfit → IsBadBody state.old body.now }
{
    match decode_steps(alloc, body) {
        Ok(steps) => do_steps(state, steps.into_vec()),
        Err(StepsFault::BadStep { .. }) => Err(StepFault::Misfit),
        Err(StepsFault::NoMemory) => Err(StepFault::NoMemory),
    }
}

/// Does steps, each of which has to fit the state after those before it.
fn do_steps(state: &mut ShardState, steps: Vec<Step>) -> Result<(), StepFault>
    ensures ok { OnOk result (state.new ≡ shard_after state.old (map step_of steps.items)) }
    ensures fit { OnOk result (AreFitting state.old (map step_of steps.items)) }
    ensures misfit { result ≡ Err StepFault.Misfit → AreFitting state.old (map step_of steps.items) → ⊥ }
{
    for step in steps {
        state.apply(&step)?;
    }
    Ok(())
}

/// A journal as it is. The place of its gate is a number of a word.
pub(crate) fn with_place(journal: Journal) -> Journal
    ensures same { result ≡ journal }
    ensures place { gate_of journal < 2 ^ 64 }
{
    journal
}
