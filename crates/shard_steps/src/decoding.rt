//! Steps from bytes.
ghost use Rattle.std.specs.Prelude.{◌≡◌, ◌++◌, ◌∷◌, [], IfOk, IfErr, OnOk, Some, None, Err};
ghost use Rattle.shard_model.specs.StepBytes.{AreSteps};
ghost use Rattle.shard_model.specs.StepReading.{read_step};
ghost use Rattle.shard_steps.specs.Faults.{SaysOf};
ghost use Rattle.shard_steps.specs.StepMeanings.{step_of};

use crate::fault::{StepsFault, Unread};
use crate::kinds::read_step;
use crate::reading::StepReader;
use crate::step::Step;
use crate::steps::Steps;
use std::alloc::Global;

/// The steps that a text spells, one after another. No bytes are no steps.
pub fn decode_steps(alloc: Global, text: &[u8]) -> Result<Steps, StepsFault>
    ensures value { IfOk result (AreSteps text.now) }
    ensures bad_step { IfErr result (SaysOf text.now) }
{
    let mut reader = StepReader::new(alloc, text);
    let mut list = Vec::new(alloc);
    while !reader.rest().is_empty() {
        let at = text.len() - reader.rest().len();
        match next_step(&mut reader, &mut list) {
            Ok(()) => {}
            Err(Unread::NoStep) => return Err(StepsFault::BadStep { at }),
            Err(Unread::NoMemory) => return Err(StepsFault::NoMemory),
        }
    }
    Ok(Steps::of(list))
}

/// Reads the next step.
fn next_step(reader: &mut StepReader<'_>, list: &mut Vec<Step>) -> Result<(), Unread>
    ensures ok { OnOk result ((step : Step) × (read_step reader.old ≡ Some (step_of step, reader.new)) × (list.new.items ≡ list.old.items ++ step ∷ [])) }
    ensures no_step { result ≡ Err Unread.NoStep → read_step reader.old ≡ None }
{
    let step = read_step(reader)?;
    match list.push(step) {
        Ok(()) => Ok(()),
        Err(_) => Err(Unread::NoMemory),
    }
}
