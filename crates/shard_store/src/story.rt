//! What a store was told, and the states that it leads to.
ghost use Rattle.std.specs.Prelude.{◌≡◌, ◌≤◌, ◌<◌, ◌↔◌, ◌∷◌, [], length, map, Err, true, false, IsTrue, IfOk, OnOk, OnErr};
ghost use Rattle.shard_model.specs.States.{fits};
ghost use Rattle.shard_model.specs.StepBytes.{step_bytes, steps_bytes};
ghost use Rattle.shard_steps.specs.StepMeanings.{step_of};
ghost use Rattle.slot_journal.specs.Text.{max_body};
ghost use Rattle.shard_store.specs.Seconds.{IsAhead};
ghost use Rattle.shard_store.specs.Stories.{fresh_shard, shard_after, AreFitting, first_steps};
ghost use Rattle.shard_store.specs.Told.{IsAccepted, IsReplayed, IsSound, staged_shard, unflushed_bytes, all_told, with_step, all_accepted, none_staged, all_flushed};

use crate::spelling::text_of;
use ec_words::{Geometry, NoMemory};
use shard_state::{ShardState, StepFault};
use shard_steps::Step;
use std::alloc::Global;
use std::marker::Model;
use std::mem;

/// The state after the accepted steps, and a second one that runs ahead of it over the staged steps. The second is made when
/// a step is first staged. Once those steps are accepted the two change places, and the one that is behind then does the same
/// steps when the next is staged. No other steps are kept; `body` has the bytes of those that are in no record.
#[derive(Drop)]
pub(crate) struct Story {
    alloc: Global,
    geometry: Geometry,
    state: ShardState,
    ahead: Option<ShardState>,
    behind: Vec<Step>,
    staged: Vec<Step>,
    body: Vec<u8>,
    body_len: usize,
}

impl Model for Story {
    ghost use Rattle.shard_store.specs.Told.{Told};

    ghost Value = { Told };

    ghost use Rattle.shard_store.specs.Codes.{told_code};

    ghost coded = { told_code };

    ghost use Rattle.shard_store.specs.Inner.{told_of, IsKept};

    ghost view = { told_of };

    ghost invariant = { IsKept };
}

impl Story {
    /// Of a state, all steps of which stand in records. It takes no memory.
    pub fn of(alloc: Global, g: Geometry, state: ShardState) -> Story
        requires { IsReplayed (record { k = g.k; unit = g.unit }) state }
        ensures { result ≡ all_told (record { k = g.k; unit = g.unit }) state }
    {
        Story {
            alloc,
            geometry: g,
            state,
            ahead: None,
            behind: Vec::new(alloc),
            staged: Vec::new(alloc),
            body: Vec::new(alloc),
            body_len: 0,
        }
    }

    /// The state after the accepted steps.
    pub fn state(&self) -> &ShardState
        ensures value { result.now ≡ self.now.shard }
        ensures sound { IsSound self.now }
    {
        &self.state
    }

    /// The bytes of the steps that are in no record.
    pub fn body(&self) -> &[u8]
        ensures { result.now ≡ unflushed_bytes self.now }
    {
        self.body.as_slice()
    }

    /// Whether each accepted step stands in a record.
    pub fn is_flushed(&self) -> bool
        ensures { IsTrue result ↔ (self.now.pending ≡ []) }
    {
        self.body_len == 0
    }

    /// How many bytes the accepted steps have that are in no record.
    pub fn pending(&self) -> usize
        ensures { result ≡ length self.now.pending }
    {
        self.body_len
    }

    /// Whether a step fits behind the staged ones.
    fn is_next(&self, step: &Step) -> bool
        ensures { result ≡ fits (staged_shard self.now).geometry (staged_shard self.now).state (step_of step.now) }
    {
        if self.staged.is_empty() {
            return self.state.fits(step);
        }
        match &self.ahead {
            None => unreachable!(),
            Some(ahead) => ahead.fits(step),
        }
    }

    /// Stages a step that fits behind the staged ones, or leaves all as it was.
    pub fn stage(&mut self, step: Step) -> Result<(), StepFault>
        requires { length (step_bytes (step_of step)) ≤ max_body }
        ensures ok { OnOk result (self.new ≡ with_step self.old (step_of step)) }
        ensures misfit { (result ≡ Err StepFault.Misfit)
            ↔ (fits (staged_shard self.old).geometry (staged_shard self.old).state (step_of step) ≡ false) }
        ensures unchanged { OnErr result (self.new ≡ self.old) }
    {
        if !self.is_next(&step) {
            return Err(StepFault::Misfit);
        }
        match self.stage_next(step) {
            Ok(()) => Ok(()),
            Err(_) => Err(StepFault::NoMemory),
        }
    }

    /// Stages a step that fits.
    fn stage_next(&mut self, step: Step) -> Result<(), NoMemory>
        requires short { length (step_bytes (step_of step)) ≤ max_body }
        requires fit { fits (staged_shard self.old).geometry (staged_shard self.old).state (step_of step) ≡ true }
        ensures ok { OnOk result (self.new ≡ with_step self.old (step_of step)) }
        ensures unchanged { OnErr result (self.new ≡ self.old) }
    {
        let text = text_of(self.alloc, &step)?;
        self.staged.reserve(1)?;
        self.body.reserve(text.as_slice().len())?;
        let before = self.ahead.take();
        let level = second(self.alloc, &self.state, before, &self.behind, &self.staged);
        self.behind.clear();
        let mut ahead = level?;
        let done = ahead.apply(&step);
        self.ahead = Some(ahead);
        match done {
            Ok(()) => {}
            Err(StepFault::Misfit) => unreachable!(),
            Err(StepFault::NoMemory) => return Err(NoMemory),
        }
        match self.staged.push(step) {
            Ok(()) => {}
            Err(_) => unreachable!(),
        }
        match self.body.extend_from_slice(text.as_slice()) {
            Ok(()) => {}
            Err(_) => unreachable!(),
        }
        Ok(())
    }

    /// The staged steps take effect. It takes no memory.
    pub fn accept(&mut self)
        ensures value { self.new ≡ all_accepted self.old }
        ensures sound { IsSound self.old }
    {
        if self.staged.is_empty() {
            return;
        }
        match self.ahead.take() {
            None => unreachable!(),
            Some(ahead) => self.ahead = Some(mem::replace(&mut self.state, ahead)),
        }
        mem::swap(&mut self.behind, &mut self.staged);
        self.body_len = self.body.len();
    }

    /// Forgets the staged steps. It takes no memory.
    pub fn unstage(&mut self)
        ensures { self.new ≡ none_staged self.old }
    {
        if self.staged.is_empty() {
            return;
        }
        self.ahead = None;
        self.staged.clear();
        self.body.truncate(self.body_len);
    }

    /// The accepted steps stand in a record. It takes no memory.
    pub fn flushed(&mut self)
        requires { IsAccepted self.old }
        ensures { self.new ≡ all_flushed self.old }
    {
        self.body.clear();
        self.body_len = 0;
    }
}

/// The story of a new store: one step, accepted and in no record.
pub(crate) fn first_story(alloc: Global, g: Geometry, partial: bool) -> Result<Story, NoMemory>
    ensures { IfOk result (λ story. story ≡ record {
      geometry = record { k = g.k; unit = g.unit };
      shard = shard_after (fresh_shard (record { k = g.k; unit = g.unit })) (first_steps partial);
      pending = steps_bytes (first_steps partial);
      staged = [];
    }) }
{
    let step = if partial {
        Step::Partial
    } else {
        Step::Started(1)
    };
    let mut story = Story::of(alloc, g, ShardState::fresh(alloc, g));
    match story.stage(step) {
        Ok(()) => {}
        Err(StepFault::Misfit) => unreachable!(),
        Err(StepFault::NoMemory) => return Err(NoMemory),
    }
    story.accept();
    Ok(story)
}

/// The second state level with the first and the staged steps: a copy if there is no second state yet, and else it does the steps
/// that it lacks.
fn second(
    alloc: Global,
    state: &ShardState,
    ahead: Option<ShardState>,
    behind: &[Step],
    staged: &[Step],
) -> Result<ShardState, NoMemory>
    requires { IsAhead state.now ahead (map step_of behind.now) (map step_of staged.now) }
    ensures ok { IfOk result (λ level. level ≡ shard_after state.now (map step_of staged.now)) }
    ensures failed { OnErr result (map step_of staged.now ≡ []) }
{
    match ahead {
        None => state.copy(alloc),
        Some(ahead) => catch_up(ahead, behind),
    }
}

/// A state does steps, each of which fits.
fn catch_up(ahead: ShardState, steps: &[Step]) -> Result<ShardState, NoMemory>
    requires { AreFitting ahead (map step_of steps.now) }
    ensures ok { IfOk result (λ level. level ≡ shard_after ahead (map step_of steps.now)) }
    ensures failed { OnErr result (0 < length steps.now) }
{
    let mut level = ahead;
    for i in 0..steps.len() {
        match level.apply(&steps[i]) {
            Ok(()) => {}
            Err(StepFault::Misfit) => unreachable!(),
            Err(StepFault::NoMemory) => return Err(NoMemory),
        }
    }
    Ok(level)
}
