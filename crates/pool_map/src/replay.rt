//! Steps, done on the intervals and marks of a map.
ghost use Rattle.std.specs.Prelude.{◌≡◌, ◌⊎◌, ◌≤◌, ◌+◌, [], ℕ, List, true, false, IfErr, OnOk, Err, not, is_some};
ghost use Rattle.map_model.specs.States.{MapState, last_of, last_epoch, fits, may_join, with_mark, is_inside, state_after, new_state};
ghost use Rattle.pool_map.specs.Maps.{Leads, LeadAll, map_format};
ghost use Rattle.pool_map.specs.Meanings.{step_of, state_of};
ghost use Rattle.map_model.specs.Steps as steps;

use crate::MapFault;
use crate::reading::StepReader;
use crate::state::State;
use crate::step::Step;
use ec_words::{Bytes, Interval, Intervals, Mask, Version};
use std::alloc::Global;

/// The last of some intervals.
fn last_of(intervals: &[Interval]) -> Option<Interval>
    ensures { result ≡ last_of intervals.now }
{
    intervals.last().copied()
}

/// The last epoch that began, or 0.
pub(crate) fn last_epoch(intervals: &[Interval]) -> u32
    ensures { result ≡ last_epoch intervals.now }
{
    match last_of(intervals) {
        Some(last) => last.epoch,
        None => 0,
    }
}

/// Whether the last interval has this epoch, is not alive, and has all these slots up, and there is at least one of them.
fn may_join(epoch: u32, joined: Mask, last: Option<Interval>) -> bool
    ensures { result ≡ may_join epoch joined.0 last }
{
    match last {
        Some(last) => {
            if last.epoch == epoch {
                is_unjoined(last.alive) && (is_inside(joined, last.up) && joined.0 > 0)
            } else {
                false
            }
        }
        None => false,
    }
}

fn is_unjoined(alive: Option<(Mask, Version)>) -> bool
    ensures { result ≡ not (is_some alive) }
{
    match alive {
        Some(_) => false,
        None => true,
    }
}

fn is_inside(mask: Mask, other: Mask) -> bool
    ensures { result ≡ is_inside mask.0 other.0 }
{
    mask.0 & other.0 == mask.0
}

/// A mask with or without a position.
pub(crate) fn with_mark(slot: u8, down: u8, marked: Mask) -> Mask
    requires { slot ≤ 15 }
    ensures { result.0 ≡ with_mark slot down marked.0 }
{
    let bit = 1u16 << slot;
    let with = marked.0 | bit;
    if down == 1 {
        Mask(with)
    } else {
        Mask(with ^ bit)
    }
}

impl State {
    pub fn new(alloc: Global, n: u8) -> State
        requires { n ≤ 16 }
        ensures n { result.n ≡ n }
        ensures new { state_of result ≡ new_state map_format }
    {
        State {
            n,
            intervals: Intervals::new(alloc),
            marked: Mask(0),
        }
    }

    /// Whether a step fits behind these.
    pub fn fits(&self, step: &Step) -> bool
        ensures { result ≡ fits self.now.n (state_of self.now) (step_of step.now) }
    {
        match step {
            Step::Profile(_) => false,
            Step::Begin { epoch, up } => self.may_begin(*epoch, *up),
            Step::Alive { epoch, joined, .. } => {
                may_join(*epoch, *joined, last_of(self.intervals.as_slice()))
            }
            Step::Mark { slot, down } => *slot < self.n && *down <= 1,
        }
    }

    /// Whether an interval may begin.
    fn may_begin(&self, epoch: u32, up: Mask) -> bool
        ensures { result ≡ fits self.now.n (state_of self.now) (steps.Begin epoch up.0) }
    {
        let last = last_epoch(self.intervals.as_slice());
        u64::from(epoch) == u64::from(last) + 1 && epoch < u32::MAX && up.lies_below(self.n)
    }

    /// Adds a step that fits.
    fn add(&mut self, step: &Step) -> Result<(), MapFault>
        requires { fits self.old.n (state_of self.old) (step_of step.now) ≡ true }
        ensures ok { OnOk result (state_of self.new ≡ state_after (state_of self.old) (step_of step.now)) }
        ensures n { self.new.n ≡ self.old.n }
        ensures plain { IfErr result (λ fault. fault ≡ MapFault.NoMemory) }
    {
        match step {
            Step::Profile(_) => {}
            Step::Begin { epoch, up } => self.intervals.push(Interval {
                epoch: *epoch,
                up: *up,
                alive: None,
            })?,
            Step::Alive { joined, base, .. } => self.intervals.set_last_alive(*joined, *base),
            Step::Mark { slot, down } => {
                self.marked = with_mark(*slot, *down, self.marked);
            }
        }
        Ok(())
    }

    /// Adds a step, if it fits.
    fn apply(&mut self, step: &Step) -> Result<(), MapFault>
        ensures fit { OnOk result (fits self.old.n (state_of self.old) (step_of step.now) ≡ true) }
        ensures ok { OnOk result (state_of self.new ≡ state_after (state_of self.old) (step_of step.now)) }
        ensures bad { result ≡ Err MapFault.BadMap → fits self.old.n (state_of self.old) (step_of step.now) ≡ false }
        ensures n { self.new.n ≡ self.old.n }
        ensures plain { IfErr result (λ fault. (fault ≡ MapFault.BadMap) ⊎ (fault ≡ MapFault.NoMemory)) }
    {
        if !self.fits(step) {
            return Err(MapFault::BadMap);
        }
        self.add(step)
    }

    /// Adds the steps of a body.
    pub fn add_body(&mut self, alloc: Global, body: &[u8]) -> Result<(), MapFault>
        ensures ok { OnOk result (Leads self.old.n (state_of self.old) body.now (state_of self.new)) }
        ensures only { OnOk result ((other : MapState) → Leads self.old.n (state_of self.old) body.now other
            → other ≡ state_of self.new) }
        ensures bad { result ≡ Err MapFault.BadMap → (other : MapState) → Leads self.old.n (state_of self.old) body.now other → ⊥ }
        ensures n { self.new.n ≡ self.old.n }
        ensures plain { IfErr result (λ fault. (fault ≡ MapFault.BadMap) ⊎ (fault ≡ MapFault.NoMemory)) }
    {
        let mut reader = StepReader::new(alloc, body);
        while !reader.rest().is_empty() {
            let step = reader.step()?;
            self.apply(&step)?;
        }
        Ok(())
    }

    /// Adds the steps of some bodies.
    pub fn add_bodies(&mut self, alloc: Global, bodies: &[Bytes]) -> Result<(), MapFault>
        ensures ok { OnOk result (LeadAll self.old.n (state_of self.old) bodies.now (state_of self.new)) }
        ensures only { OnOk result ((other : MapState) → LeadAll self.old.n (state_of self.old) bodies.now other
            → other ≡ state_of self.new) }
        ensures bad { result ≡ Err MapFault.BadMap → (other : MapState) → LeadAll self.old.n (state_of self.old) bodies.now other → ⊥ }
        ensures n { self.new.n ≡ self.old.n }
        ensures plain { IfErr result (λ fault. (fault ≡ MapFault.BadMap) ⊎ (fault ≡ MapFault.NoMemory)) }
    {
        for i in 0..bodies.len() {
            self.add_body(alloc, bodies[i].as_slice())?;
        }
        Ok(())
    }
}
