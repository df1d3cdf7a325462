//! Which calls of a rig in memory fail, and how often each slot has failed.
ghost use Rattle.std.specs.Prelude.{◌≡◌, ◌≢◌, ◌≤◌, ◌↔◌, ◌∷◌, [], ◌++◌, ◌+◌, ◌-◌, ◌^◌, ℕ, Some, min, OnOk, OnErr, IsErr};
ghost use Rattle.rig_disk.specs.Faults.{HasCause, Rose};
ghost use Rattle.rig_disk.specs.FaultPlan.{IsDue, IsNewPlan, IsPlanAsBefore, one_less, plan_calls, plan_faults};

use crate::limits::COUNTED;
use crate::{Failed, PlannedFault};
use ec_words::NoMemory;
use std::alloc::Global;

/// How many calls each slot has had, and the output as number 17; how many of them have failed; which are to fail.
#[derive(Drop)]
pub struct FaultPlan {
    calls: [u64; COUNTED],
    faults: [u64; COUNTED],
    planned: Vec<PlannedFault>,
    left: Option<u64>,
}

impl FaultPlan {
    /// A plan with no call so far, no fault, and none to come.
    pub fn new(alloc: Global) -> FaultPlan
        ensures { IsNewPlan result }
    {
        FaultPlan {
            calls: [0; COUNTED],
            faults: [0; COUNTED],
            planned: Vec::new(alloc),
            left: None,
        }
    }

    /// Lets the `nth` further call on a slot fail, from 1.
    pub fn fail_at(&mut self, slot: u8, nth: u64) -> Result<(), NoMemory>
        ensures planned { OnOk result (self.new.planned.items ≡ self.old.planned.items
            ++ record { slot = slot; call = min (plan_calls self.old slot + nth) (2 ^ 64 - 1) } ∷ []) }
        ensures unchanged { OnErr result (self.new.planned.items ≡ self.old.planned.items) }
        ensures left { self.new.left ≡ self.old.left }
        ensures kept { IsPlanAsBefore self.old self.new }
    {
        let before = match self.calls.get(usize::from(slot)) {
            Some(calls) => *calls,
            None => 0,
        };
        let call = before.saturating_add(nth);
        self.planned.push(PlannedFault { slot, call })?;
        Ok(())
    }

    /// Lets the given number of further calls succeed, and all calls after them fail.
    pub fn stop_after(&mut self, calls: u64)
        ensures left { self.new.left ≡ Some calls }
        ensures planned { self.new.planned.items ≡ self.old.planned.items }
        ensures kept { IsPlanAsBefore self.old self.new }
    {
        self.left = Some(calls);
    }

    /// Counts a call on a slot, and fails if that call is to fail.
    pub fn begin(&mut self, slot: u8) -> Result<(), Failed>
        requires { slot ≤ 17 }
        ensures due { IsErr result ↔ IsDue self.old slot }
        ensures cause { HasCause (plan_faults self.old slot) (plan_faults self.new slot) result }
        ensures others { (s : ℕ) → s ≢ slot → plan_faults self.new s ≡ plan_faults self.old s }
        ensures planned { self.new.planned.items ≡ self.old.planned.items }
        ensures left { self.new.left ≡ one_less self.old.left }
        ensures counted { plan_calls self.new slot ≡ min (plan_calls self.old slot + 1) (2 ^ 64 - 1) }
        ensures other_calls { (s : ℕ) → s ≢ slot → plan_calls self.new s ≡ plan_calls self.old s }
    {
        let at = usize::from(slot);
        self.calls[at] = self.calls[at].saturating_add(1);
        let this = PlannedFault {
            slot,
            call: self.calls[at],
        };
        let due = self.left == Some(0) || self.planned.contains(&this);
        self.left = match self.left {
            Some(left) => Some(left.saturating_sub(1)),
            None => None,
        };
        if due {
            self.count_fault(slot);
            return Err(Failed);
        }
        Ok(())
    }

    /// Counts a fault of a slot.
    pub fn count_fault(&mut self, slot: u8)
        requires { slot ≤ 17 }
        ensures rose { Rose (plan_faults self.old slot) (plan_faults self.new slot) }
        ensures later { plan_faults self.old slot ≤ plan_faults self.new slot }
        ensures at_limit { plan_faults self.old slot ≡ 2 ^ 64 - 1
            → plan_faults self.new slot ≡ plan_faults self.old slot }
        ensures others { (s : ℕ) → s ≢ slot → plan_faults self.new s ≡ plan_faults self.old s }
        ensures planned { self.new.planned.items ≡ self.old.planned.items }
        ensures left { self.new.left ≡ self.old.left }
        ensures calls { (s : ℕ) → plan_calls self.new s ≡ plan_calls self.old s }
    {
        let at = usize::from(slot);
        self.faults[at] = self.faults[at].saturating_add(1);
    }
}
