//! Plans for one code, asked for again and again.
ghost use Rattle.std.specs.Prelude.{◌≡◌, ◌↔◌, ◌≤◌, Some, IfOk, IfSome, IsNone};
ghost use Rattle.ec_model.specs.Codes.{CodeRows, LiesBelow, Decides};
ghost use Rattle.read_plan.specs.Plans.{LiesIn, IsLeastPlan};
ghost use Rattle.read_plan.specs.Planners.{Kept, FitsCode};

use crate::plan;
use ec_code::Code;
use ec_words::{Mask, NoMemory};
use std::alloc::Global;
use std::marker::Model;

/// Answers what [`plan`] answers. It is for one code: for another code make a new planner.
#[derive(Drop)]
pub struct Planner {
    entries: usize,
}

impl Model for Planner {
    ghost Value = { Kept };

    ghost view = { λ planner. record { entries = planner.entries } };

    ghost inverse = { λ kept. record { entries = kept.entries } };
}

impl Planner {
    /// A planner with room for this many answers.
    pub fn new(_alloc: Global, entries: usize) -> Result<Planner, NoMemory>
        requires { 1 ≤ entries }
        ensures value { IfOk result (λ planner. planner.entries ≡ entries) }
        ensures fits { IfOk result (λ planner. (code : CodeRows) → FitsCode planner code) }
    {
        Ok(Planner { entries })
    }

    /// The wanted positions if they are available, else the least set of available positions that decides them.
    pub fn plan(&mut self, code: &dyn Code, avail: Mask, wanted: Mask) -> Option<Mask>
        requires fits { FitsCode self.old (meaning code.now) }
        requires avail { LiesBelow (meaning code.now).n avail.0 }
        requires wanted { LiesBelow (meaning code.now).n wanted.0 }
        ensures some { IfSome result (λ set. LiesIn set.0 avail.0 × Decides (meaning code.now) set.0 wanted.0) }
        ensures below { IfSome result (λ set. LiesBelow (meaning code.now).n set.0) }
        ensures least { (LiesIn wanted.0 avail.0 → ⊥)
            → IfSome result (λ set. IsLeastPlan (meaning code.now) avail.0 wanted.0 set.0) }
        ensures itself { LiesIn wanted.0 avail.0 → result ≡ Some wanted }
        ensures none { IsNone result ↔ (Decides (meaning code.now) avail.0 wanted.0 → ⊥) }
        ensures fits_still { FitsCode self.new (meaning code.now) }
        ensures kept { self.new.entries ≡ self.old.entries }
    {
        plan(code, avail, wanted)
    }
}
