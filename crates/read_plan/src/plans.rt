//! The least set of positions to read.
ghost use Rattle.std.specs.Prelude.{◌≡◌, ◌↔◌, Some, IfSome, IsNone};
ghost use Rattle.ec_model.specs.Codes.{LiesBelow, Decides};
ghost use Rattle.read_plan.specs.Plans.{LiesIn, IsLeastPlan};

use crate::search::least;
use crate::sets::lies_in;
use crate::tables::table;
use ec_code::{Code, decides};
use ec_words::Mask;

/// The wanted positions if they are available, else the least set of available positions that decides them.
pub fn plan(code: &dyn Code, avail: Mask, wanted: Mask) -> Option<Mask>
    requires avail { LiesBelow (meaning code.now).n avail.0 }
    requires wanted { LiesBelow (meaning code.now).n wanted.0 }
    ensures some { IfSome result (λ set. LiesIn set.0 avail.0 × Decides (meaning code.now) set.0 wanted.0) }
    ensures below { IfSome result (λ set. LiesBelow (meaning code.now).n set.0) }
    ensures least { (LiesIn wanted.0 avail.0 → ⊥)
        → IfSome result (λ set. IsLeastPlan (meaning code.now) avail.0 wanted.0 set.0) }
    ensures itself { LiesIn wanted.0 avail.0 → result ≡ Some wanted }
    ensures none { IsNone result ↔ (Decides (meaning code.now) avail.0 wanted.0 → ⊥) }
{
    if lies_in(wanted, avail) {
        Some(wanted)
    } else if decides(code, avail, wanted) {
        least(&table(code), avail, wanted)
    } else {
        None
    }
}
