//! The intervals whose eligible members do not decide all.
ghost use Rattle.std.specs.Prelude.{◌≡◌, ◌↔◌, ℕ, IsTrue, Some, length};
ghost use Rattle.ec_model.specs.Codes.{LiesBelow};
ghost use Rattle.ec_model.specs.Versions.{Version as Base};
ghost use Rattle.auth_log.specs.Choice.{DecidesAll, JoinedLieBelow};
ghost use Rattle.auth_log.specs.Inner.{IsDecided, IsLeastUndecided, earlier};

use ec_code::{Code, decides};
use ec_words::{Interval, Mask};

/// The least epoch of the intervals that went alive, from this epoch on, and whose eligible members do not decide all.
pub fn least_undecided(
    intervals: &[Interval],
    code: &dyn Code,
    eligible: Mask,
    epoch: u32,
) -> Option<u32>
    requires { JoinedLieBelow (meaning code.now).n intervals.now }
    ensures { IsLeastUndecided (meaning code.now) eligible.0 epoch intervals.now (length intervals.now) result }
{
    let mut least = None;
    for interval in intervals {
        if !is_decided(interval, code, eligible, epoch) {
            least = Some(earlier(least, interval.epoch));
        }
    }
    least
}

/// The lesser of two epochs.
fn earlier(least: Option<u32>, epoch: u32) -> u32
    ensures { result ≡ earlier least epoch }
{
    match least {
        Some(at) => u32::min(at, epoch),
        None => epoch,
    }
}

/// Whether an interval did not go alive, did so before this epoch, or has eligible members that decide all.
fn is_decided(interval: &Interval, code: &dyn Code, eligible: Mask, epoch: u32) -> bool
    requires { (joined : ℕ) (base : Base) → interval.now.alive ≡ Some (joined, base) → LiesBelow (meaning code.now).n joined }
    ensures { IsTrue result ↔ IsDecided (meaning code.now) eligible.0 epoch interval.now }
{
    match &interval.alive {
        Some((joined, _)) => {
            interval.epoch < epoch || decides_all(code, Mask(joined.0 & eligible.0))
        }
        None => true,
    }
}

/// Whether a set of positions decides every position.
pub fn decides_all(code: &dyn Code, from: Mask) -> bool
    requires { LiesBelow (meaning code.now).n from.0 }
    ensures { IsTrue result ↔ DecidesAll (meaning code.now) from.0 }
{
    decides(code, from, Mask::all_below(code.shape().n))
}
