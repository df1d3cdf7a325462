//! Which slots are eligible.
ghost use Rattle.std.specs.Prelude.{◌≡◌, ◌↔◌, ◌<◌, ◌&&◌, ◌==◌, IsTrue, IfSome, IfNone, is_some};
ghost use Rattle.auth_log.specs.Choice.{Info as Said, IsEligible, HasAll, said_in};
ghost use Rattle.auth_log.specs.Inner.{IsWholeAndStarted, IsSaid};

use crate::Info;
use ec_words::{Interval, Mask};

/// The slots that are eligible.
pub fn eligible(intervals: &[Interval], infos: &[Option<Info>; 16], up: Mask) -> Mask
    ensures { HasAll (IsEligible (record { kept = intervals.now; said = said_in infos.now; up = up.0 })) result.0 }
{
    let mut eligible = 0u16;
    for p in 0..16u8 {
        if is_eligible(intervals, infos, up, p) {
            eligible |= 1u16 << p;
        }
    }
    Mask(eligible)
}

/// Whether one slot is eligible.
fn is_eligible(intervals: &[Interval], infos: &[Option<Info>; 16], up: Mask, p: u8) -> bool
    requires { p < 16 }
    ensures { IsTrue result
        ↔ ((info : Said) × IsEligible (record { kept = intervals.now; said = said_in infos.now; up = up.0 }) p info) }
{
    match said(infos, up, p) {
        Some(info) => is_fit(intervals, &info),
        None => false,
    }
}

/// What the shard of a slot of a set says.
pub fn said(infos: &[Option<Info>; 16], set: Mask, p: u8) -> Option<Info>
    requires { p < 16 }
    ensures some { IfSome result (λ info. IsSaid (said_in infos.now) set.0 p info) }
    ensures none { IfNone result ((info : Said) → IsSaid (said_in infos.now) set.0 p info → ⊥) }
{
    if set.has(p) { infos[p as usize] } else { None }
}

/// Whether a shard is whole and last started an interval that is kept and went alive.
fn is_fit(intervals: &[Interval], info: &Info) -> bool
    ensures { IsTrue result ↔ IsWholeAndStarted intervals.now info.now }
{
    !info.partial && intervals.iter().any(|i| is_alive_in(i, info.les))
}

/// Whether an interval went alive in this epoch.
fn is_alive_in(interval: &Interval, epoch: u32) -> bool
    ensures { result ≡ (interval.now.epoch == epoch && is_some interval.now.alive) }
{
    interval.epoch == epoch && interval.alive.is_some()
}
