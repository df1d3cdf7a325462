//! The choice.
ghost use Rattle.std.specs.Prelude.{◌↔◌, IsOk, IfOk, IfErr};
ghost use Rattle.auth_log.specs.Choice.{IsSufficient, IsChosen, IsBlocked, JoinedLieBelow, said_in};

use crate::decided::least_undecided;
use crate::{Info, Survey};
use ec_code::Code;
use ec_words::{Intervals, Mask, Version};
use thiserror::Error;

/// The authoritative version, and the greatest epoch that an eligible slot started.
#[derive(Clone, Copy, Debug, PartialEq, Eq)]
pub struct Choice {
    pub epoch: u32,
    pub version: Version,
}

/// The least epoch of an interval that has too few eligible slots left, and these slots.
#[derive(Clone, Copy, Debug, PartialEq, Eq, Error)]
#[error("too few of the slots {up} joined epoch {epoch}")]
pub struct Blocked {
    pub epoch: u32,
    pub up: Mask,
}

/// The choice among the slots that are up, by the intervals that are kept and what the slots' shards say.
pub fn choose(
    intervals: &Intervals,
    infos: &[Option<Info>; 16],
    up: Mask,
    code: &dyn Code,
) -> Result<Choice, Blocked>
    requires { JoinedLieBelow (meaning code.now).n intervals.now }
    ensures choice { IfOk result (λ choice. IsChosen (meaning code.now)
        (record { kept = intervals.now; said = said_in infos.now; up = up.0 }) choice.epoch choice.version) }
    ensures sufficient { IsOk result
        ↔ IsSufficient (meaning code.now) (record { kept = intervals.now; said = said_in infos.now; up = up.0 }) }
    ensures blocked { IfErr result (λ blocked. IsBlocked (meaning code.now)
        (record { kept = intervals.now; said = said_in infos.now; up = up.0 }) blocked.epoch blocked.up.0) }
{
    let survey = Survey::of(intervals, infos, up);
    match least_undecided(intervals.as_slice(), code, survey.eligible, survey.epoch) {
        Some(epoch) => Err(Blocked {
            epoch,
            up: survey.eligible,
        }),
        None => Ok(Choice {
            epoch: survey.epoch,
            version: survey.version,
        }),
    }
}
