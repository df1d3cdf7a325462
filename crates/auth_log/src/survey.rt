//! What the eligible slots say together.
ghost use Rattle.auth_log.specs.Choice.{IsSurvey, said_in};

use crate::Info;
use crate::eligible::eligible;
use crate::order::{greatest_epoch, least_head};
use ec_words::{Intervals, Mask, Version};
use std::marker::Model;

/// What the eligible slots say together, whether they are sufficient or not.
#[derive(Clone, Copy, Debug, PartialEq, Eq)]
pub struct Survey {
    pub eligible: Mask,
    /// The greatest epoch that they started, and 0 if no slot is eligible.
    pub epoch: u32,
    /// The least head of those that started it, and (0, 0) if none did.
    pub version: Version,
}

impl Model for Survey {
    ghost use Rattle.auth_log.specs.Choice.{Survey as Meant};

    ghost Value = { Meant };

    ghost view = { λ s. record { eligible = s.eligible.0; epoch = s.epoch; version = s.version } };

    ghost inverse = { λ s. record { eligible = record { 0 = s.eligible }; epoch = s.epoch; version = s.version } };
}

impl Survey {
    /// The survey of the slots that are up, by the intervals that are kept and what the slots' shards say.
    pub fn of(intervals: &Intervals, infos: &[Option<Info>; 16], up: Mask) -> Survey
        ensures { IsSurvey (record { kept = intervals.now; said = said_in infos.now; up = up.0 }) result }
    {
        let eligible = eligible(intervals.as_slice(), infos, up);
        let epoch = greatest_epoch(infos, eligible);
        let version = least_head(infos, eligible, epoch);
        Survey {
            eligible,
            epoch,
            version,
        }
    }
}
