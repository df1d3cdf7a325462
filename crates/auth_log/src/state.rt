//! The state of a pool.
ghost use Rattle.std.specs.Prelude.{◌≡◌, ◌≤◌, ◌<◌, ℕ};
ghost use Rattle.std.specs.Int.{bit_at};
ghost use Rattle.ec_model.specs.Codes.{LiesBelow, count_below};
ghost use Rattle.auth_log.specs.Choice.{PeeringInput, IsSurvey, JoinedLieBelow};
ghost use Rattle.auth_log.specs.Inner.{IsStateOfJoined};
ghost use Rattle.auth_log.specs.Meanings.{state_of};
ghost use Rattle.auth_log.specs.States.{IsState};

use crate::Survey;
use crate::decided::{decides_all, least_undecided};
use ec_code::Code;
use ec_words::{Intervals, Mask};

/// Whether a pool serves, and else why it does not.
#[derive(Clone, Copy, Debug, PartialEq, Eq)]
pub enum State {
    /// The data are not decided: too few of the eligible slots `up` are left of the interval of this epoch, or too few of them
    /// hold the authoritative version.
    Down { epoch: u32, up: Mask },
    /// The slots that joined decide all, and are fewer than `min`.
    Short { joined: Mask, min: u8 },
    /// The pool serves with the slots that joined.
    Active { joined: Mask },
}

impl Survey {
    /// The state of a pool that serves with `min` slots or more. This is the pool's survey, and `holds` are the slots that hold
    /// the survey's version. The slots that join are the eligible ones of `holds`.
    pub fn state(&self, intervals: &Intervals, code: &dyn Code, holds: Mask, min: u8) -> State
        requires joined { JoinedLieBelow (meaning code.now).n intervals.now }
        requires holds { LiesBelow (meaning code.now).n holds.0 }
        ensures { (peers : PeeringInput) → peers.kept ≡ intervals.now → IsSurvey peers self.now
            → IsState (meaning code.now) peers min holds.0 (state_of result) }
    {
        match least_undecided(intervals.as_slice(), code, self.eligible, self.epoch) {
            Some(epoch) => State::Down {
                epoch,
                up: self.eligible,
            },
            None => self.state_of_joined(code, Mask(holds.0 & self.eligible.0), min),
        }
    }

    /// The same if the eligible slots are sufficient, by those that joined.
    fn state_of_joined(&self, code: &dyn Code, joined: Mask, min: u8) -> State
        requires { LiesBelow (meaning code.now).n joined.0 }
        ensures { IsStateOfJoined (meaning code.now) self.now joined.0 min (state_of result) }
    {
        if !decides_all(code, joined) {
            return State::Down {
                epoch: self.epoch,
                up: self.eligible,
            };
        }
        if size_of(joined, code.shape().n) < min {
            State::Short { joined, min }
        } else {
            State::Active { joined }
        }
    }
}

/// How many positions below `n` a set has.
fn size_of(set: Mask, n: u8) -> u8
    requires { n ≤ 16 }
    ensures { result ≡ count_below set.0 n }
{
    let mut size = 0u8;
    for p in 0..n {
        size += bit_of(set, p);
    }
    size
}

/// A position of a set as a number.
fn bit_of(set: Mask, p: u8) -> u8
    requires { p < 16 }
    ensures value { result ≡ bit_at set.0 p }
    ensures few { result ≤ 1 }
{
    (set.0 >> p & 1) as u8
}
