//! The intervals of a pool.
ghost use Rattle.std.specs.Prelude.{◌≡◌, ◌∷◌, ◌++◌, [], OnOk, OnErr, IfSome, IfNone};
ghost use Rattle.ec_words.specs.Intervals.{with_last_alive};

use crate::{Mask, NoMemory, Version};
use std::alloc::Global;
use std::marker::Model;

/// The time from one choice of the slots that are up to the next.
#[derive(Clone, Copy, Debug, PartialEq, Eq)]
pub struct Interval {
    pub epoch: u32,
    pub up: Mask,
    /// If it went alive: the slots that joined it, and the version that it began with.
    pub alive: Option<(Mask, Version)>,
}

impl Model for Interval {
    ghost use Rattle.std.specs.Option.{option_map};
    ghost use Rattle.ec_words.specs.Intervals.{Interval as Meant};

    ghost Value = { Meant };

    ghost view = { λ i. record {
      epoch = i.epoch;
      up = i.up.0;
      alive = option_map (λ a. (a.0.0, a.1)) i.alive;
    } };

    ghost inverse = { λ i. record {
      epoch = i.epoch;
      up = record { 0 = i.up };
      alive = option_map (λ a. (record { 0 = a.0 }, a.1)) i.alive;
    } };
}

/// Intervals in the order of their epochs. A contract sees the list.
#[derive(Debug, Drop)]
pub struct Intervals {
    list: Vec<Interval>,
}

impl Model for Intervals {
    ghost use Rattle.std.specs.Prelude.{List};
    ghost use Rattle.ec_words.specs.Intervals.{Interval as Meant};

    ghost Value = { List Meant };

    ghost view = { λ intervals. intervals.list.items };
}

impl Intervals {
    /// No intervals. It takes no memory yet.
    pub fn new(alloc: Global) -> Intervals
        ensures { result ≡ [] }
    {
        Intervals {
            list: Vec::new(alloc),
        }
    }

    /// Appends an interval.
    pub fn push(&mut self, interval: Interval) -> Result<(), NoMemory>
        ensures ok { OnOk result (self.new ≡ self.old ++ interval ∷ []) }
        ensures unchanged { OnErr result (self.new ≡ self.old) }
    {
        self.list.push(interval)?;
        Ok(())
    }

    /// Removes the last interval.
    pub fn pop(&mut self) -> Option<Interval>
        ensures some { IfSome result (λ last. self.old ≡ self.new ++ last ∷ []) }
        ensures none { IfNone result ((self.old ≡ []) × (self.new ≡ [])) }
    {
        self.list.pop()
    }

    /// If there is an interval, records that the last one went alive. It takes no memory.
    pub fn set_last_alive(&mut self, joined: Mask, base: Version)
        ensures { self.new ≡ with_last_alive joined.0 base self.old }
    {
        match self.list.last_mut() {
            Some(last) => last.alive = Some((joined, base)),
            None => {}
        }
    }

    /// The intervals.
    pub fn as_slice(&self) -> &[Interval]
        ensures { result.now ≡ self.now }
    {
        self.list.as_slice()
    }
}
