//! Objects by name, with places that may be empty.
//!
//! An object that is removed leaves its place empty, so that putting it back takes no memory.
ghost use Rattle.std.specs.Prelude.{◌≡◌, OnOk, OnErr, IfOk, None, is_some, IsSome, min};
ghost use Rattle.std.specs.Option.{option_copied};
ghost use Rattle.std.specs.FinMap as map;
ghost use Rattle.std.specs.Range.Bound.{bound_map};
ghost use Rattle.shard_model.specs.Listings.{next_name, usage};
ghost use Rattle.shard_state.specs.Places.{joined, inside, IsSwept};
ghost use Rattle.shard_state.specs.Totals.{most, start_after};

use crate::copying::copy_place;
use crate::held::Held;
use crate::totals::ObjectTotals;
use ec_words::{Name, NoMemory};
use std::alloc::Global;
use std::collections::BTreeMap;
use std::marker::Model;
use std::ops::Bound;

/// Places by name. A contract sees the map from names to what lies in them, if anything.
#[derive(Drop)]
pub(crate) struct Places {
    slots: BTreeMap<Name, Option<Held>>,
    totals: ObjectTotals,
}

impl Model for Places {
    ghost use Rattle.std.specs.Prelude.{ℕ, List, Option};
    ghost use Rattle.std.specs.Ordering.{nat_cmp};
    ghost use Rattle.std.specs.Cmp.Lexicographic.{slice_cmp};
    ghost use Rattle.std.specs.Coded.{coded_ℕ, coded_list, coded_option};
    ghost use Rattle.std.specs.FinMap as map;
    ghost use Rattle.shard_model.specs.Objects.{ShardObject, shard_object_code};

    ghost Value = { map.FinMap (slice_cmp nat_cmp) (Option ShardObject) };

    ghost coded = { map.code (coded_list coded_ℕ) (coded_option shard_object_code) };

    ghost view = { λ p. map.from_entries p.slots.entries };

    ghost use Rattle.shard_state.specs.Totals.{AreTotals};

    ghost invariant = { λ p. AreTotals p.slots.entries p.totals.count p.totals.used };
}

impl Places {
    /// No places. They take no memory.
    pub fn new(alloc: Global) -> Places
        ensures { result ≡ map.empty }
    {
        Places {
            slots: BTreeMap::new(alloc),
            totals: ObjectTotals::none(),
        }
    }

    /// Equal places.
    pub fn copy(&self, alloc: Global) -> Result<Places, NoMemory>
        ensures { IfOk result (λ copy. copy ≡ self.now) }
    {
        let mut slots = BTreeMap::new(alloc);
        for (name, place) in self.slots.iter() {
            let name = name.copy(alloc)?;
            let place = copy_place(alloc, place)?;
            slots.insert(name, place)?;
        }
        Ok(Places {
            slots,
            totals: self.totals,
        })
    }

    /// What lies in the place of a name.
    pub fn get(&self, name: &Name) -> Option<&Held>
        ensures { option_copied result ≡ joined (map.get self.now name.now) }
    {
        match self.slots.get(name) {
            None => None,
            Some(place) => place.as_ref(),
        }
    }

    /// Whether a name has a place.
    pub fn has(&self, name: &Name) -> bool
        ensures { result ≡ is_some (map.get self.now name.now) }
    {
        self.slots.get(name).is_some()
    }

    /// Makes an empty place for a name that has none.
    pub fn make(&mut self, name: Name) -> Result<(), NoMemory>
        requires { map.get self.old name ≡ None }
        ensures ok { OnOk result (self.new ≡ map.insert self.old name None) }
        ensures unchanged { OnErr result (self.new ≡ self.old) }
    {
        self.slots.insert(name, None)?;
        Ok(())
    }

    /// Changes what lies in a place, and gives what lay there.
    pub fn set(&mut self, name: &Name, value: Option<Held>) -> Option<Held>
        requires { IsSome (map.get self.old name.now) }
        ensures value { self.new ≡ map.insert self.old name.now value }
        ensures before { result ≡ joined (map.get self.old name.now) }
    {
        // There are fewer than 2^63 places, so both totals fit.
        let _places = self.slots.len();
        self.totals.add(&value);
        match self.slots.get_mut(name) {
            None => unreachable!(),
            Some(place) => {
                let before = std::mem::replace(place, value);
                self.totals.take(&before);
                before
            }
        }
    }

    /// Takes the place of a name away if it is empty.
    pub fn sweep(&mut self, name: &Name)
        ensures same { inside self.new ≡ inside self.old }
        ensures others { IsSwept name.now self.old self.new }
    {
        if self.has(name) && self.get(name).is_none() {
            self.slots.remove(name);
        }
    }

    /// The number of places that are not empty.
    pub fn count(&self) -> usize
        ensures { result ≡ map.len (inside self.now) }
    {
        self.totals.count
    }

    /// What lies in the places takes this much, or `u64::MAX` if that is more.
    pub fn usage(&self) -> u64
        ensures { result ≡ min (usage (inside self.now)) most }
    {
        if self.totals.used <= u128::from(u64::MAX) {
            self.totals.used as u64
        } else {
            u64::MAX
        }
    }

    /// The least name whose place is not empty, or the least such name after another.
    pub fn next_name(&self, after: Option<&Name>) -> Option<&Name>
        ensures { option_copied result ≡ next_name (inside self.now) (option_copied after.entry) }
    {
        for (name, place) in self.slots.range((start_after(after), Bound::Unbounded)) {
            if place.is_some() {
                return Some(name);
            }
        }
        None
    }
}

/// Where the names after one begin, or all names.
fn start_after(after: Option<&Name>) -> Bound<&Name>
    ensures { bound_map (λ x. x.now) result ≡ start_after (option_copied after.entry) }
{
    match after {
        None => Bound::Unbounded,
        Some(name) => Bound::Excluded(name),
    }
}
