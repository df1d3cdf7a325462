//! The attributes of an object.
ghost use Rattle.std.specs.Prelude.{◌≡◌, ◌⊎◌, ◌↔◌, ◌≤◌, ◌<◌, ◌-◌, ◌^◌, true, length, min, slice_get, IsSome, IfOk, OnOk, OnErr};
ghost use Rattle.std.specs.Option.{option_copied};
ghost use Rattle.std.specs.Ordering.{nat_cmp};
ghost use Rattle.std.specs.Cmp.Lexicographic.{slice_cmp};
ghost use Rattle.std.specs.FinMap as map;
ghost use Rattle.std.specs.List.{sum_by};
ghost use Rattle.shard_model.specs.Listings.{attr_usage};
ghost use Rattle.shard_state.specs.Spots.{IsSpot, without};
ghost use Rattle.shard_state.specs.Totals.{most};

use ec_words::{Bytes, Name, NoMemory};
use shard_steps::Pairs;
use std::alloc::Global;
use std::cmp::Ordering;
use std::marker::Model;

/// The values of an object's attributes by their names. A contract sees the map.
#[derive(Drop)]
pub struct Attrs {
    list: Vec<(Name, Bytes)>,
}

impl Model for Attrs {
    ghost use Rattle.std.specs.Prelude.{◌≡◌, ℕ, List, true};
    ghost use Rattle.std.specs.Ordering.{nat_cmp};
    ghost use Rattle.std.specs.Cmp.Lexicographic.{slice_cmp};
    ghost use Rattle.std.specs.Coded.{coded_ℕ, coded_list};
    ghost use Rattle.std.specs.FinMap as map;

    ghost Value = { map.FinMap (slice_cmp nat_cmp) (List ℕ) };

    ghost coded = { map.code (coded_list coded_ℕ) (coded_list coded_ℕ) };

    ghost view = { λ a. map.from_entries a.list.items };

    // The names ascend.
    ghost invariant = { λ a. map.is_sorted (slice_cmp nat_cmp) a.list.items ≡ true };
}

impl Attrs {
    /// No attributes. They take no memory yet.
    pub fn new(alloc: Global) -> Attrs
        ensures { result ≡ map.empty }
    {
        Attrs {
            list: Vec::new(alloc),
        }
    }

    /// The number of attributes.
    pub fn len(&self) -> usize
        ensures { result ≡ map.len self.now }
    {
        self.list.len()
    }

    /// The value of the attribute with this name.
    pub fn get(&self, name: &Name) -> Option<&Bytes>
        ensures { option_copied result ≡ map.get self.now name.now }
    {
        let (i, found) = spot(&self.list, name);
        if found { Some(&self.list[i].1) } else { None }
    }

    /// The name with this index, in ascending order. `None` exactly if the attributes are no more than `i`.
    pub fn name_at(&self, i: usize) -> Option<&Name>
        ensures { option_copied result ≡ slice_get (map.keys self.now) i }
    {
        if i < self.list.len() {
            Some(&self.list[i].0)
        } else {
            None
        }
    }

    /// The value of the name with this index. `None` exactly if the attributes are no more than `i`.
    pub fn value_at(&self, i: usize) -> Option<&Bytes>
        ensures { option_copied result ≡ slice_get (map.values self.now) i }
    {
        if i < self.list.len() {
            Some(&self.list[i].1)
        } else {
            None
        }
    }

    /// Whether both have the same attributes, with the same values.
    pub fn is_same(&self, other: &Attrs) -> bool
        ensures { (result ≡ true) ↔ (self.now ≡ other.now) }
    {
        are_same(&self.list, &other.list)
    }

    /// The names and values in ascending order, as a `Put` carries them.
    pub fn to_pairs(&self, alloc: Global) -> Result<Pairs, NoMemory>
        ensures { IfOk result (λ pairs. pairs ≡ map.entries self.now) }
    {
        let list = copy_pairs(alloc, &self.list)?;
        Ok(Pairs::of(list))
    }

    /// The number of the bytes of all names and values, or `u64::MAX` if that is less.
    pub fn usage(&self) -> u64
        ensures { result ≡ min (sum_by attr_usage (map.entries self.now)) (2 ^ 64 - 1) }
    {
        pairs_usage(&self.list)
    }

    /// The attributes of a list whose names ascend.
    pub(crate) fn from_pairs(alloc: Global, pairs: &Pairs) -> Result<Attrs, NoMemory>
        requires { map.is_sorted (slice_cmp nat_cmp) pairs.now ≡ true }
        ensures { IfOk result (λ attrs. attrs ≡ map.from_entries pairs.now) }
    {
        let list = copy_pairs(alloc, pairs.as_slice())?;
        Ok(Attrs { list })
    }

    /// Equal attributes.
    pub(crate) fn copy(&self, alloc: Global) -> Result<Attrs, NoMemory>
        ensures { IfOk result (λ copy. copy ≡ self.now) }
    {
        let list = copy_pairs(alloc, &self.list)?;
        Ok(Attrs { list })
    }

    /// Sets a value, and gives the one before it.
    pub(crate) fn set(&mut self, name: Name, value: Bytes) -> Result<Option<Bytes>, NoMemory>
        ensures ok { OnOk result (self.new ≡ map.insert self.old name value) }
        ensures before { IfOk result (λ before. before ≡ map.get self.old name) }
        ensures unchanged { OnErr result (self.new ≡ self.old) }
    {
        put_pair(&mut self.list, name, value)
    }

    /// Takes an attribute away, and gives its value.
    pub(crate) fn take(&mut self, name: &Name) -> Option<Bytes>
        ensures value { self.new ≡ map.remove self.old name.now }
        ensures before { result ≡ map.get self.old name.now }
    {
        take_pair(&mut self.list, name)
    }

    /// Sets a value that was there before, without memory: the attribute is there, or the spare has room for one more.
    pub(crate) fn give_back(&mut self, spare: SpareAttrs, name: Name, value: Bytes)
        requires { (IsSome (map.get self.old name)) ⊎ (map.len self.old < spare) }
        ensures { self.new ≡ map.insert self.old name value }
    {
        give_pair(&mut self.list, spare, name, value);
    }
}

/// The number of the bytes of names and values, or `u64::MAX` if that is less.
fn pairs_usage(list: &[(Name, Bytes)]) -> u64
    ensures { result ≡ min (sum_by attr_usage list.now) most }
{
    let mut sum: u64 = 0;
    for i in 0..list.len() {
        let pair = &list[i];
        let len = pair.0.as_slice().len() + pair.1.as_slice().len();
        sum = sum.saturating_add(len as u64);
    }
    sum
}

/// Whether two lists of attributes are equal.
fn are_same(left: &[(Name, Bytes)], right: &[(Name, Bytes)]) -> bool
    ensures { (result ≡ true) ↔ (left.now ≡ right.now) }
{
    if left.len() != right.len() {
        return false;
    }
    for i in 0..left.len() {
        if !is_same_pair(&left[i], &right[i]) {
            return false;
        }
    }
    true
}

fn is_same_pair(left: &(Name, Bytes), right: &(Name, Bytes)) -> bool
    ensures { (result ≡ true) ↔ (left.now ≡ right.now) }
{
    left.0 == right.0 && left.1 == right.1
}

fn copy_pairs(alloc: Global, list: &[(Name, Bytes)]) -> Result<Vec<(Name, Bytes)>, NoMemory>
    ensures { IfOk result (λ copy. copy.items ≡ list.now) }
{
    let mut copy = Vec::with_capacity(alloc, list.len())?;
    for i in 0..list.len() {
        let pair = &list[i];
        let name = pair.0.copy(alloc)?;
        let value = Bytes::from_slice(alloc, pair.1.as_slice())?;
        copy.push((name, value))?;
    }
    Ok(copy)
}

fn put_pair(
    list: &mut Vec<(Name, Bytes)>,
    name: Name,
    value: Bytes,
) -> Result<Option<Bytes>, NoMemory>
    requires { map.is_sorted (slice_cmp nat_cmp) list.old.items ≡ true }
    ensures ok { OnOk result (list.new.items ≡ map.put (slice_cmp nat_cmp) name value list.old.items) }
    ensures before { IfOk result (λ before. before ≡ map.find (slice_cmp nat_cmp) name list.old.items) }
    ensures unchanged { OnErr result (list.new.items ≡ list.old.items) }
{
    let (i, found) = spot(list, &name);
    if found {
        let before = std::mem::replace(&mut list[i], (name, value));
        return Ok(Some(before.1));
    }
    list.insert(i, (name, value))?;
    Ok(None)
}

fn take_pair(list: &mut Vec<(Name, Bytes)>, name: &Name) -> Option<Bytes>
    requires { map.is_sorted (slice_cmp nat_cmp) list.old.items ≡ true }
    ensures value { list.new.items ≡ without name.now list.old.items }
    ensures before { result ≡ map.find (slice_cmp nat_cmp) name.now list.old.items }
{
    let (i, found) = spot(list, name);
    if !found {
        return None;
    }
    let before = list.remove(i);
    Some(before.1)
}

fn give_pair(list: &mut Vec<(Name, Bytes)>, spare: SpareAttrs, name: Name, value: Bytes)
    requires sorted { map.is_sorted (slice_cmp nat_cmp) list.old.items ≡ true }
    requires room { (IsSome (map.find (slice_cmp nat_cmp) name list.old.items)) ⊎ (length list.old.items < spare) }
    ensures { list.new.items ≡ map.put (slice_cmp nat_cmp) name value list.old.items }
{
    let (i, found) = spot(list, &name);
    if found {
        list[i] = (name, value);
        return;
    }
    let mut all = spare.list;
    match all.append(list) {
        Ok(()) => {}
        Err(_) => unreachable!(),
    }
    match all.insert(i, (name, value)) {
        Ok(()) => {}
        Err(_) => unreachable!(),
    }
    *list = all;
}

/// Room for attributes. A contract sees their number.
#[derive(Drop)]
pub(crate) struct SpareAttrs {
    list: Vec<(Name, Bytes)>,
}

impl Model for SpareAttrs {
    ghost use Rattle.std.specs.Prelude.{◌≡◌, ℕ, []};
    ghost use Rattle.std.specs.Vec.{vec_capacity};

    ghost Value = { ℕ };

    ghost view = { λ s. vec_capacity s.list };

    ghost invariant = { λ s. s.list.items ≡ [] };
}

impl SpareAttrs {
    /// Room for none. It takes no memory.
    pub fn none(alloc: Global) -> SpareAttrs {
        SpareAttrs {
            list: Vec::new(alloc),
        }
    }

    /// Room for this many.
    pub fn of(alloc: Global, n: usize) -> Result<SpareAttrs, NoMemory>
        ensures { IfOk result (λ spare. n ≤ spare) }
    {
        let list = Vec::with_capacity(alloc, n)?;
        Ok(SpareAttrs { list })
    }

    /// Room for as many at least.
    pub fn copy(&self, alloc: Global) -> Result<SpareAttrs, NoMemory>
        ensures { IfOk result (λ copy. self.now ≤ copy) }
    {
        SpareAttrs::of(alloc, self.list.capacity())
    }
}

/// Where a name stands or would stand, and whether it is there.
fn spot(list: &Vec<(Name, Bytes)>, name: &Name) -> (usize, bool)
    requires { map.is_sorted (slice_cmp nat_cmp) list.now.items ≡ true }
    ensures { IsSpot name.now list.now.items result.0 result.1 }
{
    for i in 0..list.len() {
        let pair = &list[i];
        match name.cmp(&pair.0) {
            Ordering::Greater => {}
            Ordering::Equal => return (i, true),
            Ordering::Less => return (i, false),
        }
    }
    (list.len(), false)
}
