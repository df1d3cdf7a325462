//! Whether a change fits an object.
ghost use Rattle.std.specs.Prelude.{◌≡◌, ◌+◌, ◌||◌, ◌&&◌, ◌==◌, true, nat_le, nat_lt, is_some, length};
ghost use Rattle.std.specs.Ordering.{nat_cmp, is_lt};
ghost use Rattle.std.specs.Cmp.Lexicographic.{slice_cmp};
ghost use Rattle.std.specs.FinMap as map;
ghost use Rattle.std.specs.List.{list_all};
ghost use Rattle.std.specs.Option.{option_copied};
ghost use Rattle.shard_model.specs.Limits.{max_attrs, max_size, max_value};
ghost use Rattle.shard_model.specs.Changes.{fits_change, fits_extent, Write, Replace, SetAttr, RemoveAttr};
ghost use Rattle.shard_model.specs.States.{are_attrs};
ghost use Rattle.ec_model.specs.Stripes.{shard_len};
ghost use Rattle.shard_steps.specs.StepMeanings.{change_in, is_entry, step_of};

use crate::change::bytes_of_size;
use crate::held::Held;
use crate::limits::{MAX_ATTRS, MAX_SIZE, MAX_VALUE};
use ec_words::{Bytes, Geometry, Name};
use shard_steps::Step;

/// Whether an entry's change may be made to an object, or without one.
pub(crate) fn fits_entry(g: Geometry, step: &Step, held: Option<&Held>) -> bool
    requires { is_entry (step_of step.now) ≡ true }
    ensures { result ≡ fits_change (record { k = g.k; unit = g.unit }) (change_in (step_of step.now)) (option_copied held.entry) }
{
    match step {
        Step::Write {
            fresh,
            size,
            at,
            bytes,
            ..
        } => fits_write(g, held, *fresh, *size, *at, bytes.as_slice()),
        Step::Replace { size, bytes, .. } => fits_replace(g, *size, bytes.as_slice()),
        Step::Remove { .. } => held.is_some(),
        Step::SetAttr { attr, value, .. } => fits_set_attr(g, held, attr, value.as_slice()),
        Step::RemoveAttr { attr, .. } => fits_remove_attr(g, held, attr),
        _ => unreachable!(),
    }
}

fn fits_write(g: Geometry, held: Option<&Held>, fresh: u8, size: u32, at: u32, bytes: &[u8]) -> bool
    ensures { result ≡ fits_change (record { k = g.k; unit = g.unit }) (Write fresh size at bytes.now) (option_copied held.entry) }
{
    match held {
        None => fresh == 1 && is_extent(g, size, at, bytes.len()),
        Some(held) => fresh == 0 && (held.size <= size && is_extent(g, size, at, bytes.len())),
    }
}

/// Whole units inside the bytes of an object of this size.
fn is_extent(g: Geometry, size: u32, at: u32, len: usize) -> bool
    ensures { result ≡ fits_extent (record { k = g.k; unit = g.unit }) size at len }
{
    size <= MAX_SIZE
        && (at % g.unit == 0
            && (len % g.unit as usize == 0 && lies_inside(at, len, bytes_of_size(g, size))))
}

fn lies_inside(at: u32, len: usize, end: usize) -> bool
    ensures { result ≡ nat_le (at + len) end }
{
    len <= end && at as usize <= end - len
}

fn fits_replace(g: Geometry, size: u32, bytes: &[u8]) -> bool
    ensures { (o : _) → result ≡ fits_change (record { k = g.k; unit = g.unit }) (Replace size bytes.now) o }
{
    size <= MAX_SIZE && bytes.len() == bytes_of_size(g, size)
}

fn fits_set_attr(g: Geometry, held: Option<&Held>, attr: &Name, value: &[u8]) -> bool
    ensures { result ≡ fits_change (record { k = g.k; unit = g.unit }) (SetAttr attr.now value.now) (option_copied held.entry) }
{
    match held {
        None => false,
        Some(held) => value.len() <= MAX_VALUE && has_or_may_have(held, attr),
    }
}

fn has_or_may_have(held: &Held, attr: &Name) -> bool
    ensures { result ≡ (is_some (map.get held.now.attrs attr.now) || nat_lt (map.len held.now.attrs) max_attrs) }
{
    held.attrs.get(attr).is_some() || held.attrs.len() < MAX_ATTRS
}

fn fits_remove_attr(g: Geometry, held: Option<&Held>, attr: &Name) -> bool
    ensures { result ≡ fits_change (record { k = g.k; unit = g.unit }) (RemoveAttr attr.now) (option_copied held.entry) }
{
    match held {
        None => false,
        Some(held) => held.attrs.get(attr).is_some(),
    }
}

/// Whether an object may be brought.
pub(crate) fn fits_put(g: Geometry, size: u32, bytes: &[u8], attrs: &[(Name, Bytes)]) -> bool
    ensures { result ≡ (nat_le size max_size && (length bytes.now == shard_len g.k g.unit size && are_attrs attrs.now)) }
{
    size <= MAX_SIZE && (bytes.len() == bytes_of_size(g, size) && are_attrs(attrs))
}

/// Whether attributes may stand in a `Put`.
fn are_attrs(attrs: &[(Name, Bytes)]) -> bool
    ensures { result ≡ are_attrs attrs.now }
{
    attrs.len() <= MAX_ATTRS && (ascend(attrs) && are_short(attrs))
}

/// Whether the names ascend.
fn ascend(attrs: &[(Name, Bytes)]) -> bool
    ensures { result ≡ map.is_sorted (slice_cmp nat_cmp) attrs.now }
{
    for i in 1..attrs.len() {
        let before = &attrs[i - 1];
        let pair = &attrs[i];
        if !is_below(&before.0, &pair.0) {
            return false;
        }
    }
    true
}

fn is_below(one: &Name, other: &Name) -> bool
    ensures { result ≡ is_lt (slice_cmp nat_cmp one.now other.now) }
{
    one < other
}

/// Whether no value is too long.
fn are_short(attrs: &[(Name, Bytes)]) -> bool
    ensures { result ≡ list_all (λ attr. nat_le (length attr.1) max_value) attrs.now }
{
    for i in 0..attrs.len() {
        let attr = &attrs[i];
        if attr.1.as_slice().len() > MAX_VALUE {
            return false;
        }
    }
    true
}
