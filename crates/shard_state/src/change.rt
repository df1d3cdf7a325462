//! What an entry does to one object, and what takes it back.
ghost use Rattle.std.specs.Prelude.{◌≡◌, ◌⊎◌, ◌<◌, ◌≤◌, ◌+◌, ◌^◌, [], length, take, drop, true, IfOk, IfErr, IfSome, IsSome, OnErr, OnOk, Some, None};
ghost use Rattle.std.specs.FinMap as map;
ghost use Rattle.ec_model.specs.Stripes.{shard_len};
ghost use Rattle.shard_model.specs.Limits.{max_attrs};
ghost use Rattle.shard_model.specs.Objects.{MayBeHeld, put};
ghost use Rattle.shard_model.specs.Changes.{Fresh, Extent, Attr, whole_undo, fits_change, restored, bytes_of, attrs_of, resized, written};
ghost use Rattle.shard_state.specs.EntryMeanings.{undo_of};
ghost use Rattle.shard_state.specs.Doing.{write_undo, DoesChange};
ghost use Rattle.shard_steps.specs.StepMeanings.{change_in, is_entry, step_of};
ghost use Rattle.shard_state.specs.Sound.{IsSound};

use crate::attrs::{Attrs, SpareAttrs};
use crate::entry::Undo;
use crate::held::Held;
use crate::limits::MAX_ATTRS;
use ec_words::{Bytes, Geometry, Name, NoMemory};
use shard_steps::Step;
use std::alloc::Global;

/// An object after a change, if there is one, and what takes the change back. The spare has room for an attribute that is put
/// back.
#[derive(Drop)]
pub(crate) struct Changed {
    pub after: Option<Held>,
    pub undo: Undo,
    pub spare: SpareAttrs,
}

/// Bytes grown to a length with zeros, with some of them in a place. After an `Err` they are as they were.
fn write_into(list: &mut Vec<u8>, len: usize, at: usize, bytes: &[u8]) -> Result<(), NoMemory>
    requires longer { length list.old.items ≤ len }
    requires inside { at + length bytes.now ≤ len }
    ensures ok { OnOk result (list.new.items ≡ written at bytes.now (resized len list.old.items)) }
    ensures unchanged { OnErr result (list.new.items ≡ list.old.items) }
{
    list.resize(len, 0)?;
    list[at..at + bytes.len()].copy_from_slice(bytes);
    Ok(())
}

/// A copy of the bytes of a range, as far as there are any.
fn part_of(alloc: Global, bytes: &[u8], at: usize, len: usize) -> Result<Bytes, NoMemory>
    ensures { IfOk result (λ part. part ≡ take len (drop at bytes.now)) }
{
    if at >= bytes.len() {
        return Ok(Bytes::new(alloc));
    }
    let rest = &bytes[at..];
    let n = if len < rest.len() { len } else { rest.len() };
    Bytes::from_slice(alloc, &rest[..n])
}

/// The bytes of a shard's object of this size.
pub(crate) fn bytes_of_size(g: Geometry, size: u32) -> usize
    requires { size ≤ 2 ^ 26 }
    ensures { result ≡ shard_len g.k g.unit size }
{
    let unit = g.unit as usize;
    (size as usize).div_ceil(g.k as usize * unit) * unit
}

/// Bytes are written into an object, or into a new one.
fn write(
    alloc: Global,
    len: usize,
    before: Option<Held>,
    size: u32,
    at: u32,
    bytes: &[u8],
) -> Result<Changed, Option<Held>>
    requires longer { length (bytes_of before) ≤ len }
    requires inside { at + length bytes.now ≤ len }
    ensures ok { IfOk result (λ done. (done.after ≡ Some (record { bytes = written at bytes.now (resized len (bytes_of before)); size = size; attrs = attrs_of before }))
        × (undo_of done.undo ≡ write_undo at (length bytes.now) before)) }
    ensures unchanged { IfErr result (λ same. same ≡ before) }
{
    match before {
        None => write_new(alloc, len, size, at, bytes),
        Some(held) => write_over(alloc, len, held, size, at, bytes),
    }
}

fn write_new(
    alloc: Global,
    len: usize,
    size: u32,
    at: u32,
    bytes: &[u8],
) -> Result<Changed, Option<Held>>
    requires inside { at + length bytes.now ≤ len }
    ensures ok { IfOk result (λ done. (done.after ≡ Some (record { bytes = written at bytes.now (resized len []); size = size; attrs = map.empty }))
        × (undo_of done.undo ≡ Fresh)) }
    ensures unchanged { IfErr result (λ same. same ≡ None) }
{
    let mut list = Vec::new(alloc);
    match write_into(&mut list, len, at as usize, bytes) {
        Ok(()) => Ok(Changed {
            after: Some(Held {
                bytes: Bytes::of(list),
                size,
                attrs: Attrs::new(alloc),
            }),
            undo: Undo::Fresh,
            spare: SpareAttrs::none(alloc),
        }),
        Err(_) => Err(None),
    }
}

fn write_over(
    alloc: Global,
    len: usize,
    held: Held,
    size: u32,
    at: u32,
    bytes: &[u8],
) -> Result<Changed, Option<Held>>
    requires longer { length held.bytes ≤ len }
    requires inside { at + length bytes.now ≤ len }
    ensures ok { IfOk result (λ done. (done.after ≡ Some (record { bytes = written at bytes.now (resized len held.bytes); size = size; attrs = held.attrs }))
        × (undo_of done.undo ≡ Extent held.size at (take (length bytes.now) (drop at held.bytes)))) }
    ensures unchanged { IfErr result (λ same. same ≡ Some held) }
{
    let before = match part_of(alloc, held.bytes.as_slice(), at as usize, bytes.len()) {
        Ok(before) => before,
        Err(_) => return Err(Some(held)),
    };
    let Held {
        bytes: old,
        size: old_size,
        attrs,
    } = held;
    let mut list = old.into_vec();
    match write_into(&mut list, len, at as usize, bytes) {
        Ok(()) => Ok(Changed {
            after: Some(Held {
                bytes: Bytes::of(list),
                size,
                attrs,
            }),
            undo: Undo::Extent {
                size: old_size,
                at,
                before,
            },
            spare: SpareAttrs::none(alloc),
        }),
        Err(_) => Err(Some(Held {
            bytes: Bytes::of(list),
            size: old_size,
            attrs,
        })),
    }
}

/// An object's bytes become others as a whole.
fn replace(
    alloc: Global,
    before: Option<Held>,
    size: u32,
    bytes: &[u8],
) -> Result<Changed, Option<Held>>
    ensures ok { IfOk result (λ done. (done.after ≡ Some (record { bytes = bytes.now; size = size; attrs = attrs_of before })) × (undo_of done.undo ≡ whole_undo before)) }
    ensures unchanged { IfErr result (λ same. same ≡ before) }
{
    let copy = match Bytes::from_slice(alloc, bytes) {
        Ok(copy) => copy,
        Err(_) => return Err(before),
    };
    let attrs = match attrs_copy(alloc, &before) {
        Ok(attrs) => attrs,
        Err(_) => return Err(before),
    };
    Ok(Changed {
        after: Some(Held {
            bytes: copy,
            size,
            attrs,
        }),
        undo: whole(before),
        spare: SpareAttrs::none(alloc),
    })
}

/// A copy of an object's attributes; no attributes if there is no object.
fn attrs_copy(alloc: Global, held: &Option<Held>) -> Result<Attrs, NoMemory>
    ensures { IfOk result (λ attrs. attrs ≡ attrs_of held.now) }
{
    match held {
        None => Ok(Attrs::new(alloc)),
        Some(held) => held.attrs.copy(alloc),
    }
}

/// What brings an object back as a whole, or its absence.
fn whole(before: Option<Held>) -> Undo
    ensures { undo_of result ≡ whole_undo before }
{
    match before {
        None => Undo::Fresh,
        Some(before) => Undo::Kept { before },
    }
}

fn set_attr(alloc: Global, held: Held, attr: &Name, value: &Bytes) -> Result<Changed, Option<Held>>
    ensures ok { IfOk result (λ done. (done.after ≡ Some (record { bytes = held.bytes; size = held.size; attrs = map.insert held.attrs attr.now value.now }))
        × (undo_of done.undo ≡ Attr attr.now (map.get held.attrs attr.now))) }
    ensures unchanged { IfErr result (λ same. same ≡ Some held) }
{
    let (key, name, copy) = match copies(alloc, attr, value) {
        Ok(copies) => copies,
        Err(_) => return Err(Some(held)),
    };
    let Held {
        bytes,
        size,
        mut attrs,
    } = held;
    match attrs.set(key, copy) {
        Ok(before) => Ok(Changed {
            after: Some(Held { bytes, size, attrs }),
            undo: Undo::Attr { attr: name, before },
            spare: SpareAttrs::none(alloc),
        }),
        Err(_) => Err(Some(Held { bytes, size, attrs })),
    }
}

/// A name twice, and a value.
fn copies(alloc: Global, attr: &Name, value: &Bytes) -> Result<(Name, Name, Bytes), NoMemory>
    ensures { IfOk result (λ all. (all.0 ≡ attr.now) × (all.1 ≡ attr.now) × (all.2 ≡ value.now)) }
{
    let key = attr.copy(alloc)?;
    let name = attr.copy(alloc)?;
    let copy = Bytes::from_slice(alloc, value.as_slice())?;
    Ok((key, name, copy))
}

fn remove_attr(alloc: Global, held: Held, attr: &Name) -> Result<Changed, Option<Held>>
    ensures ok { IfOk result (λ done. (done.after ≡ Some (record { bytes = held.bytes; size = held.size; attrs = map.remove held.attrs attr.now }))
        × (undo_of done.undo ≡ Attr attr.now (map.get held.attrs attr.now)) × (max_attrs ≤ done.spare)) }
    ensures unchanged { IfErr result (λ same. same ≡ Some held) }
{
    let (name, spare) = match name_and_spare(alloc, attr) {
        Ok(both) => both,
        Err(_) => return Err(Some(held)),
    };
    let Held {
        bytes,
        size,
        mut attrs,
    } = held;
    let before = attrs.take(attr);
    Ok(Changed {
        after: Some(Held { bytes, size, attrs }),
        undo: Undo::Attr { attr: name, before },
        spare,
    })
}

/// A name, and room for as many attributes as there may be.
fn name_and_spare(alloc: Global, attr: &Name) -> Result<(Name, SpareAttrs), NoMemory>
    ensures { IfOk result (λ both. (both.0 ≡ attr.now) × (max_attrs ≤ both.1)) }
{
    let name = attr.copy(alloc)?;
    let spare = SpareAttrs::of(alloc, MAX_ATTRS)?;
    Ok((name, spare))
}

/// What an entry's step does to the object of its name.
pub(crate) fn apply_change(
    alloc: Global,
    g: Geometry,
    step: &Step,
    before: Option<Held>,
) -> Result<Changed, Option<Held>>
    requires entry { is_entry (step_of step.now) ≡ true }
    requires held { MayBeHeld (record { k = g.k; unit = g.unit }) before }
    requires fits { fits_change (record { k = g.k; unit = g.unit }) (change_in (step_of step.now)) before ≡ true }
    ensures ok { IfOk result (λ done. DoesChange (record { k = g.k; unit = g.unit }) (change_in (step_of step.now)) before done.after (undo_of done.undo) done.spare) }
    ensures unchanged { IfErr result (λ same. same ≡ before) }
{
    match step {
        Step::Write {
            size,
            at,
            bytes,
            ..
        } => write(
            alloc,
            bytes_of_size(g, *size),
            before,
            *size,
            *at,
            bytes.as_slice(),
        ),
        Step::Replace { size, bytes, .. } => replace(alloc, before, *size, bytes.as_slice()),
        Step::Remove { .. } => Ok(Changed {
            after: None,
            undo: whole(before),
            spare: SpareAttrs::none(alloc),
        }),
        Step::SetAttr { attr, value, .. } => match before {
            Some(held) => set_attr(alloc, held, attr, value),
            None => unreachable!(),
        },
        Step::RemoveAttr { attr, .. } => match before {
            Some(held) => remove_attr(alloc, held, attr),
            None => unreachable!(),
        },
        _ => unreachable!(),
    }
}

/// An object with a change taken back, without memory.
pub(crate) fn taken_back(
    g: Geometry,
    held: Option<Held>,
    undo: Undo,
    spare: SpareAttrs,
) -> Option<Held>
    requires { IsSound (record { k = g.k; unit = g.unit }) spare (undo_of undo) held }
    ensures { result ≡ restored (record { k = g.k; unit = g.unit }) (undo_of undo) held }
{
    match undo {
        Undo::Fresh => None,
        Undo::Extent { size, at, before } => match held {
            Some(held) => Some(shrunk(held, bytes_of_size(g, size), size, at, before.as_slice())),
            None => None,
        },
        Undo::Kept { before } => Some(before),
        Undo::Attr { attr, before } => match held {
            Some(held) => Some(with_attr(held, spare, attr, before)),
            None => None,
        },
        Undo::Firm => held,
    }
}

/// An object with an old size and the old bytes of a range.
fn shrunk(held: Held, len: usize, size: u32, at: u32, before: &[u8]) -> Held
    requires shorter { len ≤ length held.bytes }
    requires inside { (at + length before.now ≤ len) ⊎ (length before.now ≡ 0) }
    ensures { result ≡ record { bytes = written at before.now (resized len held.bytes); size = size; attrs = held.attrs } }
{
    let Held {
        bytes,
        size: _,
        attrs,
    } = held;
    let mut list = bytes.into_vec();
    cut_back(&mut list, len, at as usize, before);
    Held {
        bytes: Bytes::of(list),
        size,
        attrs,
    }
}

/// Bytes cut to an old length, with old ones of a range in their place.
fn cut_back(list: &mut Vec<u8>, len: usize, at: usize, before: &[u8])
    requires shorter { len ≤ length list.old.items }
    requires inside { (at + length before.now ≤ len) ⊎ (length before.now ≡ 0) }
    ensures { list.new.items ≡ written at before.now (resized len list.old.items) }
{
    list.truncate(len);
    if !before.is_empty() {
        list[at..at + before.len()].copy_from_slice(before);
    }
}

/// An object with an old value of an attribute, or without it.
fn with_attr(held: Held, spare: SpareAttrs, attr: Name, before: Option<Bytes>) -> Held
    requires { IfSome before (λ value. (IsSome (map.get held.attrs attr)) ⊎ (map.len held.attrs < spare)) }
    ensures { result ≡ record { bytes = held.bytes; size = held.size; attrs = put held.attrs attr before } }
{
    let Held {
        bytes,
        size,
        mut attrs,
    } = held;
    match before {
        Some(value) => attrs.give_back(spare, attr, value),
        None => {
            attrs.take(&attr);
        }
    }
    Held { bytes, size, attrs }
}
