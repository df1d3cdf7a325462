//! Steps as bytes.
ghost use Rattle.std.specs.Prelude.{◌≡◌, ◌<◌, true, false, ◌++◌, ◌∷◌, [], map, length, IfOk, OnOk};
ghost use Rattle.std.specs.List.{AllByRecursion};
ghost use Rattle.shard_model.specs.Changes.{Write};
ghost use Rattle.shard_model.specs.StepBytes.{version_bytes, name_bytes, counted_bytes, pairs_bytes, head_bytes, change_bytes, change_number, step_bytes, steps_bytes, IsCounted, HasShortBytes, HasShortLists};
ghost use Rattle.shard_model.specs.Steps.{Recover, Put};
ghost use Rattle.shard_steps.specs.StepMeanings.{change_in, is_entry, step_of};

use crate::head::head_of;
use crate::pairs::Pairs;
use crate::step::Step;
use ec_words::{Bytes, Name, NoMemory, Version, put_bytes, put_u32, put_u64};
use std::alloc::Global;

/// Steps as bytes, one after another. docs/FORMAT.md has the tables.
pub fn encode_steps(alloc: Global, steps: &[Step]) -> Result<Bytes, NoMemory>
    requires { AllByRecursion HasShortLists (map step_of steps.now) }
    ensures { IfOk result (λ bytes. bytes ≡ steps_bytes (map step_of steps.now)) }
{
    let mut out = Bytes::new(alloc);
    for i in 0..steps.len() {
        put_step(&mut out, &steps[i])?;
    }
    Ok(out)
}

/// A step's kind and its fields.
fn put_step(out: &mut Bytes, step: &Step) -> Result<(), NoMemory>
    requires { HasShortLists (step_of step.now) }
    ensures { OnOk result (out.new ≡ out.old ++ step_bytes (step_of step.now)) }
{
    match head_of(step) {
        Some(head) => {
            put_head(out, number_of(step), head.version, head.prior, head.name)?;
            put_change(out, step)
        }
        None => put_other(out, step),
    }
}

/// The kind of an entry's step.
fn number_of(step: &Step) -> u8
    requires { is_entry (step_of step.now) ≡ true }
    ensures { result ≡ change_number (change_in (step_of step.now)) }
{
    match step {
        Step::Write { .. } => 1,
        Step::Replace { .. } => 2,
        Step::Remove { .. } => 3,
        Step::SetAttr { .. } => 4,
        Step::RemoveAttr { .. } => 5,
        _ => unreachable!(),
    }
}

/// What follows the head of an entry's step.
fn put_change(out: &mut Bytes, step: &Step) -> Result<(), NoMemory>
    requires entry { is_entry (step_of step.now) ≡ true }
    requires short { HasShortBytes (change_in (step_of step.now)) }
    ensures { OnOk result (out.new ≡ out.old ++ change_bytes (change_in (step_of step.now))) }
{
    match step {
        Step::Write {
            fresh,
            size,
            at,
            bytes,
            ..
        } => put_write(out, *fresh, *size, *at, bytes),
        Step::Replace { size, bytes, .. } => {
            put_u32(out, *size)?;
            put_counted(out, bytes)
        }
        Step::Remove { .. } => Ok(()),
        Step::SetAttr { attr, value, .. } => {
            put_name(out, attr)?;
            put_counted(out, value)
        }
        Step::RemoveAttr { attr, .. } => put_name(out, attr),
        _ => unreachable!(),
    }
}

fn put_write(out: &mut Bytes, fresh: u8, size: u32, at: u32, bytes: &Bytes) -> Result<(), NoMemory>
    requires { IsCounted bytes.now }
    ensures { OnOk result (out.new ≡ out.old ++ change_bytes (Write fresh size at bytes.now)) }
{
    put_bytes(out, &[fresh])?;
    put_u32(out, size)?;
    put_u32(out, at)?;
    put_counted(out, bytes)
}

/// A step that is no entry.
fn put_other(out: &mut Bytes, step: &Step) -> Result<(), NoMemory>
    requires other { is_entry (step_of step.now) ≡ false }
    requires short { HasShortLists (step_of step.now) }
    ensures { OnOk result (out.new ≡ out.old ++ step_bytes (step_of step.now)) }
{
    match step {
        Step::Back(version) => put_kind_and_version(out, 6, version),
        Step::Started(epoch) => {
            put_bytes(out, &[7])?;
            put_u32(out, *epoch)
        }
        Step::Firm(version) => put_kind_and_version(out, 8, version),
        Step::Trim(version) => put_kind_and_version(out, 9, version),
        Step::Partial => put_bytes(out, &[10]),
        Step::Put {
            name,
            size,
            bytes,
            attrs,
        } => put_object(out, name, *size, bytes, attrs),
        Step::Drop(name) => {
            put_bytes(out, &[12])?;
            put_name(out, name)
        }
        Step::Clear => put_bytes(out, &[13]),
        Step::Reset(version, epoch) => {
            put_kind_and_version(out, 14, version)?;
            put_u32(out, *epoch)
        }
        _ => unreachable!(),
    }
}

fn put_kind_and_version(out: &mut Bytes, kind: u8, version: &Version) -> Result<(), NoMemory>
    ensures { OnOk result (out.new ≡ out.old ++ (kind ∷ version_bytes version.now)) }
{
    put_bytes(out, &[kind])?;
    put_version(out, version)
}

fn put_object(
    out: &mut Bytes,
    name: &Name,
    size: u32,
    bytes: &Bytes,
    attrs: &Pairs,
) -> Result<(), NoMemory>
    requires { HasShortLists (Recover (Put name.now size bytes.now attrs.now)) }
    ensures { OnOk result (out.new ≡ out.old ++ step_bytes (Recover (Put name.now size bytes.now attrs.now))) }
{
    put_bytes(out, &[11])?;
    put_name(out, name)?;
    put_u32(out, size)?;
    put_counted(out, bytes)?;
    put_attrs(out, attrs)
}

fn put_version(out: &mut Bytes, version: &Version) -> Result<(), NoMemory>
    ensures { OnOk result (out.new ≡ out.old ++ version_bytes version.now) }
{
    put_u32(out, version.epoch)?;
    put_u64(out, version.seq)
}

/// A kind, and what every entry begins with.
fn put_head(
    out: &mut Bytes,
    kind: u8,
    version: &Version,
    prior: &Version,
    name: &Name,
) -> Result<(), NoMemory>
    ensures { OnOk result (out.new ≡ out.old ++ (kind ∷ head_bytes (version.now, (prior.now, name.now)))) }
{
    put_bytes(out, &[kind])?;
    put_version(out, version)?;
    put_version(out, prior)?;
    put_name(out, name)
}

fn put_name(out: &mut Bytes, name: &Name) -> Result<(), NoMemory>
    ensures { OnOk result (out.new ≡ out.old ++ name_bytes name.now) }
{
    let text = name.as_slice();
    put_bytes(out, &[text.len() as u8])?;
    put_bytes(out, text)
}

/// The number of the bytes, and the bytes.
fn put_counted(out: &mut Bytes, bytes: &Bytes) -> Result<(), NoMemory>
    requires { IsCounted bytes.now }
    ensures { OnOk result (out.new ≡ out.old ++ counted_bytes bytes.now) }
{
    let bytes = bytes.as_slice();
    put_u32(out, bytes.len() as u32)?;
    put_bytes(out, bytes)
}

/// The number of the attributes, and each of them.
fn put_attrs(out: &mut Bytes, attrs: &Pairs) -> Result<(), NoMemory>
    requires few { length attrs.now < 256 }
    requires short { AllByRecursion (λ attr. IsCounted attr.1) attrs.now }
    ensures { OnOk result (out.new ≡ out.old ++ pairs_bytes attrs.now) }
{
    let attrs = attrs.as_slice();
    put_bytes(out, &[attrs.len() as u8])?;
    for i in 0..attrs.len() {
        let attr = &attrs[i];
        put_name(out, &attr.0)?;
        put_counted(out, &attr.1)?;
    }
    Ok(())
}
