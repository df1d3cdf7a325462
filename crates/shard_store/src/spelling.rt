//! The bytes of a step.
ghost use Rattle.std.specs.Prelude.{◌≡◌, ◌<◌, IfOk, true};
ghost use Rattle.std.specs.List.{AllByRecursion};
ghost use Rattle.shard_model.specs.StepBytes.{step_bytes, HasWords, IsName, IsWord, IsWritable, HasShortLists};
ghost use Rattle.shard_steps.specs.StepMeanings.{is_entry, step_of};
ghost use Rattle.shard_store.specs.Fronts.{HasFront};

use ec_words::{Bytes, Name, NoMemory, Version};
use shard_steps::{Pairs, Step, encode_steps};
use std::alloc::Global;
use std::slice;

/// The bytes of a step.
pub(crate) fn text_of(alloc: Global, step: &Step) -> Result<Bytes, NoMemory>
    requires { HasShortLists (step_of step.now) }
    ensures bytes { IfOk result (λ text. text ≡ step_bytes (step_of step.now)) }
    ensures writable { IfOk result (λ text. IsWritable (step_of step.now)) }
{
    has_its_place(step);
    encode_steps(alloc, slice::from_ref(step))
}

/// All parts of a step have their place in the bytes. It does nothing.
fn has_its_place(step: &Step)
    requires { HasShortLists (step_of step.now) }
    ensures { IsWritable (step_of step.now) }
{
    match step {
        Step::Back(version) => is_a_version(version),
        Step::Started(epoch) => is_a_word(*epoch),
        Step::Firm(version) => is_a_version(version),
        Step::Trim(version) => is_a_version(version),
        Step::Partial => {}
        Step::Put {
            name,
            size,
            attrs,
            ..
        } => {
            is_a_name(name);
            is_a_word(*size);
            have_names(attrs);
        }
        Step::Drop(name) => is_a_name(name),
        Step::Clear => {}
        Step::Reset(version, epoch) => {
            is_a_version(version);
            is_a_word(*epoch);
        }
        _ => entry_has_its_place(step),
    }
}

/// So have those of an entry's step.
fn entry_has_its_place(step: &Step)
    requires entry { is_entry (step_of step.now) ≡ true }
    requires short { HasShortLists (step_of step.now) }
    ensures { IsWritable (step_of step.now) }
{
    front_has_its_place(step);
    match step {
        Step::Write {
            fresh,
            size,
            at,
            ..
        } => {
            is_a_byte(*fresh);
            is_a_word(*size);
            is_a_word(*at);
        }
        Step::Replace { size, .. } => is_a_word(*size),
        Step::Remove { .. } => {}
        Step::SetAttr { attr, .. } => is_a_name(attr),
        Step::RemoveAttr { attr, .. } => is_a_name(attr),
        _ => {}
    }
}

/// So has what every entry's step begins with.
fn front_has_its_place(step: &Step)
    ensures { HasFront (step_of step.now) }
{
    match step {
        Step::Write {
            version,
            prior,
            name,
            ..
        } => have_their_place(version, prior, name),
        Step::Replace {
            version,
            prior,
            name,
            ..
        } => have_their_place(version, prior, name),
        Step::Remove {
            version,
            prior,
            name,
        } => have_their_place(version, prior, name),
        Step::SetAttr {
            version,
            prior,
            name,
            ..
        } => have_their_place(version, prior, name),
        Step::RemoveAttr {
            version,
            prior,
            name,
            ..
        } => have_their_place(version, prior, name),
        _ => {}
    }
}

fn have_their_place(version: &Version, prior: &Version, name: &Name)
    ensures { HasWords version.now × (HasWords prior.now × IsName name.now) }
{
    is_a_version(version);
    is_a_version(prior);
    is_a_name(name);
}

fn is_a_byte(n: u8)
    ensures { n < 256 }
{}

fn is_a_word(n: u32)
    ensures { IsWord n }
{}

fn is_a_version(version: &Version)
    ensures { HasWords version.now }
{
    let _epoch = version.epoch;
    let _seq = version.seq;
}

fn is_a_name(name: &Name)
    ensures { IsName name.now }
{
    let _text = name.as_slice();
}

fn have_names(attrs: &Pairs)
    ensures { AllByRecursion (λ attr. IsName attr.0) attrs.now }
{
    let attrs = attrs.as_slice();
    for i in 0..attrs.len() {
        is_a_name(&attrs[i].0);
    }
}
