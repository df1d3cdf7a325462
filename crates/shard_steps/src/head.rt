//! What an entry's step begins with.
ghost use Rattle.std.specs.Prelude.{◌≡◌, ◌↔◌, false, IfSome, IsNone};
ghost use Rattle.shard_model.specs.Changes.{kind_of as kind_of_change};
ghost use Rattle.shard_model.specs.Steps.{Log};
ghost use Rattle.shard_steps.specs.StepMeanings.{change_in, is_entry, kind_of, step_of};

use crate::kind::Kind;
use crate::step::Step;
use ec_words::{Name, Version};

/// An entry's version, the one before it, the object's name, and what is done to it.
#[derive(Drop)]
pub struct EntryHead<'a> {
    pub version: &'a Version,
    pub prior: &'a Version,
    pub name: &'a Name,
    pub kind: Kind,
}

/// What an entry begins with. `None` exactly if the step is no entry.
pub fn head_of(step: &Step) -> Option<EntryHead<'_>>
    ensures none { IsNone result ↔ (is_entry (step_of step.now) ≡ false) }
    ensures entry { IfSome result (λ head. step_of step.now ≡ Log (record { version = head.version.now; prior = head.prior.now; name = head.name.now; change = change_in (step_of step.now) })) }
    ensures kind { IfSome result (λ head. kind_of head.kind ≡ kind_of_change (change_in (step_of step.now))) }
{
    match step {
        Step::Write {
            version,
            prior,
            name,
            ..
        } => Some(entry(version, prior, name, Kind::Write)),
        Step::Replace {
            version,
            prior,
            name,
            ..
        } => Some(entry(version, prior, name, Kind::Replace)),
        Step::Remove {
            version,
            prior,
            name,
        } => Some(entry(version, prior, name, Kind::Remove)),
        Step::SetAttr {
            version,
            prior,
            name,
            ..
        } => Some(entry(version, prior, name, Kind::SetAttr)),
        Step::RemoveAttr {
            version,
            prior,
            name,
            ..
        } => Some(entry(version, prior, name, Kind::RemoveAttr)),
        _ => None,
    }
}

fn entry<'a>(version: &'a Version, prior: &'a Version, name: &'a Name, kind: Kind) -> EntryHead<'a>
    ensures version { result.version.now ≡ version.now }
    ensures prior { result.prior.now ≡ prior.now }
    ensures name { result.name.now ≡ name.now }
    ensures kind { result.kind ≡ kind }
{
    EntryHead {
        version,
        prior,
        name,
        kind,
    }
}
