//! An update before it is cut into positions.
ghost use Rattle.std.specs.Prelude.{◌≡◌, ◌≤◌, ◌<◌, length, IfOk};
ghost use Rattle.shard_model.specs.Changes as changes;
ghost use Rattle.shard_model.specs.Steps.{Log};
ghost use Rattle.shard_steps.specs.StepMeanings.{step_of};
ghost use Rattle.stripe_map.specs.Sizes.{max_object};
ghost use Rattle.ec_positions.specs.Positions.{position_list};
ghost use Rattle.ec_positions.specs.Updates.{bytes_given};
ghost use Rattle.ec_pipeline.specs.Drafts.{drafted_step, drafted_write};
ghost use Rattle.ec_pipeline.specs.Updates.{update_of};

use crate::Update;
use ec_code::Code;
use ec_words::{Bytes, Geometry, Name, NoMemory, Version};
use shard_steps::Step;
use std::alloc::Global;
use stripe_map::encode_object;

/// The version of an update and the one before it; for a write also what the object becomes: `window` has the stripes that the
/// write touches, as they are after it, and `at` is their place in each shard. `fresh` is 1 if there is no object yet, else 0.
#[derive(Drop)]
pub struct Draft {
    pub version: Version,
    pub prior: Version,
    pub fresh: u8,
    /// The size of the object after the write, in bytes.
    pub size: u32,
    pub at: u32,
    pub window: Vec<u8>,
}

/// The step that position `p` gets of an update. `Err` if memory runs out.
pub fn draft_step(
    alloc: Global,
    code: &dyn Code,
    g: Geometry,
    draft: &Draft,
    update: &Update,
    p: u8,
) -> Result<Step, NoMemory>
    requires same_k { g.k ≡ (meaning code.now).k }
    requires window { length draft.now.window.items ≤ max_object }
    requires bytes { length (bytes_given (update_of update.now)) ≤ max_object }
    requires p { p < (meaning code.now).n }
    ensures { IfOk result (λ step. step_of step ≡ drafted_step (meaning code.now) g.unit p draft.now (update_of update.now)) }
{
    let version = draft.version;
    let prior = draft.prior;
    match update {
        Update::Append { name, .. } => write_step(alloc, code, g, draft, name, p),
        Update::Write { name, .. } => write_step(alloc, code, g, draft, name, p),
        Update::Full { name, bytes } => {
            replace_step(alloc, code, g, draft, name, bytes.as_slice(), p)
        }
        Update::Delete { name } => Ok(Step::Remove {
            version,
            prior,
            name: name.copy(alloc)?,
        }),
        Update::SetAttr { name, attr, value } => Ok(Step::SetAttr {
            version,
            prior,
            name: name.copy(alloc)?,
            attr: attr.copy(alloc)?,
            value: Bytes::from_slice(alloc, value.as_slice())?,
        }),
        Update::RemoveAttr { name, attr } => Ok(Step::RemoveAttr {
            version,
            prior,
            name: name.copy(alloc)?,
            attr: attr.copy(alloc)?,
        }),
    }
}

// The step of a write at position `p`.
fn write_step(
    alloc: Global,
    code: &dyn Code,
    g: Geometry,
    draft: &Draft,
    name: &Name,
    p: u8,
) -> Result<Step, NoMemory>
    requires same_k { g.k ≡ (meaning code.now).k }
    requires window { length draft.now.window.items ≤ max_object }
    requires p { p < (meaning code.now).n }
    ensures { IfOk result (λ step. step_of step ≡ Log (record {
      version = draft.now.version;
      prior = draft.now.prior;
      name = name.now;
      change = drafted_write (meaning code.now) g.unit p draft.now;
    })) }
{
    let name = name.copy(alloc)?;
    let bytes = encode_object(alloc, code, g, draft.window.as_slice(), p)?;
    Ok(Step::Write {
        version: draft.version,
        prior: draft.prior,
        name,
        fresh: draft.fresh,
        size: draft.size,
        at: draft.at,
        bytes,
    })
}

// The step at position `p` of bytes that become an object's.
fn replace_step(
    alloc: Global,
    code: &dyn Code,
    g: Geometry,
    draft: &Draft,
    name: &Name,
    bytes: &[u8],
    p: u8,
) -> Result<Step, NoMemory>
    requires same_k { g.k ≡ (meaning code.now).k }
    requires bytes { length bytes.now ≤ max_object }
    requires p { p < (meaning code.now).n }
    ensures { IfOk result (λ step. step_of step ≡ Log (record {
      version = draft.now.version;
      prior = draft.now.prior;
      name = name.now;
      change = changes.Replace (length bytes.now) (position_list (meaning code.now) g.unit bytes.now p);
    })) }
{
    let name = name.copy(alloc)?;
    let list = encode_object(alloc, code, g, bytes, p)?;
    Ok(Step::Replace {
        version: draft.version,
        prior: draft.prior,
        name,
        size: bytes.len() as u32,
        bytes: list,
    })
}
