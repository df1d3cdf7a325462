//! Updates of objects.
ghost use Rattle.std.specs.Prelude.{◌≡◌, IfOk};
ghost use Rattle.ec_positions.specs.Updates.{name_of};
ghost use Rattle.ec_pipeline.specs.Updates.{update_of};

use ec_words::{Bytes, Name, NoMemory};
use std::alloc::Global;

/// What a line of a script changes of the objects. `off` is a byte offset in the object.
#[derive(Debug, Drop)]
pub enum Update {
    Append {
        name: Name,
        bytes: Bytes,
    },
    Write {
        name: Name,
        off: u64,
        bytes: Bytes,
    },
    Full {
        name: Name,
        bytes: Bytes,
    },
    Delete {
        name: Name,
    },
    SetAttr {
        name: Name,
        attr: Name,
        value: Bytes,
    },
    RemoveAttr {
        name: Name,
        attr: Name,
    },
}

impl Update {
    /// An equal update. `Err` if memory runs out.
    pub fn copy(&self, alloc: Global) -> Result<Update, NoMemory>
        ensures { IfOk result (λ copy. update_of copy ≡ update_of self.now) }
    {
        match self {
            Update::Append { name, bytes } => Ok(Update::Append {
                name: name.copy(alloc)?,
                bytes: Bytes::from_slice(alloc, bytes.as_slice())?,
            }),
            Update::Write { name, off, bytes } => Ok(Update::Write {
                name: name.copy(alloc)?,
                off: *off,
                bytes: Bytes::from_slice(alloc, bytes.as_slice())?,
            }),
            Update::Full { name, bytes } => Ok(Update::Full {
                name: name.copy(alloc)?,
                bytes: Bytes::from_slice(alloc, bytes.as_slice())?,
            }),
            Update::Delete { name } => Ok(Update::Delete {
                name: name.copy(alloc)?,
            }),
            Update::SetAttr { name, attr, value } => Ok(Update::SetAttr {
                name: name.copy(alloc)?,
                attr: attr.copy(alloc)?,
                value: Bytes::from_slice(alloc, value.as_slice())?,
            }),
            Update::RemoveAttr { name, attr } => Ok(Update::RemoveAttr {
                name: name.copy(alloc)?,
                attr: attr.copy(alloc)?,
            }),
        }
    }

    /// The name of the object that it changes.
    pub fn name(&self) -> &Name
        ensures { result.now ≡ name_of (update_of self.now) }
    {
        match self {
            Update::Append { name, .. } => name,
            Update::Write { name, .. } => name,
            Update::Full { name, .. } => name,
            Update::Delete { name } => name,
            Update::SetAttr { name, .. } => name,
            Update::RemoveAttr { name, .. } => name,
        }
    }
}
