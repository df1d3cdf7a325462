//! Copies of what a state keeps of its entries.
ghost use Rattle.std.specs.Prelude.{◌≡◌, map, IfOk};
ghost use Rattle.shard_state.specs.Copies.{IsCopy, AreCopies};
ghost use Rattle.shard_state.specs.EntryMeanings.{undo_of, logged_of};
ghost use Rattle.shard_state.specs.Records.{recorded};

use crate::entry::{Entry, Logged, Undo};
use crate::held::Held;
use crate::record::Record;
use ec_words::{Bytes, NoMemory};
use std::alloc::Global;

/// A copy of what lies in a place.
pub(crate) fn copy_place(alloc: Global, place: &Option<Held>) -> Result<Option<Held>, NoMemory>
    ensures { IfOk result (λ copy. copy ≡ place.now) }
{
    match place {
        None => Ok(None),
        Some(held) => {
            let copy = held.copy(alloc)?;
            Ok(Some(copy))
        }
    }
}

fn copy_value(alloc: Global, value: &Option<Bytes>) -> Result<Option<Bytes>, NoMemory>
    ensures { IfOk result (λ copy. copy ≡ value.now) }
{
    match value {
        None => Ok(None),
        Some(bytes) => {
            let copy = Bytes::from_slice(alloc, bytes.as_slice())?;
            Ok(Some(copy))
        }
    }
}

/// A copy of what takes an entry back.
fn copy_undo(alloc: Global, undo: &Undo) -> Result<Undo, NoMemory>
    ensures { IfOk result (λ copy. undo_of copy ≡ undo_of undo.now) }
{
    match undo {
        Undo::Fresh => Ok(Undo::Fresh),
        Undo::Extent { size, at, before } => {
            let before = Bytes::from_slice(alloc, before.as_slice())?;
            Ok(Undo::Extent {
                size: *size,
                at: *at,
                before,
            })
        }
        Undo::Kept { before } => {
            let before = before.copy(alloc)?;
            Ok(Undo::Kept { before })
        }
        Undo::Attr { attr, before } => {
            let attr = attr.copy(alloc)?;
            let before = copy_value(alloc, before)?;
            Ok(Undo::Attr { attr, before })
        }
        Undo::Firm => Ok(Undo::Firm),
    }
}

/// A copy of what an entry did.
fn copy_logged(alloc: Global, what: &Logged) -> Result<Logged, NoMemory>
    ensures { IfOk result (λ copy. copy ≡ what.now) }
{
    let name = what.name.copy(alloc)?;
    Ok(Logged {
        version: what.version,
        prior: what.prior,
        name,
        kind: what.kind,
    })
}

/// A copy of an entry, with a spare that has room for as many attributes.
fn copy_record(alloc: Global, from: &Record) -> Result<Record, NoMemory>
    ensures { IfOk result (λ copy. IsCopy (recorded from.now) (recorded copy)) }
{
    let what = copy_logged(alloc, &from.entry.what)?;
    let undo = copy_undo(alloc, &from.entry.undo)?;
    let spare = from.spare.copy(alloc)?;
    let entry = Entry { what, undo };
    Ok(Record { entry, spare })
}

/// A copy of the entries, in order.
pub(crate) fn copy_log(alloc: Global, log: &[Record]) -> Result<Vec<Record>, NoMemory>
    ensures { IfOk result (λ copy. AreCopies (map recorded log.now) (map recorded copy.items)) }
{
    let mut copy = Vec::with_capacity(alloc, log.len())?;
    for i in 0..log.len() {
        let record = copy_record(alloc, &log[i])?;
        copy.push(record)?;
    }
    Ok(copy)
}
