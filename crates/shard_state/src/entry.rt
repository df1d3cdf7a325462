//! The entries of the log.
use crate::held::Held;
use ec_words::{Bytes, Name, Version};
use shard_steps::Kind;

/// What takes an entry back.
#[derive(Drop)]
pub enum Undo {
    /// There was no object.
    Fresh,
    /// The size before, and the bytes before from `at` on, as far as there were any.
    Extent { size: u32, at: u32, before: Bytes },
    /// The object as it was.
    Kept { before: Held },
    /// The attribute's value before, if it had one.
    Attr { attr: Name, before: Option<Bytes> },
    /// Nothing takes it back any more.
    Firm,
}

/// An entry: its version, the one before it, the object's name, and what was done to it.
#[derive(Drop)]
pub struct Logged {
    pub version: Version,
    pub prior: Version,
    pub name: Name,
    pub kind: Kind,
}

/// An entry, and what takes it back.
#[derive(Drop)]
pub struct Entry {
    pub what: Logged,
    pub undo: Undo,
}
