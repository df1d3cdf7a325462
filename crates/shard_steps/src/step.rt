//! Steps.
use crate::pairs::Pairs;
use ec_words::{Bytes, Name, Version};

/// A step of a shard: what a record of its journal is made of. A size is that of the whole object, the bytes are those of the
/// shard's position. Entries come first, then what moves the bounds of the log, then what fills a partial shard.
#[derive(Drop)]
pub enum Step {
    /// Bytes from `at` on, in whole units; `fresh` is 1 if there is no object yet, and else 0.
    Write {
        version: Version,
        prior: Version,
        name: Name,
        fresh: u8,
        size: u32,
        at: u32,
        bytes: Bytes,
    },
    /// An object's bytes as a whole; its attributes stay.
    Replace {
        version: Version,
        prior: Version,
        name: Name,
        size: u32,
        bytes: Bytes,
    },
    Remove {
        version: Version,
        prior: Version,
        name: Name,
    },
    SetAttr {
        version: Version,
        prior: Version,
        name: Name,
        attr: Name,
        value: Bytes,
    },
    RemoveAttr {
        version: Version,
        prior: Version,
        name: Name,
        attr: Name,
    },
    /// The entries after this version are taken back.
    Back(Version),
    /// An epoch is started.
    Started(u32),
    /// The entries up to this version are not taken back any more.
    Firm(Version),
    /// The log begins after this version.
    Trim(Version),
    /// From now on the shard is filled anew, and has no log.
    Partial,
    /// An object as it is to be, with its attributes in the order of their names.
    Put {
        name: Name,
        size: u32,
        bytes: Bytes,
        attrs: Pairs,
    },
    /// There is no such object.
    Drop(Name),
    /// There are no objects.
    Clear,
    /// The shard is whole, at this version and epoch.
    Reset(Version, u32),
}
