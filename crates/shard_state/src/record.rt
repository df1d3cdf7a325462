//! Entries as the state keeps them.
use crate::attrs::SpareAttrs;
use crate::entry::Entry;

/// An entry, and room for an attribute that is put back when it is taken back.
#[derive(Drop)]
pub(crate) struct Record {
    pub entry: Entry,
    pub spare: SpareAttrs,
}
