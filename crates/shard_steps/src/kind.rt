//! Kinds of entries.

/// What an entry did.
#[derive(Clone, Copy)]
pub enum Kind {
    Write,
    Replace,
    Remove,
    SetAttr,
    RemoveAttr,
}
