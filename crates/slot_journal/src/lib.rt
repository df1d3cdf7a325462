//! The journal of a slot: its records. Each of them is whole on the disk before its gate is opened.
//!
//! Headline: at each instant of [`Journal::commit`] a crash leaves the records of before, or these and the new one
//! (`any_moment`, `Commits`). [`Journal::load`] gives exactly the bodies of the slot's text in use (`IsText`), or the first
//! place where that is no text (`IsBadText`).
//!
//! A record with the body 07 00000001 has the bytes 4f 00000005 07 00000001, and the byte behind it is a closed gate or
//! the next record's open one. docs/FORMAT.md has a whole text.
#![tactic(auto)]

mod bodies;
mod check;
mod fault;
mod header;
mod journal;
mod laws;
mod limits;
mod load;
mod make;
mod piece;
mod read;
mod record;
mod records;
mod write;

pub use bodies::Bodies;
pub use fault::JournalFault;
pub use header::{Header, Owner};
pub use journal::Journal;
pub use laws::{bad_texts_have_one_place, texts_have_one_reading};
pub use limits::{
    AREA_LIMIT, CLOSED_GATE, HEAD_LEN, HEADER_LEN, KNOWN_FORMATS, MAX_BODY, OPEN_GATE,
};
pub use record::{read_body_len, record_prefix};
