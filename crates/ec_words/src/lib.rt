//! The words that every layer shares: lists of bytes, names, numbers, hexadecimal texts, the fields of a line, sets of
//! positions and the geometry of stripes.
//!
//! Headline: a text is read as exactly its value (`Name::read`, `read_u64`, `read_hex`, `field`).
//!
//! The line `full a 0102` has three fields, `a` is a name, and `0102` spells the bytes 1 and 2.
#![tactic(auto)]

mod bytes;
mod fault;
mod fields;
mod geometry;
mod hex_text;
mod interval;
mod laws;
mod limits;
mod mask;
mod name;
mod number;
mod reader;
mod records;
mod version;

pub use bytes::Bytes;
pub use fault::{NoMemory, WordFault};
pub use fields::{field, field_count};
pub use geometry::{Geometry, shard_len};
pub use hex_text::read_hex;
pub use interval::{Interval, Intervals};
pub use laws::{
    fields_are_between_spaces, hex_has_one_reading, hex_is_read_back, hex_text_spells_some_bytes,
};
pub use mask::Mask;
pub use name::Name;
pub use number::read_u64;
pub use reader::{Ended, Reader};
pub use records::{Cut, put_bytes, put_u32, put_u64, take_bytes, take_u32, take_u64};
pub use version::Version;
