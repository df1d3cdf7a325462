//! What the words ask for.

use ec_files::Coding;

/// What the words ask for.
#[derive(Drop)]
pub enum Request<'a> {
    Wrong,
    Exists(&'a str),
    Validate(&'a str, &'a [String]),
    Size(&'a str, u64),
    Encode(Coding<'a>),
    Decode(Coding<'a>),
}
