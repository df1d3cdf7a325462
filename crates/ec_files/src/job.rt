//! A job over files of chunks.

/// A job: the chunks of some positions, by the code of a profile, in stripes of units of `unit` bytes. `name` is the file; the
/// chunks of position P are in `name.P`.
#[derive(Drop)]
pub struct Coding<'a> {
    pub profile: &'a str,
    pub unit: u64,
    pub wanted: Vec<u64>,
    pub name: &'a str,
}
