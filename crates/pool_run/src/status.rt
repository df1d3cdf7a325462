//! How the program ends.

/// How the program ends: the number is its exit status. docs/SCRIPT.md explains it.
#[derive(Clone, Copy, Debug, PartialEq, Eq)]
pub struct Status(pub u8);
