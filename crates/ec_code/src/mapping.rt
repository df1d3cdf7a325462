//! The mapping and the layers of a profile, as far as a code needs them. They take no memory: only the first 16 characters of
//! a text are kept, and its length shows whether it has more.
ghost use Rattle.std.specs.Prelude.{◌≤◌};

/// A mapping: one character for each position, `D` for a data chunk.
#[derive(Clone, Copy, Debug, PartialEq, Eq)]
pub struct Mapping {
    /// The first 16 characters, and 0 past the end.
    pub first: [u8; 16],
    /// The number of characters.
    pub len: usize,
    /// The number of `D`.
    pub data_chunks: usize,
}

/// A layer: one character for each position, `D` for an input and `c` for an output.
#[derive(Clone, Copy, Debug, PartialEq, Eq)]
pub struct Layer {
    /// The first 16 characters, and 0 past the end.
    pub first: [u8; 16],
    /// The number of characters.
    pub len: usize,
}

/// The layers of a profile, first to last: at most 16.
#[derive(Clone, Copy, Debug, PartialEq, Eq)]
pub struct Layers {
    pub count: u8,
    pub each: [Layer; 16],
    ghost few: { count ≤ 16 },
}
