//! Profiles: a code is made from one.
ghost use Rattle.std.specs.Prelude.{◌≡◌};
ghost use Rattle.ec_code.specs.Profiles.{name_of};

use crate::{Layers, Mapping};

/// The codes that a profile can name.
#[derive(Clone, Copy, Debug, PartialEq, Eq)]
pub enum Plugin {
    Jerasure,
    Lrc,
    Shec,
}

impl Plugin {
    /// The name as a profile writes it.
    pub fn name(self) -> &'static str
        ensures { result.now ≡ name_of self }
    {
        match self {
            Plugin::Jerasure => "jerasure",
            Plugin::Lrc => "lrc",
            Plugin::Shec => "shec",
        }
    }
}

/// `reed_sol_van`, `single`, or a text that is neither.
#[derive(Clone, Copy, Debug, PartialEq, Eq)]
pub enum Technique {
    ReedSolVan,
    Single,
    Other,
}

/// The settings of a code. A setting that the profile leaves out is `None`.
#[derive(Clone, Copy, Debug, PartialEq, Eq)]
pub struct Profile {
    pub plugin: Plugin,
    pub k: Option<u32>,
    pub m: Option<u32>,
    pub c: Option<u32>,
    pub l: Option<u32>,
    pub w: Option<u32>,
    pub technique: Option<Technique>,
    pub mapping: Option<Mapping>,
    pub layers: Option<Layers>,
    /// Bytes of a chunk in one stripe.
    pub stripe_unit: u32,
    pub min_size: Option<u32>,
}
