//! Attributes as a list.
ghost use Rattle.std.specs.Prelude.{◌≡◌, List, ℕ};

use ec_words::{Bytes, Name};
use std::marker::Model;

/// Names of attributes with their values, as a `Put` carries them. A contract sees the list.
#[derive(Drop)]
pub struct Pairs {
    list: Vec<(Name, Bytes)>,
}

impl Model for Pairs {
    ghost Value = { List (List ℕ × List ℕ) };

    ghost view = { λ p. p.list.items };
}

impl Pairs {
    /// The pairs of a `Vec`. It is taken over as it is.
    pub fn of(list: Vec<(Name, Bytes)>) -> Pairs
        ensures { result ≡ list.items }
    {
        Pairs { list }
    }

    /// The `Vec` that holds the pairs.
    pub fn into_vec(self) -> Vec<(Name, Bytes)>
        ensures { result.items ≡ self }
    {
        self.list
    }

    /// The pairs.
    pub fn as_slice(&self) -> &[(Name, Bytes)]
        ensures { result.now ≡ self.now }
    {
        self.list.as_slice()
    }
}
