//! The bodies of records, in order.
ghost use Rattle.std.specs.Prelude.{◌≡◌, [], ℕ, List, length, slice_get};
ghost use Rattle.std.specs.Option.{option_copied};

use ec_words::Bytes;
use std::alloc::Global;
use std::marker::Model;

/// The bodies of records, in order. A contract sees the list of their lists of bytes.
#[derive(Drop)]
pub struct Bodies {
    list: Vec<Bytes>,
}

impl Model for Bodies {
    ghost Value = { List (List ℕ) };

    ghost view = { λ b. b.list.items };
}

impl Bodies {
    /// An empty list of bodies. It takes no memory yet.
    pub fn new(alloc: Global) -> Bodies
        ensures { result ≡ [] }
    {
        Bodies {
            list: Vec::new(alloc),
        }
    }

    /// The bodies of a `Vec`. It is taken over as it is.
    pub fn of(list: Vec<Bytes>) -> Bodies
        ensures { result ≡ list.items }
    {
        Bodies { list }
    }

    /// The `Vec` that holds the bodies.
    pub fn into_vec(self) -> Vec<Bytes>
        ensures { result.items ≡ self }
    {
        self.list
    }

    /// The bodies.
    pub fn as_slice(&self) -> &[Bytes]
        ensures { result.now ≡ self.now }
    {
        self.list.as_slice()
    }
}
