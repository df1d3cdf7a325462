//! The mapping and the layers that texts write.
ghost use Rattle.std.specs.Prelude.{◌≡◌, ◌≢◌, ◌==◌, ◌+◌, ◌++◌, ◌∷◌, [], ◌<◌, ◌≤◌, ℕ, length, slice_index};
ghost use Rattle.std.specs.List.{count_by};
ghost use Rattle.ec_code.specs.LayerValues.{mapping_value, layers_value};
ghost use Rattle.ec_code.specs.Mappings.{IsFront, layer_at, IsLayer};

use crate::{Layer, Layers, Mapping};

impl Mapping {
    /// The mapping that a text writes.
    pub fn of(text: &[u8]) -> Mapping
        ensures value { result ≡ mapping_value text.now }
        ensures first { IsFront text.now result.first }
        ensures len { result.len ≡ length text.now }
        ensures data_chunks { result.data_chunks ≡ count_by (λ b. b == 68) text.now }
    {
        Mapping {
            first: front(text),
            len: text.len(),
            data_chunks: text.iter().filter(|b| **b == b'D').count(),
        }
    }
}

impl Layers {
    /// No layers.
    pub fn new() -> Layers
        ensures value { result ≡ layers_value [] }
        ensures count { result.count ≡ 0 }
    {
        Layers {
            count: 0,
            each: [Layer {
                first: [0; 16],
                len: 0,
            }; 16],
        }
    }

    /// One more layer, at the end.
    pub fn add(&mut self, text: &[u8])
        requires { self.old.count < 16 }
        ensures value { (texts : _) → self.old ≡ layers_value texts → length texts < 16
            → self.new ≡ layers_value (texts ++ text.now ∷ []) }
        ensures count { self.new.count ≡ self.old.count + 1 }
        ensures layer { IsLayer text.now (layer_at self.new.each self.old.count) }
        ensures kept { (i : ℕ) → i ≢ self.old.count
            → layer_at self.new.each i ≡ layer_at self.old.each i }
    {
        self.each[self.count as usize] = Layer {
            first: front(text),
            len: text.len(),
        };
        self.count += 1;
    }
}

/// The first 16 characters of a text, and 0 past its end.
fn front(text: &[u8]) -> [u8; 16]
    ensures { IsFront text.now result }
{
    let mut first = [0u8; 16];
    for i in 0..usize::min(16, text.len()) {
        first[i] = text[i];
    }
    first
}
