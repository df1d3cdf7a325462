//! Chunks by position.
ghost use Rattle.std.specs.Prelude.{◌≡◌, ◌↔◌, ◌<◌, ℕ, Some, None, length, IsSome, IsTrue};
ghost use Rattle.std.specs.Option.{option_copied};
ghost use Rattle.ec_model.specs.Codes.{HasPosition};
ghost use Rattle.stripe_map.specs.Chunks.{chunk_of_position, KeepsOthers};
ghost use Rattle.stripe_map.specs.Decoding.{AllHaveLength};

use crate::lengths::has_length;
use ec_words::{Bytes, Mask};
use std::marker::Model;
use std::mem;

/// For each position below 16 a chunk, or none. A contract sees a list of 16 options.
#[derive(Debug, Drop)]
pub struct Chunks {
    list: [Option<Bytes>; 16],
}

impl Model for Chunks {
    ghost use Rattle.std.specs.Prelude.{◌≡◌, ℕ, List, Option, length};

    ghost Value = { List (Option (List ℕ)) };

    ghost view = { λ c. c.list };

    ghost invariant = { λ c. length c.list ≡ 16 };
}

impl Chunks {
    /// No chunks. They take no memory.
    pub fn new() -> Chunks
        ensures none { (p : ℕ) → chunk_of_position result p ≡ None }
        ensures long { length result ≡ 16 }
    {
        Chunks {
            list: [
                None, None, None, None, None, None, None, None, None, None, None, None, None, None,
                None, None,
            ],
        }
    }

    /// Gives position `p` a chunk, in the place of the one that it may have.
    pub fn set(&mut self, p: u8, chunk: Bytes)
        requires { p < 16 }
        ensures value { chunk_of_position self.new p ≡ Some chunk }
        ensures others { KeepsOthers self.old self.new p }
        ensures long { length self.new ≡ 16 }
    {
        self.list[p as usize] = Some(chunk);
    }

    /// Takes the chunk of position `p` out. The position has none afterwards.
    pub fn take(&mut self, p: u8) -> Option<Bytes>
        requires { p < 16 }
        ensures value { result ≡ chunk_of_position self.old p }
        ensures none { chunk_of_position self.new p ≡ None }
        ensures others { KeepsOthers self.old self.new p }
        ensures long { length self.new ≡ 16 }
    {
        mem::replace(&mut self.list[p as usize], None)
    }

    /// The chunk of position `p`.
    pub fn get(&self, p: u8) -> Option<&[u8]>
        requires { p < 16 }
        ensures { option_copied result ≡ chunk_of_position self.now p }
    {
        match &self.list[p as usize] {
            Some(chunk) => Some(chunk.as_slice()),
            None => None,
        }
    }

    /// Whether each chunk that is there has this length.
    pub fn have_length(&self, long: usize) -> bool
        ensures { IsTrue result ↔ AllHaveLength self.now long }
    {
        let _ = &self.list;
        for p in 0..16u8 {
            if !has_length(self.get(p), long) {
                return false;
            }
        }
        true
    }

    /// The positions that have a chunk.
    pub fn mask(&self) -> Mask
        ensures value { (p : ℕ) → HasPosition result.0 p ↔ IsSome (chunk_of_position self.now p) }
        ensures long { length self.now ≡ 16 }
    {
        let mut bits = 0u16;
        for p in 0..16u8 {
            if self.list[p as usize].is_some() {
                bits |= 1u16 << p;
            }
        }
        Mask(bits)
    }
}
