//! Where the data chunks stand.
ghost use Rattle.std.specs.Prelude.{◌≡◌, ◌<◌, ◌≤◌, ℕ, slice_index};
ghost use Rattle.ec_model.specs.Lrc.{IsData, mark_number};
ghost use Rattle.ec_code.specs.LrcFaults.{text_of_layer};

use crate::marks::{DATA, mark_at, number_before};
use ec_code::Layer;

/// The positions of the data chunks, from the left.
pub fn places_of(mapping: &Layer) -> [u8; 16]
    requires { mapping.now.len ≤ 16 }
    ensures { (p : ℕ) → IsData (text_of_layer mapping.now) p
        → slice_index result (mark_number 68 (text_of_layer mapping.now) p) ≡ p }
{
    let mut places = [0u8; 16];
    for p in 0..mapping.len as u8 {
        if mark_at(mapping, p) == DATA {
            places[number_before(mapping, DATA, p) as usize] = p;
        }
    }
    places
}
