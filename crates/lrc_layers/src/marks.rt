//! The marks of a mapping and of a layer.
ghost use Rattle.std.specs.Prelude.{◌≡◌, ◌<◌, ◌≤◌, slice_index};
ghost use Rattle.ec_model.specs.Lrc.{mark_count, mark_number, layer_text};
ghost use Rattle.ec_code.specs.LrcFaults.{text_of_layer, layer_texts};

use ec_code::{Layer, Layers};

/// The mark of a data chunk in a mapping, and of an input in a layer.
pub const DATA: u8 = b'D';

/// The mark of an output.
pub const CODING: u8 = b'c';

/// The character at a position, and 0 past the end.
pub fn mark_at(text: &Layer, p: u8) -> u8
    requires { p < 16 }
    ensures { result ≡ slice_index (text_of_layer text.now) p }
{
    if (p as usize) < text.len {
        text.first[p as usize]
    } else {
        0
    }
}

/// How often a text has a mark before a position.
pub fn number_before(text: &Layer, mark: u8, p: u8) -> u8
    requires inside { p ≤ text.now.len }
    requires p { p ≤ 16 }
    ensures value { result ≡ mark_number mark (text_of_layer text.now) p }
    ensures few { result ≤ p }
{
    let mut count = 0u8;
    for q in 0..p {
        if mark_at(text, q) == mark {
            count += 1;
        }
    }
    count
}

/// How often a text has a mark.
pub fn count_of(text: &Layer, mark: u8) -> u8
    requires { text.now.len ≤ 16 }
    ensures value { result ≡ mark_count mark (text_of_layer text.now) }
    ensures few { result ≤ text.now.len }
{
    number_before(text, mark, text.len as u8)
}

/// One of the layers.
pub fn layer_of(layers: &Layers, i: u8) -> Layer
    requires { i < layers.now.count }
    ensures { text_of_layer result ≡ layer_text (layer_texts layers.now) i }
{
    layers.each[i as usize]
}
