//! What is asked of a mapping and its layers.
ghost use Rattle.std.specs.Prelude.{◌≡◌, ◌↔◌, ◌⊎◌, ◌<◌, ◌≤◌, ℕ, IsTrue, length};
ghost use Rattle.ec_model.specs.Lrc.{IsMadeBefore, HasLengthFault, LacksInput, HasInputFault, LacksOutput, HasOutputFault, data_count};
ghost use Rattle.ec_code.specs.Bounds.{Given};
ghost use Rattle.ec_code.specs.LrcFaults.{text_of_layer, layer_texts};

use crate::marks::{CODING, DATA, count_of, layer_of, mark_at};
use ec_code::{Layer, Layers};

/// Whether some layer is not as long as the mapping.
pub fn has_length_fault(mapping: &Layer, layers: &Layers) -> bool
    ensures { IsTrue result ↔ HasLengthFault (text_of_layer mapping.now) (layer_texts layers.now) }
{
    for i in 0..layers.count {
        if layer_of(layers, i).len != mapping.len {
            return true;
        }
    }
    false
}

/// Whether a position is a data chunk, or an output of a layer before this one.
fn is_made_before(mapping: &Layer, layers: &Layers, i: u8, p: u8) -> bool
    requires i { i ≤ layers.now.count }
    requires p { p < 16 }
    ensures { IsTrue result ↔ IsMadeBefore (text_of_layer mapping.now) (layer_texts layers.now) i p }
{
    if mark_at(mapping, p) == DATA {
        return true;
    }
    for h in 0..i {
        if mark_at(&layer_of(layers, h), p) == CODING {
            return true;
        }
    }
    false
}

/// Whether a layer has too few inputs, or an input that is not made before it.
fn lacks_input(mapping: &Layer, layers: &Layers, i: u8) -> bool
    requires i { i < layers.now.count }
    requires few { mapping.now.len ≤ 16 }
    requires lengths { HasLengthFault (text_of_layer mapping.now) (layer_texts layers.now) → ⊥ }
    ensures { IsTrue result ↔ LacksInput (text_of_layer mapping.now) (layer_texts layers.now) i }
{
    let layer = layer_of(layers, i);
    if count_of(&layer, DATA) < 2 {
        return true;
    }
    for p in 0..16u8 {
        if mark_at(&layer, p) == DATA && !is_made_before(mapping, layers, i, p) {
            return true;
        }
    }
    false
}

/// Whether some layer lacks an input.
pub fn has_input_fault(mapping: &Layer, layers: &Layers) -> bool
    requires few { mapping.now.len ≤ 16 }
    requires lengths { HasLengthFault (text_of_layer mapping.now) (layer_texts layers.now) → ⊥ }
    ensures { IsTrue result ↔ HasInputFault (text_of_layer mapping.now) (layer_texts layers.now) }
{
    for i in 0..layers.count {
        if lacks_input(mapping, layers, i) {
            return true;
        }
    }
    false
}

/// Whether a layer has no output, or an output that is made before it.
fn lacks_output(mapping: &Layer, layers: &Layers, i: u8) -> bool
    requires i { i < layers.now.count }
    requires few { mapping.now.len ≤ 16 }
    requires lengths { HasLengthFault (text_of_layer mapping.now) (layer_texts layers.now) → ⊥ }
    ensures { IsTrue result ↔ LacksOutput (text_of_layer mapping.now) (layer_texts layers.now) i }
{
    let layer = layer_of(layers, i);
    if count_of(&layer, CODING) < 1 {
        return true;
    }
    for p in 0..16u8 {
        if mark_at(&layer, p) == CODING && is_made_before(mapping, layers, i, p) {
            return true;
        }
    }
    false
}

/// Whether some layer lacks an output.
fn has_idle_layer(mapping: &Layer, layers: &Layers) -> bool
    requires few { mapping.now.len ≤ 16 }
    requires lengths { HasLengthFault (text_of_layer mapping.now) (layer_texts layers.now) → ⊥ }
    ensures { IsTrue result ↔ ((i : ℕ) × (i < layers.now.count)
        × LacksOutput (text_of_layer mapping.now) (layer_texts layers.now) i) }
{
    for i in 0..layers.count {
        if lacks_output(mapping, layers, i) {
            return true;
        }
    }
    false
}

/// Whether all layers leave a position out.
fn leaves_position_out(mapping: &Layer, layers: &Layers) -> bool
    requires { mapping.now.len ≤ 16 }
    ensures { IsTrue result ↔ ((p : ℕ) × (p < mapping.now.len)
        × (IsMadeBefore (text_of_layer mapping.now) (layer_texts layers.now) layers.now.count p → ⊥)) }
{
    for p in 0..mapping.len as u8 {
        if !is_made_before(mapping, layers, layers.count, p) {
            return true;
        }
    }
    false
}

/// Whether some layer lacks an output, or no layer makes some position.
pub fn has_output_fault(mapping: &Layer, layers: &Layers) -> bool
    requires few { mapping.now.len ≤ 16 }
    requires lengths { HasLengthFault (text_of_layer mapping.now) (layer_texts layers.now) → ⊥ }
    ensures { IsTrue result ↔ HasOutputFault (text_of_layer mapping.now) (layer_texts layers.now) }
{
    has_idle_layer(mapping, layers) || leaves_position_out(mapping, layers)
}

/// Whether the least number of positions is below the number of data chunks or above that of all.
pub fn is_out_of_range(least: Option<u32>, mapping: &Layer) -> bool
    requires { mapping.now.len ≤ 16 }
    ensures { IsTrue result ↔ Given least (λ least.
        (least < data_count (text_of_layer mapping.now)) ⊎ (length (text_of_layer mapping.now) < least)) }
{
    match least {
        Some(least) => least < u32::from(count_of(mapping, DATA)) || mapping.len < least as usize,
        None => false,
    }
}
