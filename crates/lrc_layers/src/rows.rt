//! The rows of the code.
ghost use Rattle.std.specs.Prelude.{◌≡◌, ◌<◌, ◌≤◌, ℕ, slice_index};
ghost use Rattle.ec_model.specs.Field.{field_product};
ghost use Rattle.ec_model.specs.Rows.{sum_below, unit_entry, entry_at};
ghost use Rattle.ec_model.specs.Lrc.{IsData, IsCoding, mark_number, layer_text, AreCoefficients, IsMadeBy};
ghost use Rattle.ec_code.specs.LrcFaults.{text_of_layer, layer_texts};
ghost use Rattle.lrc_layers.specs.Layouts.{IsSound};

use crate::marks::{CODING, DATA, count_of, layer_of, mark_at, number_before};
use ec_code::{Layer, Layers};
use gf256::mul;
use rs_van::{coding_entry, unit_row};

/// Entry `j` of the sum of the first `n` rows, each times its coefficient.
#[tactic(auto, unfolding(ec_model::specs::Rows::sum_below))]
fn sum_at(coefficients: &[u8; 16], rows: &[[u8; 16]; 16], n: u8, j: u8) -> u8
    requires n { n ≤ 16 }
    requires j { j < 16 }
    ensures { result ≡ sum_below n (λ q. field_product (slice_index coefficients.now q) (entry_at rows.now q j)) }
{
    let mut sum = 0;
    for q in 0..n as usize {
        sum ^= mul(coefficients[q], rows[q][j as usize]);
    }
    sum
}

/// The sum of the first `n` rows, each times its coefficient.
fn combined(coefficients: &[u8; 16], rows: &[[u8; 16]; 16], n: u8) -> [u8; 16]
    requires { n ≤ 16 }
    ensures { (j : ℕ) → j < 16 → slice_index result j
        ≡ sum_below n (λ q. field_product (slice_index coefficients.now q) (entry_at rows.now q j)) }
{
    let mut sum = [0u8; 16];
    for j in 0..16u8 {
        sum[j as usize] = sum_at(coefficients, rows, n, j);
    }
    sum
}

/// The coefficients, by position, of the output of a layer at `p`.
fn coefficients_of(layer: &Layer, p: u8) -> [u8; 16]
    requires few { layer.now.len ≤ 16 }
    requires output { IsCoding (text_of_layer layer.now) p }
    ensures { AreCoefficients (text_of_layer layer.now) (mark_number 99 (text_of_layer layer.now) p) result }
{
    let (k, m) = (count_of(layer, DATA), count_of(layer, CODING));
    let r = number_before(layer, CODING, p);
    let mut coefficients = [0u8; 16];
    for q in 0..16u8 {
        if mark_at(layer, q) == DATA {
            coefficients[q as usize] = coding_entry(k, m, r, number_before(layer, DATA, q));
        }
    }
    coefficients
}

/// Sets the rows at a layer's outputs.
fn add_layer(rows: &mut [[u8; 16]; 16], layer: &Layer)
    requires { layer.now.len ≤ 16 }
    ensures made { (p : ℕ) → IsCoding (text_of_layer layer.now) p
        → IsMadeBy (text_of_layer layer.now) rows.new 16 p }
    ensures kept { (q j : ℕ) → (IsCoding (text_of_layer layer.now) q → ⊥)
        → entry_at rows.new q j ≡ entry_at rows.old q j }
{
    for p in 0..layer.len as u8 {
        if mark_at(layer, p) == CODING {
            rows[p as usize] = combined(&coefficients_of(layer, p), rows, layer.len as u8);
        }
    }
}

/// Unit rows at the data chunks of a mapping, numbered from the left.
fn data_rows(mapping: &Layer) -> [[u8; 16]; 16]
    requires { mapping.now.len ≤ 16 }
    ensures { (p j : ℕ) → IsData (text_of_layer mapping.now) p → j < 16
        → entry_at result p j ≡ unit_entry (mark_number 68 (text_of_layer mapping.now) p) j }
{
    let mut rows = [[0u8; 16]; 16];
    for p in 0..mapping.len as u8 {
        if mark_at(mapping, p) == DATA {
            rows[p as usize] = unit_row(number_before(mapping, DATA, p));
        }
    }
    rows
}

/// The rows that a mapping and its layers make, layer by layer.
pub fn rows_of(mapping: &Layer, layers: &Layers) -> [[u8; 16]; 16]
    requires { IsSound (text_of_layer mapping.now) (layer_texts layers.now) }
    ensures units { (p j : ℕ) → IsData (text_of_layer mapping.now) p → j < 16
        → entry_at result p j ≡ unit_entry (mark_number 68 (text_of_layer mapping.now) p) j }
    ensures outputs { (i p : ℕ) → IsCoding (layer_text (layer_texts layers.now) i) p
        → IsMadeBy (layer_text (layer_texts layers.now) i) result 16 p }
{
    let mut rows = data_rows(mapping);
    for i in 0..layers.count {
        add_layer(&mut rows, &layer_of(layers, i));
    }
    rows
}
