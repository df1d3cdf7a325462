//! How the chunks of a set that decides the data positions make them.
ghost use Rattle.std.specs.Prelude.{◌≡◌, ◌<◌, ◌≤◌, ℕ, ◌+◌, length, slice_index, bit_xor};
ghost use Rattle.std.specs.Option.{option_copied};
ghost use Rattle.ec_model.specs.Codes.{LiesBelow, DecidesOne, Combines};
ghost use Rattle.ec_model.specs.Field.{field_product};
ghost use Rattle.ec_model.specs.Rows.{sum_below, row_at, unit_entry};
ghost use Rattle.stripe_map.specs.Chunks.{chunk_of_position};
ghost use Rattle.stripe_map.specs.Decoding.{DecidesData, AllHaveLength, HasLength, bytes_of, made_byte};

use crate::Chunks;
use ec_code::{Code, combine};
use ec_words::Mask;
use gf256::mul_add_into;

/// For each data position, the coefficients by which the chunks of a set make its list.
pub fn data_rows(code: &dyn Code, from: Mask) -> [[u8; 16]; 16]
    requires below { LiesBelow (meaning code.now).n from.0 }
    requires decided { DecidesData (meaning code.now) from.0 }
    ensures { (j : ℕ) → j < (meaning code.now).k
        → Combines (meaning code.now) from.0 (slice_index (meaning code.now).places j) (row_at result j) }
{
    let mut rows = [[0u8; 16]; 16];
    for j in 0..code.shape().k {
        rows[j as usize] = data_row(code, from, j);
    }
    rows
}

// The coefficients of a data position: its own chunk alone if it is in the set.
fn data_row(code: &dyn Code, from: Mask, j: u8) -> [u8; 16]
    requires below { LiesBelow (meaning code.now).n from.0 }
    requires j { j < (meaning code.now).k }
    requires decided { DecidesOne (meaning code.now) from.0 (slice_index (meaning code.now).places j) }
    ensures { Combines (meaning code.now) from.0 (slice_index (meaning code.now).places j) result }
{
    let p = code.place(j);
    if from.has(p) {
        return unit_row(p);
    }
    match combine(code, from, p) {
        Some(coefficients) => coefficients,
        None => [0; 16],
    }
}

fn unit_row(p: u8) -> [u8; 16]
    requires { p < 16 }
    ensures long { length result ≡ 16 }
    ensures entries { (q : ℕ) → q < 16 → slice_index result q ≡ unit_entry p q }
{
    let mut row = [0u8; 16];
    row[p as usize] = 1;
    row
}

/// Makes the piece of a position's list that begins at `at`, from the chunks of the first `n` positions.
pub fn make_piece(n: u8, row: &[u8; 16], chunks: &Chunks, at: usize, long: usize, piece: &mut [u8])
    requires n { n ≤ 16 }
    requires lengths { AllHaveLength chunks.now long }
    requires inside { at + length piece.old ≤ long }
    ensures value { (b : ℕ) → b < length piece.old → slice_index piece.new b ≡ made_byte n row.now chunks.now (at + b) }
    ensures long { length piece.new ≡ length piece.old }
{
    piece.fill(0);
    for q in 0..n {
        add_chunk(row[q as usize], chunks.get(q), at, long, piece);
    }
}

// Adds a multiple of a piece of a chunk, if the chunk is there.
fn add_chunk(coefficient: u8, chunk: Option<&[u8]>, at: usize, long: usize, piece: &mut [u8])
    requires lengths { HasLength (option_copied chunk) long }
    requires inside { at + length piece.old ≤ long }
    ensures value { (b : ℕ) → b < length piece.old → slice_index piece.new b
        ≡ bit_xor (slice_index piece.old b) (field_product coefficient (slice_index (bytes_of (option_copied chunk.entry)) (at + b))) }
    ensures long { length piece.new ≡ length piece.old }
{
    match chunk {
        Some(bytes) => mul_add_into(coefficient, piece, &bytes[at..at + piece.len()]),
        None => {}
    }
}
