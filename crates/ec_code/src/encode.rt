//! The chunks of a stripe, by the rows of a code.
ghost use Rattle.std.specs.Prelude.{◌≡◌, ◌+◌, ◌*◌, ◌<◌, ◌≤◌, ℕ, length, slice_index, bit_xor};
ghost use Rattle.ec_model.specs.Field.{field_product};
ghost use Rattle.ec_code.specs.Encoding.{IsChunk, AreChunks};

use gf256::mul_add_into;

/// Adds a multiple of the unit of a stripe that begins at `at`.
fn add_unit(coefficient: u8, stripe: &[u8], at: usize, chunk: &mut [u8])
    requires { at + length chunk.old ≤ length stripe.now }
    ensures { (b : ℕ) → b < length chunk.old → slice_index chunk.new b
        ≡ bit_xor (slice_index chunk.old b) (field_product coefficient (slice_index stripe.now (at + b))) }
{
    let unit = &stripe[at..at + chunk.len()];
    mul_add_into(coefficient, chunk, unit);
}

fn clear(chunk: &mut [u8])
    ensures { (b : ℕ) → b < length chunk.old → slice_index chunk.new b ≡ 0 }
{
    for x in chunk.iter_mut() {
        *x = 0;
    }
}

/// Writes a multiple of the unit of a stripe that begins at `at`. Most rows begin with 1, and that is a copy.
fn put_unit(coefficient: u8, stripe: &[u8], at: usize, chunk: &mut [u8])
    requires { at + length chunk.old ≤ length stripe.now }
    ensures { (b : ℕ) → b < length chunk.old → slice_index chunk.new b
        ≡ field_product coefficient (slice_index stripe.now (at + b)) }
{
    if coefficient == 1 {
        chunk.copy_from_slice(&stripe[at..at + chunk.len()]);
    } else {
        clear(chunk);
        add_unit(coefficient, stripe, at, chunk);
    }
}

/// How many of the first `k` entries of a row are 0 before the first other entry.
fn leading_zeros(row: &[u8; 16], k: u8) -> usize
    requires { k ≤ 16 }
    ensures most { result ≤ k }
    ensures zeros { (j : ℕ) → j < result → slice_index row.now j ≡ 0 }
{
    for j in 0..k as usize {
        if row[j] != 0 {
            return j;
        }
    }
    k as usize
}

/// The chunk of a stripe of `k` units at one row.
pub fn encode_chunk(row: &[u8; 16], k: u8, stripe: &[u8], unit: usize, chunk: &mut [u8])
    requires k { k ≤ 16 }
    requires stripe { length stripe.now ≡ k * unit }
    requires unit { length chunk.old ≡ unit }
    ensures { IsChunk k row.now stripe.now unit chunk.new }
{
    let first = leading_zeros(row, k);
    if first == k as usize {
        clear(chunk);
        return;
    }
    put_unit(row[first], stripe, first * unit, chunk);
    for j in first + 1..k as usize {
        add_unit(row[j], stripe, j * unit, chunk);
    }
}

/// The chunks of a stripe of `k` units at the first `n` rows, one after another.
pub fn encode_rows(rows: &[[u8; 16]; 16], k: u8, n: u8, stripe: &[u8], unit: usize, out: &mut [u8])
    requires k { k ≤ 16 }
    requires n { n ≤ 16 }
    requires stripe { length stripe.now ≡ k * unit }
    requires out { length out.old ≡ n * unit }
    ensures { AreChunks k rows.now stripe.now unit out.new n }
{
    for p in 0..n as usize {
        let at = p * unit;
        encode_chunk(&rows[p], k, stripe, unit, &mut out[at..at + unit]);
    }
}
