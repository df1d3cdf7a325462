//! Rows and columns of 16 bytes.
ghost use Rattle.std.specs.Prelude.{◌≡◌, ◌^◌, ◌<◌, ◌≤◌, ℕ, length, slice_index, bit_xor};
ghost use Rattle.ec_model.specs.Field.{field_product};
ghost use Rattle.ec_model.specs.Rows.{dot, sum_below, entry_at, unit_entry};
ghost use Rattle.ec_matrix.specs.Lines.{IsFront};

use gf256::mul;

/// The sum of the products of a row's and a column's entries.
#[tactic(auto, unfolding(ec_model::specs::Rows::sum_below))]
pub fn product_of(row: &[u8; 16], column: &[u8; 16]) -> u8
    ensures { result ≡ dot 16 row.now column.now }
{
    let mut sum = 0;
    for j in 0..16usize {
        sum ^= mul(row[j], column[j]);
    }
    sum
}

/// Multiplies each byte.
pub fn scale(column: &mut [u8; 16], by: u8)
    ensures { (j : ℕ) → j < 16 → slice_index column.new j ≡ field_product by (slice_index column.old j) }
{
    for j in 0..16usize {
        column[j] = mul(by, column[j]);
    }
}

/// Adds to each byte the product of `by` and the byte of `from` at its place.
pub fn add_times(column: &mut [u8; 16], by: u8, from: &[u8; 16])
    ensures { (j : ℕ) → j < 16 → slice_index column.new j
        ≡ bit_xor (slice_index column.old j) (field_product by (slice_index from.now j)) }
{
    for j in 0..16usize {
        column[j] ^= mul(by, from[j]);
    }
}

/// The first bytes, and 0 past them.
pub fn front(line: &[u8; 16], count: u8) -> [u8; 16]
    requires { count ≤ 16 }
    ensures { IsFront line.now result count }
{
    let mut copy = [0u8; 16];
    for j in 0..count as usize {
        copy[j] = line[j];
    }
    copy
}

/// The sum of the rows, each times its coefficient.
#[tactic(auto, unfolding(ec_model::specs::Rows::sum_below))]
pub fn combined(coefficients: &[u8; 16], rows: &[[u8; 16]; 16]) -> [u8; 16]
    ensures long { length result ≡ 16 }
    ensures sums { (j : ℕ) → j < 16 → slice_index result j
        ≡ sum_below 16 (λ t. field_product (slice_index coefficients.now t) (entry_at rows.now t j)) }
{
    let mut sum = [0u8; 16];
    for t in 0..16usize {
        add_times(&mut sum, coefficients[t], &rows[t]);
    }
    sum
}

/// The column that is 1 at one place and 0 elsewhere.
pub fn unit_column(i: usize) -> [u8; 16]
    requires { i < 16 }
    ensures { (j : ℕ) → j < 16 → slice_index result j ≡ unit_entry i j }
{
    let mut column = [0u8; 16];
    for j in 0..16usize {
        column[j] = if i == j { 1 } else { 0 };
    }
    column
}
