//! A basis of the columns, reduced row by row: a row takes a free column on which it is not 0, and is then 1 on that
//! column and 0 on the others.
ghost use Rattle.std.specs.Prelude.{◌≡◌, ◌≢◌, ◌+◌, ◌<◌, ℕ, None, bit_xor, slice_index, IfSome, IfNone};
ghost use Rattle.ec_model.specs.Field.{field_product};
ghost use Rattle.ec_model.specs.Rows.{dot, row_at, unit_entry};
ghost use Rattle.ec_matrix.specs.Columns.{column_at, owner, IsReduced};

use crate::lines::{add_times, product_of, scale, unit_column};
use gf256::inv;

/// The columns before any row.
pub fn unit_columns() -> [[u8; 16]; 16]
    ensures { (i j : ℕ) → i < 16 → j < 16 → slice_index (column_at result i) j ≡ unit_entry i j }
{
    let mut columns = [[0u8; 16]; 16];
    for i in 0..16usize {
        columns[i] = unit_column(i);
    }
    columns
}

/// A free column on which the row is not 0.
pub fn pivot_of(
    columns: &[[u8; 16]; 16],
    owners: &[Option<usize>; 16],
    row: &[u8; 16],
) -> Option<usize>
    ensures place { IfSome result (λ p. p < 16) }
    ensures free { IfSome result (λ p. owner owners.now p ≡ None) }
    ensures nonzero { IfSome result (λ p. dot 16 row.now (column_at columns.now p) ≢ 0) }
    ensures none { IfNone result
        ((i : ℕ) → i < 16 → owner owners.now i ≡ None → dot 16 row.now (column_at columns.now i) ≡ 0) }
{
    for i in 0..16usize {
        if owners[i].is_none() && product_of(row, &columns[i]) != 0 {
            return Some(i);
        }
    }
    None
}

#[tactic(auto, using(crate::proofs::SumLaws::dot_of_sum))]
fn add_column(columns: &mut [[u8; 16]; 16], i: usize, by: u8, pivot: usize)
    requires place { i < 16 }
    requires pivot { pivot < 16 }
    ensures sums { (x : _) → dot 16 x (column_at columns.new i)
        ≡ bit_xor (dot 16 x (column_at columns.old i)) (field_product by (dot 16 x (column_at columns.old pivot))) }
    ensures others { (k : ℕ) → k ≢ i → column_at columns.new k ≡ column_at columns.old k }
{
    let from = columns[pivot];
    let mut column = columns[i];
    add_times(&mut column, by, &from);
    columns[i] = column;
}

/// Adds multiples of the pivot column to the other columns, so that the row is 0 on these. The row is 1 on the pivot column.
fn clear(columns: &mut [[u8; 16]; 16], pivot: usize, row: &[u8; 16])
    requires { pivot < 16 }
    ensures pivot { column_at columns.new pivot ≡ column_at columns.old pivot }
    ensures others { (i : ℕ) (x : _) → i < 16 → i ≢ pivot → dot 16 x (column_at columns.new i)
        ≡ bit_xor (dot 16 x (column_at columns.old i))
        (field_product (dot 16 row.now (column_at columns.old i)) (dot 16 x (column_at columns.old pivot))) }
{
    for i in 0..16usize {
        if i != pivot {
            let by = product_of(row, &columns[i]);
            add_column(columns, i, by, pivot);
        }
    }
}

/// Reduces the columns by one more row.
pub fn reduce(
    columns: &mut [[u8; 16]; 16],
    owners: &mut [Option<usize>; 16],
    rows: &[[u8; 16]; 16],
    at: usize,
)
    requires place { at < 16 }
    requires before { IsReduced rows.now columns.old owners.old at }
    ensures { IsReduced rows.now columns.new owners.new (at + 1) }
{
    let row = rows[at];
    match pivot_of(columns, owners, &row) {
        None => {}
        Some(pivot) => {
            let mut column = columns[pivot];
            let by = inv(product_of(&row, &column));
            scale(&mut column, by);
            columns[pivot] = column;
            clear(columns, pivot, &row);
            owners[pivot] = Some(at);
        }
    }
}
