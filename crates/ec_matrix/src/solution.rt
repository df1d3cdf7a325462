//! Whether the rows of a matrix make a wanted row.
ghost use Rattle.std.specs.Prelude.{◌≡◌, ◌<◌, ◌≤◌, ℕ, None, length, slice_index};
ghost use Rattle.ec_model.specs.Rows.{dot};
ghost use Rattle.ec_matrix.specs.Columns.{column_at, owner, IsReduced};
ghost use Rattle.ec_matrix.specs.Solution.{CombinesTo, TellsApart, Makes};

use crate::Mat;
use crate::columns::{pivot_of, reduce, unit_columns};
use crate::lines::{add_times, front, product_of};

/// How some rows make a wanted row, or a column that tells it apart from them.
#[derive(Clone, Copy)]
pub enum Solved {
    /// A coefficient for each row, and 0 past the rows.
    Coefficients([u8; 16]),
    /// A column that is 0 on each row and not 0 on the wanted row, with 0 past the width.
    Separates([u8; 16]),
}

/// The coefficients of a row that is 0 on the free columns.
fn coefficients(
    columns: &[[u8; 16]; 16],
    owners: &[Option<usize>; 16],
    rows: &[[u8; 16]; 16],
    height: u8,
    wanted: &[u8; 16],
) -> [u8; 16]
    requires few { height ≤ 16 }
    requires reduced { IsReduced rows.now columns.now owners.now height }
    requires inside { (i : ℕ) → i < 16 → owner owners.now i ≡ None
        → dot 16 wanted.now (column_at columns.now i) ≡ 0 }
    ensures { Makes rows.now height wanted.now result }
{
    let mut left = *wanted;
    let mut coefficients = [0u8; 16];
    for i in 0..16usize {
        match owners[i] {
            Some(q) => {
                let coefficient = product_of(&left, &columns[i]);
                add_times(&mut left, coefficient, &rows[q]);
                coefficients[q] ^= coefficient;
            }
            None => {}
        }
    }
    coefficients
}

/// Coefficients that make the wanted row of the matrix's rows, or a column that shows that there are no such coefficients.
/// The entries of `wanted` past the matrix's width are not looked at.
pub fn solve(rows: &Mat, wanted: &[u8; 16]) -> Solved
    ensures combines { (c : _) → result ≡ Solved.Coefficients c → CombinesTo rows.now wanted.now c }
    ensures tells_apart { (d : _) → result ≡ Solved.Separates d → TellsApart rows.now wanted.now d }
{
    let (height, width) = (rows.rows(), rows.cols());
    let lines = rows.lines();
    let inside = front(wanted, width);
    let mut columns = unit_columns();
    let mut owners: [Option<usize>; 16] = [None; 16];
    for at in 0..height {
        reduce(&mut columns, &mut owners, lines, at as usize);
    }
    match pivot_of(&columns, &owners, &inside) {
        Some(place) => Solved::Separates(front(&columns[place], width)),
        None => Solved::Coefficients(coefficients(&columns, &owners, lines, height, &inside)),
    }
}
