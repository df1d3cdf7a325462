//! What a set of positions decides, by elimination over its rows.
ghost use Rattle.std.specs.Prelude.{◌≡◌, ◌≢◌, ◌↔◌, ◌<◌, ◌≤◌, ℕ, slice_index, IsTrue, IsSome, IfSome};
ghost use Rattle.ec_model.specs.Rows.{entry_at};
ghost use Rattle.ec_model.specs.Codes.{IsCode, LiesBelow, HasPosition, DecidesOne, Decides, Combines};
ghost use Rattle.ec_matrix.specs.Matrix.{HasSize};
ghost use Rattle.ec_code.specs.Choosing.{IsChosen, IsMasked};

use crate::Code;
use ec_matrix::{Mat, Solved, solve};
use ec_words::Mask;

/// Whether any two columns that agree on all chunks of `from` agree on all of `wanted`.
pub fn decides(code: &dyn Code, from: Mask, wanted: Mask) -> bool
    requires from { LiesBelow (meaning code.now).n from.0 }
    requires wanted { LiesBelow (meaning code.now).n wanted.0 }
    ensures { IsTrue result ↔ Decides (meaning code.now) from.0 wanted.0 }
{
    for p in 0..code.shape().n {
        if wanted.has(p) && combine(code, from, p).is_none() {
            return false;
        }
    }
    true
}

/// The coefficients by which the chunks of `from` make the chunk of position `p`, if they decide it.
pub fn combine(code: &dyn Code, from: Mask, p: u8) -> Option<[u8; 16]>
    requires from { LiesBelow (meaning code.now).n from.0 }
    requires p { p < (meaning code.now).n }
    ensures value { IfSome result (Combines (meaning code.now) from.0 p) }
    ensures some { IsSome result ↔ DecidesOne (meaning code.now) from.0 p }
{
    match solve(&chosen(code, from), &row_of(code, p)) {
        Solved::Coefficients(coefficients) => Some(masked(&coefficients, from)),
        Solved::Separates(_) => None,
    }
}

/// The rows of a set at their places, and zeros elsewhere.
fn chosen(code: &dyn Code, from: Mask) -> Mat
    ensures value { IsChosen (meaning code.now) from.0 result }
    ensures is_code { IsCode (meaning code.now) }
{
    let shape = code.shape();
    let mut rows = Mat::zero(shape.n, shape.k);
    for q in 0..shape.n {
        if from.has(q) {
            set_row(&mut rows, code, q);
        }
    }
    rows
}

/// Sets one row to the code's row.
fn set_row(rows: &mut Mat, code: &dyn Code, q: u8)
    requires q { q < (meaning code.now).n }
    requires size { HasSize rows.old (meaning code.now).n (meaning code.now).k }
    ensures value { (j : ℕ) → j < (meaning code.now).k
        → entry_at rows.new.rows q j ≡ entry_at (meaning code.now).rows q j }
    ensures others { (i j : ℕ) → i ≢ q → entry_at rows.new.rows i j ≡ entry_at rows.old.rows i j }
    ensures kept { HasSize rows.new (meaning code.now).n (meaning code.now).k }
{
    for j in 0..code.shape().k {
        rows.set(q, j, code.entry(q, j));
    }
}

/// The row of a position: its `k` entries, and 0 past them.
pub fn row_of(code: &dyn Code, p: u8) -> [u8; 16]
    requires { p < (meaning code.now).n }
    ensures inside { (j : ℕ) → j < (meaning code.now).k
        → slice_index result j ≡ entry_at (meaning code.now).rows p j }
    ensures past { (j : ℕ) → (meaning code.now).k ≤ j → slice_index result j ≡ 0 }
    ensures few { (meaning code.now).k ≤ 16 }
{
    let mut row = [0u8; 16];
    for j in 0..code.shape().k {
        row[j as usize] = code.entry(p, j);
    }
    row
}

/// The coefficients of a set's positions, and 0 elsewhere.
fn masked(coefficients: &[u8; 16], from: Mask) -> [u8; 16]
    ensures { IsMasked from.0 coefficients.now result }
{
    let mut kept = [0u8; 16];
    for q in 0..16u8 {
        if from.has(q) {
            kept[q as usize] = coefficients[q as usize];
        }
    }
    kept
}
