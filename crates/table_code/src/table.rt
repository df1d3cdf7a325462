//! Tables that are codes.
ghost use Rattle.std.specs.Prelude.{◌≡◌, ◌↔◌, ◌<◌, ◌≤◌, ℕ, IsTrue, IsSome, IfSome};
ghost use Rattle.ec_model.specs.Rows.{unit_entry, entry_at};
ghost use Rattle.ec_model.specs.Codes.{IsCode};
ghost use Rattle.ec_code.specs.Tables.{code_of};

use ec_code::{Shape, read_rows};

/// Rows and data positions that are those of a code.
#[derive(Clone, Copy)]
pub struct Table {
    pub k: u8,
    pub n: u8,
    pub lead: u8,
    pub rows: [[u8; 16]; 16],
    pub places: [u8; 16],
    ghost is_code: { IsCode (code_of k n lead rows places) },
}

impl Table {
    /// The table of these rows and data positions. `None` if they are no code.
    pub fn of(shape: Shape, rows: [[u8; 16]; 16], places: [u8; 16]) -> Option<Table>
        ensures value { IfSome result (λ t. code_of t.k t.n t.lead t.rows t.places
            ≡ code_of shape.k shape.n shape.lead rows places) }
        ensures some { IsSome result ↔ IsCode (code_of shape.k shape.n shape.lead rows places) }
    {
        if !is_code(shape, &rows, &places) {
            return None;
        }
        Some(Table {
            k: shape.k,
            n: shape.n,
            lead: shape.lead,
            rows,
            places,
        })
    }
}

fn is_code(shape: Shape, rows: &[[u8; 16]; 16], places: &[u8; 16]) -> bool
    ensures { IsTrue result ↔ IsCode (code_of shape.k shape.n shape.lead rows.now places.now) }
{
    if shape.k < 1 || shape.n < shape.k || 16 < shape.n || shape.lead < 1 {
        return false;
    }
    read_rows(rows);
    for i in 0..shape.k {
        if !is_placed(rows, places[i as usize], i, shape) {
            return false;
        }
    }
    true
}

/// Whether data chunk `i` may stand at a position.
fn is_placed(rows: &[[u8; 16]; 16], place: u8, i: u8, shape: Shape) -> bool
    requires k { shape.k ≤ 16 }
    requires n { shape.n ≤ 16 }
    ensures { IsTrue result ↔ ((place < shape.n)
        × ((j : ℕ) → j < shape.k → entry_at rows.now place j ≡ unit_entry i j)) }
{
    if shape.n <= place {
        return false;
    }
    let row = rows[place as usize];
    for j in 0..shape.k {
        if row[j as usize] != u8::from(i == j) {
            return false;
        }
    }
    true
}
