//! One row subtracted from the others.
ghost use Rattle.std.specs.Prelude.{◌≡◌, ◌≢◌, ◌<◌, ◌^◌, ℕ, slice_index, bit_xor, length, ◌↔◌, IsTrue, IfSome, IfNone};
ghost use Rattle.ec_model.specs.Field.{field_product};
ghost use Rattle.ec_model.specs.Rows.{row_at, entry_at};
ghost use Rattle.ec_model.specs.Codes.{HasPosition};
ghost use Rattle.read_plan.specs.Settling.{Settles, IsLineLess, IsTaken, IsWith};

use ec_words::Mask;
use gf256::{inv, mul};

/// The first place at which a row is not 0.
pub fn lead_of(row: &[u8; 16]) -> Option<u8>
    ensures place { IfSome result (λ i. i < 16) }
    ensures nonzero { IfSome result (λ i. slice_index row.now i ≢ 0) }
    ensures byte { IfSome result (λ i. slice_index row.now i < 2 ^ 8) }
    ensures none { IfNone result ((i : ℕ) → i < 16 → slice_index row.now i ≡ 0) }
{
    for i in 0..16u8 {
        if row[i as usize] != 0 {
            return Some(i);
        }
    }
    None
}

fn add_times(line: &mut [u8; 16], by: u8, row: &[u8; 16])
    ensures { (j : ℕ) → j < 16 → slice_index line.new j
        ≡ bit_xor (slice_index line.old j) (field_product by (slice_index row.now j)) }
{
    for j in 0..16usize {
        line[j] ^= mul(by, row[j]);
    }
}

/// A line less a multiple of a row.
fn reduced(line: &[u8; 16], times: u8, row: &[u8; 16]) -> [u8; 16]
    ensures value { (j : ℕ) → j < 16 → slice_index result j
        ≡ bit_xor (slice_index line.now j) (field_product times (slice_index row.now j)) }
    ensures long { length result ≡ 16 }
{
    let mut left = *line;
    if times != 0 {
        add_times(&mut left, times, row);
    }
    left
}

/// The multiple of a row.
fn scaled(row: &[u8; 16], by: u8) -> [u8; 16]
    ensures { (j : ℕ) → j < 16 → slice_index result j ≡ field_product by (slice_index row.now j) }
{
    let mut multiple = [0u8; 16];
    for j in 0..16usize {
        multiple[j] = mul(by, row[j]);
    }
    multiple
}

/// The needed rows, each less its multiple of a row that is 1 at `lead`.
fn all_reduced(rows: &[[u8; 16]; 16], row: &[u8; 16], lead: u8, needed: Mask) -> [[u8; 16]; 16]
    requires { lead < 16 }
    ensures { (p j : ℕ) → p < 16 → j < 16 → HasPosition needed.0 p → entry_at result p j
        ≡ bit_xor (entry_at rows.now p j) (field_product (entry_at rows.now p lead) (slice_index row.now j)) }
{
    let mut left = *rows;
    for p in 0..16u8 {
        if needed.has(p) {
            let line = &rows[p as usize];
            left[p as usize] = reduced(line, line[lead as usize], row);
        }
    }
    left
}

/// Whether the rows of a set are 0 once each is less its multiple of the row that is given.
fn all_vanish(rows: &[[u8; 16]; 16], row: &[u8; 16], lead: u8, by: u8, set: Mask) -> bool
    requires { lead < 16 }
    ensures { (left : _) → ((p : ℕ) → p < 16 → HasPosition set.0 p
        → IsLineLess (row_at rows.now p) row.now lead by (row_at left p)) → (IsTrue result ↔ Settles left 0 set.0) }
{
    for p in 0..16u8 {
        if set.has(p) {
            let line = &rows[p as usize];
            let times = mul(line[lead as usize], by);
            if lead_of(&reduced(line, times, row)).is_some() {
                return false;
            }
        }
    }
    true
}

/// The needed rows after row `q` was subtracted.
pub fn taken(rows: &[[u8; 16]; 16], q: u8, needed: Mask) -> [[u8; 16]; 16]
    requires { q < 16 }
    ensures { IsTaken rows.now q needed.0 result }
{
    let row = rows[q as usize];
    match lead_of(&row) {
        None => *rows,
        Some(lead) => {
            let by = inv(row[lead as usize]);
            all_reduced(rows, &scaled(&row, by), lead, needed)
        }
    }
}

/// Whether the rows of a set are 0, so that no position is needed for them.
pub fn are_settled(rows: &[[u8; 16]; 16], set: Mask) -> bool
    ensures { IsTrue result ↔ Settles rows.now 0 set.0 }
{
    for p in 0..16u8 {
        if set.has(p) && lead_of(&rows[p as usize]).is_some() {
            return false;
        }
    }
    true
}

/// Whether position `q` alone settles the rows of a set.
pub fn are_settled_by(rows: &[[u8; 16]; 16], q: u8, set: Mask) -> bool
    requires { q < 16 }
    ensures { (one : ℕ) → IsWith q 0 one → (IsTrue result ↔ Settles rows.now one set.0) }
{
    let row = rows[q as usize];
    match lead_of(&row) {
        None => are_settled(rows, set),
        Some(lead) => all_vanish(rows, &row, lead, inv(row[lead as usize]), set),
    }
}
