//! The rows of the code.
ghost use Rattle.std.specs.Prelude.{◌≡◌, ◌+◌, ◌<◌, ◌≤◌, ℕ, slice_index};
ghost use Rattle.ec_model.specs.Rows.{unit_entry, entry_at};
ghost use Rattle.ec_model.specs.Shec.{IsShecEntry};

use crate::windows::is_left_out;
use rs_van::{coding_entry, unit_rows};

/// The entry of coding row `r` of `m` with the number `c`, at column `j` of `k`.
pub fn shec_entry(k: u8, m: u8, c: u8, r: u8, j: u8) -> u8
    requires size { k + m ≤ 16 }
    requires r { r < m }
    requires j { j < k }
    ensures { IsShecEntry k m c r j result }
{
    if is_left_out(k, m, c, r, j) {
        0
    } else {
        coding_entry(k, m, r, j)
    }
}

fn coding_row(k: u8, m: u8, c: u8, r: u8) -> [u8; 16]
    requires size { k + m ≤ 16 }
    requires r { r < m }
    ensures { (j : ℕ) → j < k → IsShecEntry k m c r j (slice_index result j) }
{
    let mut row = [0u8; 16];
    for j in 0..k {
        row[j as usize] = shec_entry(k, m, c, r, j);
    }
    row
}

/// The unit rows, and the coding rows below them.
pub fn rows_of(k: u8, m: u8, c: u8) -> [[u8; 16]; 16]
    requires { k + m ≤ 16 }
    ensures units { (i j : ℕ) → i < k → j < k → entry_at result i j ≡ unit_entry i j }
    ensures coding { (r j : ℕ) → r < m → j < k → IsShecEntry k m c r j (entry_at result (k + r) j) }
{
    let mut rows = unit_rows(k);
    for r in 0..m {
        rows[(k + r) as usize] = coding_row(k, m, c, r);
    }
    rows
}
