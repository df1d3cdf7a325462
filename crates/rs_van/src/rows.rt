//! The rows of the code.
ghost use Rattle.std.specs.Prelude.{◌≡◌, ◌+◌, ◌<◌, ◌≤◌, ℕ, slice_index};
ghost use Rattle.ec_model.specs.Rows.{unit_entry, entry_at};
ghost use Rattle.ec_model.specs.ReedSolVan.{IsCodingEntry};

use gf256::{div, mul};

/// The entry of coding row `r` of `m` at column `j` of `k`.
pub fn coding_entry(k: u8, m: u8, r: u8, j: u8) -> u8
    requires size { k + m ≤ 16 }
    requires r { r < m }
    requires j { j < k }
    ensures { IsCodingEntry k m r j result }
{
    if r == 0 {
        1
    } else if r == m - 1 {
        div(k ^ j, k)
    } else {
        let x = k + r;
        div(mul(k ^ j, x), mul(k, x ^ j))
    }
}

fn coding_row(k: u8, m: u8, r: u8) -> [u8; 16]
    requires size { k + m ≤ 16 }
    requires r { r < m }
    ensures { (j : ℕ) → j < k → IsCodingEntry k m r j (slice_index result j) }
{
    let mut row = [0u8; 16];
    for j in 0..k {
        row[j as usize] = coding_entry(k, m, r, j);
    }
    row
}

/// Unit row `i`: 1 at its place, and 0 elsewhere.
pub fn unit_row(i: u8) -> [u8; 16]
    requires { i < 16 }
    ensures { (j : ℕ) → j < 16 → slice_index result j ≡ unit_entry i j }
{
    let mut row = [0u8; 16];
    for j in 0..16u8 {
        row[j as usize] = u8::from(i == j);
    }
    row
}

/// The first `k` rows are unit rows. Nothing is said of the rows past them.
pub fn unit_rows(k: u8) -> [[u8; 16]; 16]
    requires { k ≤ 16 }
    ensures { (i j : ℕ) → i < k → j < k → entry_at result i j ≡ unit_entry i j }
{
    let mut rows = [[0u8; 16]; 16];
    for i in 0..k {
        rows[i as usize] = unit_row(i);
    }
    rows
}

/// The unit rows, and the coding rows below them.
pub fn rows_of(k: u8, m: u8) -> [[u8; 16]; 16]
    requires { k + m ≤ 16 }
    ensures units { (i j : ℕ) → i < k → j < k → entry_at result i j ≡ unit_entry i j }
    ensures coding { (r j : ℕ) → r < m → j < k → IsCodingEntry k m r j (entry_at result (k + r) j) }
{
    let mut rows = unit_rows(k);
    for r in 0..m {
        rows[(k + r) as usize] = coding_row(k, m, r);
    }
    rows
}
