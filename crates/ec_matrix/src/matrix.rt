//! Matrices of a fixed size.
ghost use Rattle.std.specs.Prelude.{◌≡◌, ◌≢◌, ◌<◌, ◌≤◌, ℕ};
ghost use Rattle.ec_model.specs.Field.{field_product};
ghost use Rattle.ec_model.specs.Rows.{sum_below, entry_at};
ghost use Rattle.ec_matrix.specs.Matrix.{Matrix, IsMatrix, HasSize};

use crate::lines::combined;
use std::marker::Model;

/// Up to 16 rows of up to 16 bytes. It takes no memory.
#[derive(Clone, Copy)]
pub struct Mat {
    height: u8,
    width: u8,
    rows: [[u8; 16]; 16],
}

impl Model for Mat {
    ghost Value = { Matrix };

    ghost view = { λ m. record { height = m.height; width = m.width; rows = m.rows } };

    ghost inverse = { λ m. record { height = m.height; width = m.width; rows = m.rows } };

    ghost invariant = { λ m. IsMatrix (record { height = m.height; width = m.width; rows = m.rows }) };
}

impl Mat {
    /// A matrix whose entries are 0.
    pub fn zero(rows: u8, cols: u8) -> Mat
        requires rows { rows ≤ 16 }
        requires cols { cols ≤ 16 }
        ensures size { HasSize result rows cols }
        ensures entries { (r c : ℕ) → entry_at result.rows r c ≡ 0 }
    {
        Mat {
            height: rows,
            width: cols,
            rows: [[0u8; 16]; 16],
        }
    }

    /// The number of rows.
    pub fn rows(&self) -> u8
        ensures value { result ≡ self.now.height }
        ensures few { result ≤ 16 }
    {
        self.height
    }

    /// The number of columns.
    pub fn cols(&self) -> u8
        ensures value { result ≡ self.now.width }
        ensures few { result ≤ 16 }
    {
        self.width
    }

    /// The entry of a row and a column.
    pub fn get(&self, r: u8, c: u8) -> u8
        requires r { r < self.now.height }
        requires c { c < self.now.width }
        ensures { result ≡ entry_at self.now.rows r c }
    {
        self.rows[r as usize][c as usize]
    }

    /// Sets the entry of a row and a column.
    pub fn set(&mut self, r: u8, c: u8, v: u8)
        requires r { r < self.old.height }
        requires c { c < self.old.width }
        ensures value { entry_at self.new.rows r c ≡ v }
        ensures other_rows { (i j : ℕ) → i ≢ r
            → entry_at self.new.rows i j ≡ entry_at self.old.rows i j }
        ensures other_columns { (i j : ℕ) → j ≢ c
            → entry_at self.new.rows i j ≡ entry_at self.old.rows i j }
        ensures kept { HasSize self.new self.old.height self.old.width }
    {
        let mut line = self.rows[r as usize];
        line[c as usize] = v;
        self.rows[r as usize] = line;
    }

    /// The matrix whose entries are the products of this one's rows and the other's columns.
    pub fn product(&self, other: &Mat) -> Mat
        requires { self.now.width ≡ other.now.height }
        ensures size { HasSize result self.now.height other.now.width }
        ensures entries { (r c : ℕ) → entry_at result.rows r c
            ≡ sum_below self.now.width
            (λ j. field_product (entry_at self.now.rows r j) (entry_at other.now.rows j c)) }
    {
        let mut rows = [[0u8; 16]; 16];
        for r in 0..16usize {
            rows[r] = combined(&self.rows[r], &other.rows);
        }
        Mat {
            height: self.height,
            width: other.width,
            rows,
        }
    }

    /// The 16 rows of 16 bytes.
    pub(crate) fn lines(&self) -> &[[u8; 16]; 16]
        ensures value { result.now ≡ self.now.rows }
        ensures whole { IsMatrix self.now }
    {
        &self.rows
    }
}
