//! The rows of a code, as a table.
ghost use Rattle.std.specs.Prelude.{◌≡◌, ◌<◌, ◌^◌, ℕ, length, slice_index};
ghost use Rattle.ec_code.specs.Tables.{AreFullRows};

/// Reads a row. From then on it is known that its entries are bytes.
fn read_row(row: &[u8; 16])
    ensures long { length row.now ≡ 16 }
    ensures bytes { (j : ℕ) → slice_index row.now j < 2 ^ 8 }
{
    let _first = row[0];
}

/// Reads each row. From then on it is known that there are 16, each of 16 bytes: the type of a table tells a proof only
/// of the rows that were read.
pub fn read_rows(rows: &[[u8; 16]; 16])
    ensures { AreFullRows rows.now }
{
    for p in 0..16usize {
        read_row(&rows[p]);
    }
}
