//! Codes of four data chunks by their rows.
use ec_code::Shape;
use table_code::TableCode;

/// The rows of reed_sol_van for 4 and 2.
pub const FOUR_AND_TWO: [[u8; 4]; 6] = [
    [1, 0, 0, 0],
    [0, 1, 0, 0],
    [0, 0, 1, 0],
    [0, 0, 0, 1],
    [1, 1, 1, 1],
    [1, 70, 143, 200],
];

/// The rows of the mapping `__DD__DD` and the layers `_cDD_cDD`, `cDDD____` and `____cDDD`.
pub const LAYERS: [[u8; 4]; 8] = [
    [0, 0, 1, 1],
    [1, 1, 1, 1],
    [1, 0, 0, 0],
    [0, 1, 0, 0],
    [0x01, 0x46, 0x8e, 0xc9],
    [0x01, 0x46, 0x8f, 0xc8],
    [0, 0, 1, 0],
    [0, 0, 0, 1],
];

/// The code whose first rows are these, with its data chunks at the first of these places.
pub fn table_of(rows: &[[u8; 4]], k: u8, places: [u8; 4]) -> Option<TableCode> {
    let mut wide = [[0u8; 16]; 16];
    for p in 0..usize::min(16, rows.len()) {
        let [a, b, c, d] = rows[p];
        wide[p] = [a, b, c, d, 0, 0, 0, 0, 0, 0, 0, 0, 0, 0, 0, 0];
    }
    let n = u8::try_from(rows.len()).ok()?;
    let [a, b, c, d] = places;
    let places = [a, b, c, d, 0, 0, 0, 0, 0, 0, 0, 0, 0, 0, 0, 0];
    TableCode::of(Shape { k, n, lead: k }, wide, places)
}

/// The code of reed_sol_van for 4 and 2.
pub fn four_and_two() -> Option<TableCode> {
    table_of(&FOUR_AND_TWO, 4, [0, 1, 2, 3])
}

/// The code of the layers, with its data chunks at the positions 2, 3, 6 and 7.
pub fn layered() -> Option<TableCode> {
    table_of(&LAYERS, 4, [2, 3, 6, 7])
}
