//! `decides` and `combine` beside a check over all columns.
use ec_code::{Code, Shape, combine, decides};
use ec_words::Mask;
use gf256::mul;
use table_code::TableCode;

/// The code whose first rows are these, and whose data chunks stand first.
fn table(k: u8, rows: &[[u8; 4]]) -> Option<TableCode> {
    let mut wide = [[0u8; 16]; 16];
    for p in 0..usize::min(16, rows.len()) {
        let [a, b, c, d] = rows[p];
        wide[p] = [a, b, c, d, 0, 0, 0, 0, 0, 0, 0, 0, 0, 0, 0, 0];
    }
    let n = u8::try_from(rows.len()).ok()?;
    let places = [0, 1, 2, 3, 4, 5, 6, 7, 8, 9, 10, 11, 12, 13, 14, 15];
    TableCode::of(Shape { k, n, lead: k }, wide, places)
}

fn times(a: u8, b: u8) -> u8 {
    match a {
        0 => 0,
        1 => b,
        _ => mul(a, b),
    }
}

fn chunk(row: [u8; 4], column: [u8; 4]) -> u8 {
    times(row[0], column[0])
        ^ times(row[1], column[1])
        ^ times(row[2], column[2])
        ^ times(row[3], column[3])
}

/// The positions below 6 at which a column's chunk is 0.
fn zeros(rows: &[[u8; 4]], column: [u8; 4]) -> u8 {
    let mut mask = 0;
    for p in 0..usize::min(6, rows.len()) {
        if chunk(rows[p], column) == 0 {
            mask |= 1u8 << p;
        }
    }
    mask
}

/// A column of four bytes; byte `hole` is 0.
fn spread(bytes: [u8; 4], hole: u8) -> [u8; 4] {
    let [a, b, c, _] = bytes;
    match hole {
        0 => [0, a, b, c],
        1 => [a, 0, b, c],
        2 => [a, b, 0, c],
        _ => [a, b, c, 0],
    }
}

/// Marks the zeros of each column with these two properties: byte `hole` is 0, and byte `last` is 1 and the last other byte that
/// is not 0.
fn mark(rows: &[[u8; 4]], last: u32, hole: u8, seen: &mut [bool; 256]) {
    let one = 1u32 << (8 * u32::min(last, 2));
    for rest in 0..one {
        let column = spread((one | rest).to_le_bytes(), hole);
        seen[zeros(rows, column) as usize] = true;
    }
}

fn mark_all(rows: &[[u8; 4]], k: u8, hole: u8, seen: &mut [bool; 256]) {
    for last in 0..u8::min(k, 3) {
        mark(rows, u32::from(last), hole, seen);
    }
}

/// Which sets are the zeros of a column of `k` bytes that is not 0. Multiples have the same zeros. Columns of four bytes without a
/// 0 are left out: their zeros have no data position, so they are at most two positions. Two dimensions of columns are 0 on these
/// positions, and the columns with a byte 0 span them.
fn marks(k: u8, rows: &[[u8; 4]]) -> [bool; 256] {
    let mut seen = [false; 256];
    for hole in if k == 4 { 0 } else { 3 }..4 {
        mark_all(rows, k, hole, &mut seen);
    }
    seen
}

/// No column is 0 on all of `from` and not 0 somewhere on `wanted`.
fn decided(seen: &[bool; 256], from: u16, wanted: u16) -> bool {
    for zeros in 0..256u16 {
        if seen[zeros as usize] && from & !zeros == 0 && wanted & !zeros != 0 {
            return false;
        }
    }
    true
}

/// The combination of some rows.
fn combined(rows: &[[u8; 4]], coefficients: &[u8; 16]) -> [u8; 4] {
    let mut sum = [0u8; 4];
    for q in 0..usize::min(16, rows.len()) {
        let (row, c) = (rows[q], coefficients[q]);
        sum = [
            sum[0] ^ mul(c, row[0]),
            sum[1] ^ mul(c, row[1]),
            sum[2] ^ mul(c, row[2]),
            sum[3] ^ mul(c, row[3]),
        ];
    }
    sum
}

/// Whether `combine` answers for a position as the columns do; nothing is asked past the rows.
fn combines_at(code: &dyn Code, rows: &[[u8; 4]], seen: &[bool; 256], from: u16, p: u8) -> bool {
    let n = code.shape().n;
    if !Mask(from).lies_below(n) || n <= p || rows.len() <= p as usize {
        return true;
    }
    match combine(code, Mask(from), p) {
        Some(coefficients) => combined(rows, &coefficients) == rows[p as usize],
        None => !decided(seen, from, 1u16 << p),
    }
}

fn decides_on(code: &dyn Code, seen: &[bool; 256], from: u16, wanted: u16) -> bool {
    let n = code.shape().n;
    if !Mask(from).lies_below(n) || !Mask(wanted).lies_below(n) {
        return true;
    }
    decides(code, Mask(from), Mask(wanted)) == decided(seen, from, wanted)
}

/// The first position at which a call answers otherwise than the columns. `decides` is asked for all positions too.
fn first_wrong(code: &dyn Code, rows: &[[u8; 4]], seen: &[bool; 256], from: u16) -> Option<u8> {
    let all = u16::from(u8::MAX) >> (8 - u8::min(8, code.shape().n));
    if !decides_on(code, seen, from, all) {
        return Some(code.shape().n);
    }
    for p in 0..6u8 {
        if !decides_on(code, seen, from, 1u16 << p) || !combines_at(code, rows, seen, from, p) {
            return Some(p);
        }
    }
    None
}

/// Whether a code of these rows, whose data chunks stand first, decides and combines as its columns do, from each set.
fn is_as_its_columns(k: u8, rows: &[[u8; 4]]) -> bool {
    let Some(code) = table(k, rows) else {
        return false;
    };
    let seen = marks(k, rows);
    for from in 0..64u16 {
        if first_wrong(&code, rows, &seen, from).is_some() {
            return false;
        }
    }
    true
}

#[test]
fn a_set_decides_what_no_column_tells_apart(rt: HostRuntime) {
    let parity = [[1, 0, 0, 0], [0, 1, 0, 0], [1, 1, 0, 0]];
    assert!(rt; is_as_its_columns(2, &parity));
    let van = [
        [1, 0, 0, 0],
        [0, 1, 0, 0],
        [0, 0, 1, 0],
        [0, 0, 0, 1],
        [1, 1, 1, 1],
        [1, 70, 143, 200],
    ];
    assert!(rt; is_as_its_columns(4, &van));
    let uneven = [
        [1, 0, 0, 0],
        [0, 1, 0, 0],
        [0, 0, 1, 0],
        [1, 1, 0, 0],
        [1, 70, 143, 0],
        [1, 71, 143, 0],
    ];
    assert!(rt; is_as_its_columns(3, &uneven));
}
