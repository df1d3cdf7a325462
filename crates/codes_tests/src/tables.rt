//! Which tables are codes, and what a profile makes of one.
use ec_code::{Code, Plugin, Profile, Shape, Technique};
use table_code::TableCode;

const PARITY: [u8; 16] = [1, 1, 0, 0, 0, 0, 0, 0, 0, 0, 0, 0, 0, 0, 0, 0];

const FIRST: [u8; 16] = [1, 0, 0, 0, 0, 0, 0, 0, 0, 0, 0, 0, 0, 0, 0, 0];

const SECOND: [u8; 16] = [0, 1, 0, 0, 0, 0, 0, 0, 0, 0, 0, 0, 0, 0, 0, 0];

/// Three rows, with the data chunks at the first two of these places.
fn placed(rows: [[u8; 16]; 3], n: u8, one: u8, other: u8) -> Option<TableCode> {
    let mut all = [[0u8; 16]; 16];
    let mut places = [0u8; 16];
    let [a, b, c] = rows;
    all[0] = a;
    all[1] = b;
    all[2] = c;
    places[0] = one;
    places[1] = other;
    TableCode::of(Shape { k: 2, n, lead: 2 }, all, places)
}

// By the rule: data chunk j stands at its place, and the row there is unit row j.
#[test]
fn a_table_is_a_code_where_its_data_rows_are_unit_rows(rt: HostRuntime) {
    assert!(rt; placed([FIRST, SECOND, PARITY], 3, 0, 1).is_some());
    assert!(rt; placed([PARITY, SECOND, FIRST], 3, 2, 1).is_some());
    assert!(rt; placed([FIRST, SECOND, PARITY], 3, 1, 0).is_none());
    assert!(rt; placed([FIRST, SECOND, PARITY], 3, 0, 2).is_none());
    assert!(rt; placed([FIRST, SECOND, PARITY], 1, 0, 1).is_none());
    assert!(rt; placed([FIRST, SECOND, PARITY], 17, 0, 1).is_none());
    assert!(rt; placed([FIRST, SECOND, PARITY], 2, 0, 2).is_none());
}

/// Whether a code has these numbers, and its first data chunk at this position.
fn is_shaped(code: &dyn Code, k: u8, n: u8, first: u8) -> bool {
    let lead = k;
    code.shape() == Shape { k, n, lead } && code.place(0) == first
}

/// What a table answers to a profile of the plugin shec with k = 4 and m = 3, as a fault's number, or 0.
fn made(code: &mut TableCode, c: u32) -> u8 {
    let profile = Profile {
        plugin: Plugin::Shec,
        k: Some(4),
        m: Some(3),
        c: Some(c),
        l: None,
        w: None,
        technique: Some(Technique::Single),
        mapping: None,
        layers: None,
        stripe_unit: 4096,
        min_size: None,
    };
    match code.init(&profile) {
        Ok(()) => 0,
        Err(fault) => fault.number(),
    }
}

// By the faults: with m = 3 a c of 4 is refused by Order, number 16.
#[test]
fn a_profile_makes_the_code_of_shec(rt: HostRuntime) {
    let mut code = placed([PARITY, SECOND, FIRST], 3, 2, 1).expect(&rt, "a code");
    assert!(rt; code.named("shec") && !code.named("lrc"));
    assert!(rt; made(&mut code, 4) == 16 && is_shaped(&code, 2, 3, 2));
    assert!(rt; made(&mut code, 2) == 0 && is_shaped(&code, 4, 7, 0));
    assert!(rt; made(&mut code, 4) == 16 && is_shaped(&code, 4, 7, 0));
}
