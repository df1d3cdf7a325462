//! Codes of profiles of jerasure, and profiles that are refused.
ghost use Rattle.std.specs.Prelude.{◌≡◌};

use crate::settings::{NONE, given, technique};
use ec_code::{Code, Key, Plugin, Profile, ProfileFault, Shape, row_of};
use rs_van::RsVan;

/// A profile of k, m, technique, w, stripe unit and min_size.
fn profile(numbers: [u32; 6]) -> Profile
    ensures { result.plugin ≡ Plugin.Jerasure }
{
    let [k, m, which, w, stripe_unit, least] = numbers;
    Profile {
        plugin: Plugin::Jerasure,
        k: given(k),
        m: given(m),
        c: None,
        l: None,
        w: given(w),
        technique: technique(which),
        mapping: None,
        layers: None,
        stripe_unit,
        min_size: given(least),
    }
}

/// What a code answers to a profile, as a fault's number, or 0.
fn answer(numbers: [u32; 6]) -> u8 {
    match RsVan::new().init(&profile(numbers)) {
        Ok(()) => 0,
        Err(fault) => fault.number(),
    }
}

// By the table of faults: 4 Missing, 5 Technique, 6 Width, 7 SmallK, 8 SmallM, 9 TooMany, 14 Unit, 15 MinSize.
#[test]
fn a_profile_is_refused_by_its_first_fault(rt: HostRuntime) {
    let rows: [([u32; 6], u8); 24] = [
        ([4, 2, 0, NONE, 4096, NONE], 0),
        ([2, 1, 0, NONE, 4096, NONE], 0),
        ([15, 1, 0, NONE, 4096, NONE], 0),
        ([2, 14, 0, NONE, 4096, NONE], 0),
        ([4, 2, 1, 8, 4096, NONE], 0),
        ([4, 2, 0, NONE, 32, 4], 0),
        ([4, 2, 0, NONE, 65536, 6], 0),
        ([NONE, 2, 0, NONE, 4096, NONE], 4),
        ([4, NONE, 0, NONE, 4096, NONE], 4),
        ([NONE, NONE, 3, NONE, 4096, NONE], 4),
        ([4, 2, 3, NONE, 4096, NONE], 5),
        ([4, 2, 2, 16, 4096, NONE], 5),
        ([4, 2, 0, 7, 4096, NONE], 6),
        ([1, 0, 0, 16, 4096, NONE], 6),
        ([1, 1, 0, NONE, 4096, NONE], 7),
        ([0, 0, 0, NONE, 4096, NONE], 7),
        ([2, 0, 0, NONE, 4096, NONE], 8),
        ([17, 0, 0, NONE, 4096, NONE], 8),
        ([15, 2, 0, NONE, 4096, NONE], 9),
        ([u32::MAX, u32::MAX, 0, NONE, 0, NONE], 9),
        ([4, 2, 0, NONE, 0, 1], 14),
        ([4, 2, 0, NONE, 65568, NONE], 14),
        ([4, 2, 0, NONE, 4096, 3], 15),
        ([4, 2, 0, NONE, 4096, 7], 15),
    ];
    for (numbers, number) in rows {
        assert!(rt; answer(numbers) == number, "at {numbers:?}");
    }
}

/// Whether a profile without other settings than k and m is refused for want of a key.
fn misses(k: u32, m: u32, key: Key) -> bool {
    RsVan::new().init(&profile([k, m, 0, NONE, 4096, NONE])) == Err(ProfileFault::Missing(key))
}

#[test]
fn the_missing_key_is_the_first(rt: HostRuntime) {
    assert!(rt; misses(NONE, NONE, Key::K) && misses(NONE, 2, Key::K) && misses(2, NONE, Key::M));
}

/// Whether the row of a position begins with these entries.
fn has_row(code: &dyn Code, p: u8, entries: [u8; 4]) -> bool {
    if code.shape().n <= p {
        return false;
    }
    let row = row_of(code, p);
    &row[..4] == entries.as_slice()
}

// The known rows of jerasure; a refused profile leaves the code.
#[test]
fn the_rows_are_those_of_jerasure(rt: HostRuntime) {
    let mut code = RsVan::new();
    assert!(rt; code.named("jerasure") && !code.named("lrc"));
    assert!(rt; code.init(&profile([4, 3, 0, NONE, 4096, NONE])).is_ok());
    assert!(rt; code.init(&profile([4, 0, 0, NONE, 4096, NONE])).is_err());
    let (k, n, lead) = (4, 7, 4);
    assert!(rt; code.shape() == Shape { k, n, lead });
    let rows: [[u8; 4]; 7] = [
        [1, 0, 0, 0],
        [0, 1, 0, 0],
        [0, 0, 1, 0],
        [0, 0, 0, 1],
        [1, 1, 1, 1],
        [1, 217, 92, 172],
        [1, 70, 143, 200],
    ];
    for p in 0..7u8 {
        assert!(rt; has_row(&code, p, rows[p as usize]), "row {p}");
    }
}

/// The chunks of one stripe of four bytes, if the code has four data chunks and six positions.
fn chunks(code: &dyn Code, stripe: [u8; 4]) -> [u8; 6] {
    let mut out = [0u8; 6];
    let shape = code.shape();
    if shape.k == 4 && shape.n == 6 {
        code.encode_unit(&stripe, 1, &mut out);
    }
    out
}

// By hand: 70 * 2 = 140, 143 * 3 = 140 and 200 * 4 = 7, so the last chunk is 1 + 140 + 140 + 7.
#[test]
fn a_stripe_is_encoded_by_hand(rt: HostRuntime) {
    let mut code = RsVan::new();
    assert!(rt; code.init(&profile([4, 2, 0, NONE, 4096, NONE])).is_ok());
    assert!(rt; chunks(&code, [1, 2, 3, 4]) == [1, 2, 3, 4, 4, 6]);
}
