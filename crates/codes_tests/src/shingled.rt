//! Codes of profiles of shec, and profiles that are refused.
ghost use Rattle.std.specs.Prelude.{◌≡◌};

use crate::settings::{NONE, given, technique};
use ec_code::{Code, Key, Plugin, Profile, ProfileFault, Shape, row_of};
use shec_matrix::{Shec, shec_entry};

/// A profile of k, m, c, technique, w, stripe unit and min_size.
fn profile(numbers: [u32; 7]) -> Profile
    ensures { result.plugin ≡ Plugin.Shec }
{
    let [k, m, c, which, w, stripe_unit, least] = numbers;
    Profile {
        plugin: Plugin::Shec,
        k: given(k),
        m: given(m),
        c: given(c),
        l: None,
        w: given(w),
        technique: technique(which),
        mapping: None,
        layers: None,
        stripe_unit,
        min_size: given(least),
    }
}

fn kmc(k: u32, m: u32, c: u32) -> Profile
    ensures { result.plugin ≡ Plugin.Shec }
{
    profile([k, m, c, 2, NONE, 4096, NONE])
}

/// What a code answers to a profile, as a fault's number, or 0.
fn answer(profile: &Profile) -> u8
    requires { profile.now.plugin ≡ Plugin.Shec }
{
    match Shec::new().init(profile) {
        Ok(()) => 0,
        Err(fault) => fault.number(),
    }
}

fn answer_to_numbers(k: u32, m: u32, c: u32) -> u8 {
    answer(&kmc(k, m, c))
}

fn answer_to(numbers: [u32; 7]) -> u8 {
    answer(&profile(numbers))
}

// By the bounds: 1 ≤ c ≤ m ≤ k ≤ 12 and k + m ≤ 16. 7 SmallK, 8 SmallM, 9 TooMany, 16 Order; of two faults the first is answered.
#[test]
fn the_numbers_have_bounds(rt: HostRuntime) {
    let rows: [(u32, u32, u32, u8); 18] = [
        (4, 3, 2, 0),
        (1, 1, 1, 0),
        (4, 3, 3, 0),
        (12, 4, 1, 0),
        (8, 8, 8, 0),
        (0, 3, 2, 7),
        (0, 0, 0, 7),
        (4, 0, 0, 8),
        (4, 3, 0, 8),
        (13, 0, 1, 8),
        (13, 3, 2, 9),
        (13, 1, 2, 9),
        (12, 5, 2, 9),
        (10, 7, 2, 9),
        (u32::MAX, u32::MAX, 1, 9),
        (4, 3, 4, 16),
        (2, 3, 1, 16),
        (2, 3, 4, 16),
    ];
    for (k, m, c, number) in rows {
        assert!(rt; answer_to_numbers(k, m, c) == number, "at {k} {m} {c}");
    }
}

// By the order of the faults: 4 Missing, 5 Technique, 6 Width, 7 SmallK, 9 TooMany, 14 Unit, 15 MinSize, 16 Order.
#[test]
fn a_profile_is_refused_by_its_first_fault(rt: HostRuntime) {
    let rows: [([u32; 7], u8); 14] = [
        ([4, 3, 2, 2, 8, 32, 4], 0),
        ([4, 3, 2, 2, 8, 65536, 7], 0),
        ([4, 3, 2, 0, 16, 0, 0], 4),
        ([4, 3, 2, 1, 16, 0, 0], 5),
        ([4, 3, 2, 3, 8, 4096, 4], 5),
        ([0, 3, 2, 2, 16, 0, 0], 6),
        ([0, 3, 2, 2, 8, 0, 0], 7),
        ([13, 3, 4, 2, 8, 0, 0], 9),
        ([4, 3, 2, 2, 8, 0, 0], 14),
        ([4, 3, 2, 2, 8, 48, 4], 14),
        ([4, 3, 4, 2, 8, 65568, 4], 14),
        ([4, 3, 4, 2, 8, 4096, 3], 15),
        ([4, 3, 2, 2, 8, 4096, 8], 15),
        ([4, 3, 4, 2, 8, 4096, 4], 16),
    ];
    for (numbers, number) in rows {
        assert!(rt; answer_to(numbers) == number, "at {numbers:?}");
    }
}

/// Whether a profile is refused for want of a key.
fn misses(k: u32, m: u32, c: u32, which: u32, key: Key) -> bool {
    let profile = profile([k, m, c, which, NONE, 4096, NONE]);
    Shec::new().init(&profile) == Err(ProfileFault::Missing(key))
}

// Of the keys that are missing the first is c, then k, m and the technique.
#[test]
fn the_missing_key_is_the_first(rt: HostRuntime) {
    assert!(rt; misses(NONE, NONE, NONE, 2, Key::C) && misses(NONE, NONE, 2, 2, Key::K));
    assert!(rt; misses(4, NONE, 2, 2, Key::M) && misses(4, 3, 2, 0, Key::Technique));
}

/// The data chunks that a row leaves out, first to last, as the bits of a number from the right.
fn left_out(k: u8, m: u8, c: u8, r: u8) -> u16 {
    let mut bits = 0;
    for j in 0..k {
        if k <= 8 && m <= 8 && r < m && shec_entry(k, m, c, r, j) == 0 {
            bits |= 1u16 << j;
        }
    }
    bits
}

// By hand: with 5 and 3 the ends are 0, 1 and 3; with c = 2 the windows begin at 3, 0 and 1, with c = 1 at 1, 3 and 0.
#[test]
fn windows_go_round(rt: HostRuntime) {
    let rows: [(u8, u8, u16); 8] = [
        (2, 0, 0b11000),
        (2, 1, 0b00001),
        (2, 2, 0b00110),
        (1, 0, 0b11110),
        (1, 1, 0b11001),
        (1, 2, 0b00111),
        (3, 0, 0),
        (3, 2, 0),
    ];
    for (c, r, bits) in rows {
        assert!(rt; left_out(5, 3, c, r) == bits, "{c} at row {r}");
    }
}

/// Whether the row of a position begins with these entries.
fn has_row(code: &dyn Code, p: u8, entries: [u8; 4]) -> bool {
    if code.shape().n <= p {
        return false;
    }
    let row = row_of(code, p);
    &row[..4] == entries.as_slice()
}

// The rows of reed_sol_van with 4 and 3 are 1 1 1 1, 1 217 92 172 and 1 70 143 200. By hand the windows with c = 2 go from 2 to
// 0, from 0 to 1 and from 1 to 2.
#[test]
fn each_row_leaves_its_window_out(rt: HostRuntime) {
    let mut code = Shec::new();
    assert!(rt; code.named("shec") && !code.named("jerasure"));
    assert!(rt; code.init(&kmc(4, 3, 2)).is_ok());
    let rows: [[u8; 4]; 7] = [
        [1, 0, 0, 0],
        [0, 1, 0, 0],
        [0, 0, 1, 0],
        [0, 0, 0, 1],
        [1, 1, 0, 0],
        [0, 217, 92, 172],
        [1, 0, 143, 200],
    ];
    for p in 0..7u8 {
        assert!(rt; has_row(&code, p, rows[p as usize]), "row {p}");
    }
}

// With c = m nothing is left out; a refused profile leaves the code.
#[test]
fn a_refused_profile_leaves_the_code(rt: HostRuntime) {
    let mut code = Shec::new();
    assert!(rt; code.init(&kmc(4, 3, 3)).is_ok());
    assert!(rt; code.init(&kmc(4, 3, 4)).is_err());
    let (k, n, lead) = (4, 7, 4);
    assert!(rt; code.shape() == Shape { k, n, lead });
    assert!(rt; has_row(&code, 5, [1, 217, 92, 172]));
}

/// The chunks of one stripe of four bytes, if the code has four data chunks and seven positions.
fn chunks(code: &dyn Code, stripe: [u8; 4]) -> [u8; 7] {
    let mut out = [0u8; 7];
    let shape = code.shape();
    if shape.k == 4 && shape.n == 7 {
        code.encode_unit(&stripe, 1, &mut out);
    }
    out
}

// By hand: 1 + 2; 217 * 2 = 175, 92 * 3 = 228 and 172 * 4 = 138; 1, 143 * 3 = 140 and 200 * 4 = 7.
#[test]
fn a_stripe_is_encoded_by_hand(rt: HostRuntime) {
    let mut code = Shec::new();
    assert!(rt; code.init(&kmc(4, 3, 2)).is_ok());
    assert!(rt; chunks(&code, [1, 2, 3, 4]) == [1, 2, 3, 4, 3, 193, 138]);
}
