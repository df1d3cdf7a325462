//! The field: products and quotients by hand, and the kernels beside one byte after another.
ghost use Rattle.std.specs.Prelude.{◌≡◌, ◌≤◌, length};

use gf256::{add_into, div, inv, mul, mul_add_into};

fn has_inverse(a: u8, inverse: u8) -> bool {
    a != 0 && inv(a) == inverse
}

fn has_quotient(a: u8, b: u8, quotient: u8) -> bool {
    b != 0 && div(a, b) == quotient
}

// By hand: 2 * 2 = 4 has no carry; 0x80 * 2 = 0x100 is reduced to 0x1d; 1/2, 1/4 and 1/7 are known values of this field, and
// 70, 143 and 200 are 5/4, 6/4 and 7/4.
#[test]
fn products_and_quotients_by_hand(rt: HostRuntime) {
    for (a, b, product) in [
        (0u8, 7u8, 0u8),
        (1, 255, 255),
        (2, 2, 4),
        (2, 0x80, 0x1d),
        (2, 0x8e, 1),
        (4, 0x47, 1),
        (7, 0xba, 1),
        (3, 3, 5),
    ] {
        assert!(rt;
            mul(a, b) == product && mul(b, a) == product,
            "{a} times {b}"
        );
    }
    for (a, inverse) in [(1, 1), (2, 0x8e), (4, 0x47), (7, 0xba), (0x8e, 2)] {
        assert!(rt; has_inverse(a, inverse), "at {a}");
    }
    for (a, b, quotient) in [(5, 4, 70), (6, 4, 143), (7, 4, 200), (0, 9, 0), (9, 9, 1)] {
        assert!(rt; has_quotient(a, b, quotient), "{a} over {b}");
    }
}

/// The plain twin of both kernels.
fn add_byte_by_byte(coef: u8, to: &mut [u8], from: &[u8])
    requires { length to.old ≡ length from.now }
{
    for i in 0..from.len() {
        to[i] ^= mul(coef, from[i]);
    }
}

/// Whether the kernels do to the first `len` of 70 bytes what the twin does.
fn are_same(coef: u8, from: &[u8; 70], len: usize) -> bool
    requires { len ≤ 70 }
{
    let mut by_lanes = [7u8; 70];
    let mut by_bytes = [7u8; 70];
    if coef == 1 {
        add_into(&mut by_lanes[..len], &from[..len]);
    } else {
        mul_add_into(coef, &mut by_lanes[..len], &from[..len]);
    }
    add_byte_by_byte(coef, &mut by_bytes[..len], &from[..len]);
    by_lanes == by_bytes
}

#[test]
fn lanes_give_what_bytes_give(rt: HostRuntime) {
    let mut from = [0u8; 70];
    for i in 0..70u8 {
        from[i as usize] = i * 3;
    }
    for len in [0usize, 1, 31, 32, 33, 63, 64, 65, 70] {
        for coef in [0u8, 1, 2, 29, 142, 255] {
            assert!(rt; len <= 70);
            assert!(rt; are_same(coef, &from, len), "{coef} times {len} bytes");
        }
    }
}
