//! Sums and multiples of slices, 32 bytes at a time and then byte by byte.
ghost use Rattle.std.specs.Prelude.{◌≡◌, ◌≤◌, ◌+◌, ◌*◌, ◌/◌, ℕ, length, EachIndex, slice_index, bit_xor};
ghost use Rattle.ec_model.specs.Field.{field_product};
ghost use Rattle.gf256.specs.Kernels.{AddsWithin};

use crate::lanes::{LANES, Multiples, add_block, add_multiple_block};
use crate::mul;

/// Adds each byte of `from` to the byte of `to` at its place.
pub fn add_into(to: &mut [u8], from: &[u8])
    requires { length to.old ≡ length from.now }
    ensures { EachIndex to.new (λ i. slice_index to.new i
        ≡ bit_xor (slice_index to.old i) (slice_index from.now i)) }
{
    add_blocks(to, from);
    add_tail(from.len() / LANES * LANES, to, from);
}

/// Adds the product of `coef` and each byte of `from` to the byte of `to` at its place.
pub fn mul_add_into(coef: u8, to: &mut [u8], from: &[u8])
    requires { length to.old ≡ length from.now }
    ensures { EachIndex to.new (λ i. slice_index to.new i
        ≡ bit_xor (slice_index to.old i) (field_product coef (slice_index from.now i))) }
{
    match coef {
        0 => {}
        1 => add_into(to, from),
        _ => add_multiple(coef, to, from),
    }
}

fn add_multiple(coef: u8, to: &mut [u8], from: &[u8])
    requires { length to.old ≡ length from.now }
    ensures { AddsWithin (field_product coef) 0 (length from.now) to.old from.now to.new }
{
    let multiples = Multiples::new(coef);
    add_multiple_blocks(&multiples, to, from);
    add_multiple_tail(coef, from.len() / LANES * LANES, to, from);
}

// The whole blocks of 32 bytes.
fn add_blocks(to: &mut [u8], from: &[u8])
    requires { length to.old ≡ length from.now }
    ensures { AddsWithin (λ b. b) 0 (length from.now / 32 * 32) to.old from.now to.new }
{
    for block in 0..from.len() / LANES {
        add_block(block * LANES, to, from);
    }
}

fn add_multiple_blocks(multiples: &Multiples, to: &mut [u8], from: &[u8])
    requires { length to.old ≡ length from.now }
    ensures { AddsWithin (field_product multiples.now.coef) 0 (length from.now / 32 * 32) to.old from.now to.new }
{
    for block in 0..from.len() / LANES {
        add_multiple_block(multiples, block * LANES, to, from);
    }
}

// The bytes from `start` on.
fn add_tail(start: usize, to: &mut [u8], from: &[u8])
    requires same { length to.old ≡ length from.now }
    requires inside { start ≤ length from.now }
    ensures { AddsWithin (λ b. b) start (length from.now) to.old from.now to.new }
{
    for i in start..from.len() {
        to[i] ^= from[i];
    }
}

fn add_multiple_tail(coef: u8, start: usize, to: &mut [u8], from: &[u8])
    requires same { length to.old ≡ length from.now }
    requires inside { start ≤ length from.now }
    ensures { AddsWithin (field_product coef) start (length from.now) to.old from.now to.new }
{
    for i in start..from.len() {
        to[i] ^= mul(coef, from[i]);
    }
}
