//! Thirty-two bytes at a time. A product is looked up: the product of a byte's low four bits in one table of 16 entries, and
//! that of its high four bits in another, by one shuffle of bytes each. A vector holds its table twice, since a shuffle looks
//! within each 16 bytes.
ghost use Rattle.std.specs.Prelude.{◌≡◌, ◌<◌, ◌≤◌, ◌+◌, ◌*◌, ◌/◌, ◌%◌, ℕ, length, slice_index};
ghost use Rattle.ec_model.specs.Field.{field_product};
ghost use Rattle.gf256.specs.Kernels.{AddsWithin};

use crate::field::{doubled, mul};
use std::simd::prelude::*;

/// The bytes of a block.
pub const LANES: usize = 32;

/// The multiples of the bytes below 16 and of the multiples of 16, by one coefficient.
#[derive(Drop)]
pub struct Multiples {
    coef: u8,
    low: u8x32,
    high: u8x32,
    ghost low_products: { (i : ℕ) → i < 32 → slice_index low i ≡ field_product coef (i % 16) },
    ghost high_products: { (i : ℕ) → i < 32 → slice_index high i ≡ field_product coef (i % 16 * 16) },
}

impl Multiples {
    /// The tables of a coefficient.
    pub fn new(coef: u8) -> Self
        ensures { result.coef ≡ coef }
    {
        let low = table_of(coef);
        let high = table_of(mul(coef, 16));
        Multiples {
            coef,
            low: u8x32::from_array(low),
            high: u8x32::from_array(high),
        }
    }

    fn of(&self, bytes: u8x32) -> u8x32
        ensures long { length result ≡ 32 }
        ensures products { (k : ℕ) → k < 32 → slice_index result k ≡ field_product self.now.coef (slice_index bytes k) }
    {
        let low = looked_up(self.low, bytes);
        let high = looked_up(self.high, bytes >> u8x32::splat(4));
        low ^ high
    }
}

// The entry of the table that the low four bits of each byte name, in that byte's half of the vector.
fn looked_up(table: u8x32, bytes: u8x32) -> u8x32
    ensures long { length result ≡ 32 }
    ensures found { (k : ℕ) → k < 32
        → slice_index result k ≡ slice_index table (16 * (k / 16) + slice_index bytes k % 16) }
{
    table.swizzle_dyn_within::<16>(bytes & u8x32::splat(15))
}

// The products of a factor with 0 to 15, twice.
fn table_of(factor: u8) -> [u8; 32]
    ensures { (i : ℕ) → i < 32 → slice_index result i ≡ field_product factor (i % 16) }
{
    let mut all = [0u8; 32];
    for i in 1..32usize {
        all[i] = next_product(factor, i, &all);
    }
    all
}

// The next entry, from those before it. If each entry took eight doublings, the tables would cost as much as 4 KiB of products.
fn next_product(factor: u8, i: usize, all: &[u8; 32]) -> u8
    requires from { 1 ≤ i }
    requires inside { i < 32 }
    requires before { (k : ℕ) → k < i → slice_index all.now k ≡ field_product factor (k % 16) }
    ensures { result ≡ field_product factor (i % 16) }
{
    if i >= 16 {
        all[i - 16]
    } else if i % 2 == 0 {
        doubled(all[i / 2])
    } else {
        all[i - 1] ^ factor
    }
}

/// Adds the 32 bytes of `from` from `at` on to those of `to`.
pub fn add_block(at: usize, to: &mut [u8], from: &[u8])
    requires to { at + 32 ≤ length to.old }
    requires from { at + 32 ≤ length from.now }
    ensures { AddsWithin (λ b. b) at (at + 32) to.old from.now to.new }
{
    let sum = u8x32::from_slice(&to[at..]) ^ u8x32::from_slice(&from[at..]);
    sum.copy_to_slice(&mut to[at..]);
}

/// Adds the multiples of the 32 bytes of `from` from `at` on to the bytes of `to`.
pub fn add_multiple_block(multiples: &Multiples, at: usize, to: &mut [u8], from: &[u8])
    requires to { at + 32 ≤ length to.old }
    requires from { at + 32 ≤ length from.now }
    ensures { AddsWithin (field_product multiples.now.coef) at (at + 32) to.old from.now to.new }
{
    let products = multiples.of(u8x32::from_slice(&from[at..]));
    let sum = u8x32::from_slice(&to[at..]) ^ products;
    sum.copy_to_slice(&mut to[at..]);
}
