//! An object that is put together from the chunks of one position after another. Only one position's chunks are held at a time.
ghost use Rattle.std.specs.Prelude.{◌≡◌, ◌<◌, ◌≤◌, ◌+◌, ◌*◌, ◌/◌, ℕ, length, slice_index, bit_xor};
ghost use Rattle.ec_model.specs.Field.{field_product};
ghost use Rattle.stripe_map.specs.Assembling.{AddsPosition};
ghost use Rattle.stripe_map.specs.Sizes.{max_object};

use ec_words::Geometry;
use gf256::mul_add_into;

/// Adds to an object of `count` stripes the part that the chunks of position `q` make, by the rows that
/// [`data_rows`](crate::data_rows) gives. If each position of a set is added to an object of zeros, it becomes the object of
/// the set's chunks. `chunks` has `g.unit` bytes for each stripe, and `object` has `g.k * g.unit`.
pub fn add_position(
    rows: &[[u8; 16]; 16],
    g: Geometry,
    q: u8,
    count: usize,
    chunks: &[u8],
    object: &mut [u8],
)
    requires k { g.k ≤ 16 }
    requires q { q < 16 }
    requires within_limit { length chunks.now ≤ max_object }
    requires units { length chunks.now ≡ count * g.unit }
    requires long { length object.old ≡ count * g.k * g.unit }
    ensures value { AddsPosition g.k g.unit rows.now q chunks.now object.old object.new (count * g.k) }
    ensures long { length object.new ≡ length object.old }
{
    let k = g.k as usize;
    add_units(rows, k, g.unit as usize, q, count * k, chunks, object);
}

// Adds to each unit of an object, one after another.
fn add_units(
    rows: &[[u8; 16]; 16],
    k: usize,
    unit: usize,
    q: u8,
    units: usize,
    chunks: &[u8],
    object: &mut [u8],
)
    requires k { 1 ≤ k }
    requires rows { k ≤ 16 }
    requires q { q < 16 }
    requires within_limit { length chunks.now ≤ max_object }
    requires inside { (v : ℕ) → v < units → v / k * unit + unit ≤ length chunks.now }
    requires long { length object.old ≡ units * unit }
    ensures value { AddsPosition k unit rows.now q chunks.now object.old object.new units }
    ensures long { length object.new ≡ length object.old }
{
    for v in 0..units {
        let at = v * unit;
        add_unit(
            rows[v % k][q as usize],
            chunks,
            v / k * unit,
            &mut object[at..at + unit],
        );
    }
}

// Adds a multiple of the unit of a position's chunks that begins at `at`.
fn add_unit(coefficient: u8, chunks: &[u8], at: usize, unit: &mut [u8])
    requires { at + length unit.old ≤ length chunks.now }
    ensures value { (b : ℕ) → b < length unit.old → slice_index unit.new b
        ≡ bit_xor (slice_index unit.old b) (field_product coefficient (slice_index chunks.now (at + b))) }
    ensures long { length unit.new ≡ length unit.old }
{
    mul_add_into(coefficient, unit, &chunks[at..at + unit.len()]);
}
