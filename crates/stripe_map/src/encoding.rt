//! The chunks of one position of an object, one after another. Source: Ceph developer guide, "Erasure Coded pool": a stripe is
//! `k * stripe_unit` bytes of the object, and the last one is padded with zeros.
ghost use Rattle.std.specs.Prelude.{◌≡◌, ◌<◌, ◌≤◌, ◌*◌, length, IfOk};
ghost use Rattle.ec_model.specs.Codes.{IsPositionList};
ghost use Rattle.ec_model.specs.Stripes.{stripe_count, shard_len, padded, chunk_at};
ghost use Rattle.stripe_map.specs.Encoding.{last_stripe, HasStripes};
ghost use Rattle.stripe_map.specs.Sizes.{max_object};

use ec_code::{Code, encode_chunk, row_of};
use ec_words::{Bytes, Geometry, NoMemory};
use std::alloc::Global;

/// The chunks of position `p` of an object with these bytes, joined over its stripes: `g.unit` bytes for each stripe of
/// `g.k * g.unit` bytes. The last stripe is padded with zeros. For an object without bytes the result is empty.
/// `Err` if memory runs out.
pub fn encode_object(
    alloc: Global,
    code: &dyn Code,
    g: Geometry,
    bytes: &[u8],
    p: u8,
) -> Result<Bytes, NoMemory>
    requires same_k { g.k ≡ (meaning code.now).k }
    requires within_limit { length bytes.now ≤ max_object }
    requires p { p < (meaning code.now).n }
    ensures { IfOk result (IsPositionList (meaning code.now) g.unit bytes.now p) }
{
    let row = row_of(code, p);
    let last = padded_rest(alloc, bytes, g.k as usize * g.unit as usize)?;
    let list = encode_stripes(alloc, &row, g, bytes, &last)?;
    Ok(Bytes::of(list))
}

/// The bytes behind the whole stripes, padded with zeros to a stripe.
fn padded_rest(alloc: Global, bytes: &[u8], width: usize) -> Result<Vec<u8>, NoMemory>
    requires { 1 ≤ width }
    ensures { IfOk result (λ last. last.items ≡ last_stripe width bytes.now) }
{
    let rest = &bytes[bytes.len() / width * width..];
    let mut last = Vec::from_slice(alloc, rest)?;
    last.resize(width, 0)?;
    Ok(last)
}

/// The bytes of a stripe: a part of the object, or the padded last stripe.
fn stripe_of<'a>(g: Geometry, bytes: &'a [u8], last: &'a [u8], stripe: usize) -> &'a [u8]
    requires within_limit { length bytes.now ≤ max_object }
    requires last { last.now ≡ last_stripe (g.k * g.unit) bytes.now }
    requires inside { stripe < stripe_count g.k g.unit (length bytes.now) }
    ensures value { result.now ≡ chunk_at (g.k * g.unit) (padded g.k g.unit bytes.now) stripe }
    ensures long { length result.now ≡ g.k * g.unit }
{
    let width = g.k as usize * g.unit as usize;
    let at = stripe * width;
    if at + width <= bytes.len() {
        &bytes[at..at + width]
    } else {
        last
    }
}

/// The chunks by a row, stripe after stripe. Each is made in the cache and then appended, so that the list goes through memory once.
fn encode_stripes(
    alloc: Global,
    row: &[u8; 16],
    g: Geometry,
    bytes: &[u8],
    last: &[u8],
) -> Result<Vec<u8>, NoMemory>
    requires k { g.k ≤ 16 }
    requires within_limit { length bytes.now ≤ max_object }
    requires last { last.now ≡ last_stripe (g.k * g.unit) bytes.now }
    ensures long { IfOk result (λ list. length list.items ≡ shard_len g.k g.unit (length bytes.now)) }
    ensures value { IfOk result (λ list. HasStripes g.k g.unit row.now bytes.now
        (stripe_count g.k g.unit (length bytes.now)) list.items) }
{
    let unit = g.unit as usize;
    let count = bytes.len().div_ceil(g.k as usize * unit);
    let mut chunk = vec![in alloc; 0u8; unit]?;
    let mut list = Vec::with_capacity(alloc, count * unit)?;
    for stripe in 0..count {
        let stripe = stripe_of(g, bytes, last, stripe);
        encode_chunk(row, g.k, stripe, unit, &mut chunk);
        list.extend_from_slice(&chunk)?;
    }
    Ok(list)
}
