//! An object from the chunks of some positions.
ghost use Rattle.std.specs.Prelude.{◌≡◌, ◌↔◌, ◌≤◌, ◌^◌, ℕ, List, Err, IfOk, IsTrue, length};
ghost use Rattle.ec_model.specs.Codes.{IsCode, LiesBelow};
ghost use Rattle.ec_model.specs.Stripes.{shard_len};
ghost use Rattle.stripe_map.specs.Decoding.{HaveMaskBelow, DecidesData, DecideData, AllHaveLength, AreOfObject};
ghost use Rattle.stripe_map.specs.Sizes.{max_object};
ghost use Rattle.stripe_map.specs.declared.decoding.DecodeFault.TheVariants.{NotDecided, Lengths, NoMemory as OutOfMemory};

use crate::Chunks;
use crate::combining::data_rows;
use crate::joining::joined;
use ec_code::{Code, combine};
use ec_words::{Bytes, Geometry, Mask, NoMemory};
use std::alloc::Global;
use thiserror::Error;

/// Why chunks do not give an object.
#[derive(Clone, Copy, Debug, PartialEq, Eq, Error)]
pub enum DecodeFault {
    /// The positions of the chunks do not decide the data positions.
    #[error("not decided")]
    NotDecided,
    /// The length of a chunk is not that of a position's list.
    #[error("wrong lengths")]
    Lengths,
    /// Memory ran out.
    #[error("out of memory")]
    NoMemory,
}

impl From<NoMemory> for DecodeFault {
    ghost from_gives = { λ _ fault. fault ≡ OutOfMemory };

    fn from(_: NoMemory) -> DecodeFault {
        DecodeFault::NoMemory
    }
}

/// The object of `size` bytes to which these chunks belong. The chunk of a position is that position's list: its chunk of each
/// stripe, one after another. Chunks that belong to no object give some bytes.
pub fn decode_object(
    alloc: Global,
    code: &dyn Code,
    g: Geometry,
    chunks: &Chunks,
    size: u32,
) -> Result<Bytes, DecodeFault>
    requires same_k { g.k ≡ (meaning code.now).k }
    requires within_limit { size ≤ max_object }
    requires below { HaveMaskBelow chunks.now (meaning code.now).n }
    ensures value { IfOk result (λ found. (bytes : List ℕ)
        → AreOfObject (meaning code.now) g.unit chunks.now size bytes → found ≡ bytes) }
    ensures long { IfOk result (λ found. length found ≡ size) }
    ensures not_decided { (result ≡ Err NotDecided)
        ↔ (DecideData (meaning code.now) chunks.now → ⊥) }
    ensures lengths { (result ≡ Err Lengths) ↔ (DecideData (meaning code.now) chunks.now
        × (AllHaveLength chunks.now (shard_len g.k g.unit size) → ⊥)) }
{
    let from = chunks.mask();
    if !decides_data(code, from) {
        return Err(DecodeFault::NotDecided);
    }
    let long = shard_len(g, size);
    if !chunks.have_length(long) {
        return Err(DecodeFault::Lengths);
    }
    let rows = data_rows(code, from);
    let whole = joined(alloc, &rows, g, code.shape().n, chunks, size as usize)?;
    Ok(Bytes::of(whole))
}

// Whether a set of positions decides all data positions.
fn decides_data(code: &dyn Code, from: Mask) -> bool
    requires { LiesBelow (meaning code.now).n from.0 }
    ensures value { IsTrue result ↔ DecidesData (meaning code.now) from.0 }
    ensures is_code { IsCode (meaning code.now) }
{
    for j in 0..code.shape().k {
        if combine(code, from, code.place(j)).is_none() {
            return false;
        }
    }
    true
}

// The bytes of a position's list.
fn shard_len(g: Geometry, size: u32) -> usize
    requires { size ≤ max_object }
    ensures { result ≡ shard_len g.k g.unit size }
{
    let unit = g.unit as usize;
    (size as usize).div_ceil(g.k as usize * unit) * unit
}
