//! The object that the chunks of some positions make.
ghost use Rattle.std.specs.Prelude.{◌≡◌, ◌<◌, ◌≤◌, ◌+◌, ◌*◌, ℕ, ◌++◌, length, take, IfOk, OnOk};
ghost use Rattle.ec_model.specs.Stripes.{stripe_count, shard_len};
ghost use Rattle.stripe_map.specs.Decoding.{AllHaveLength, made_lists, stripe_of, stripes_of};
ghost use Rattle.stripe_map.specs.Sizes.{max_object};

use crate::Chunks;
use crate::combining::make_piece;
use ec_words::{Geometry, NoMemory};
use std::alloc::Global;

/// The object of `size` bytes whose data positions the chunks of the first `n` positions make by these rows: stripe by stripe,
/// without the padding. Each piece is made in the cache and then appended, so that no list is held beside the chunks.
pub fn joined(
    alloc: Global,
    rows: &[[u8; 16]; 16],
    g: Geometry,
    n: u8,
    chunks: &Chunks,
    size: usize,
) -> Result<Vec<u8>, NoMemory>
    requires k { g.k ≤ 16 }
    requires n { n ≤ 16 }
    requires within_limit { size ≤ max_object }
    requires lengths { AllHaveLength chunks.now (shard_len g.k g.unit size) }
    ensures value { IfOk result (λ whole. whole.items ≡ take size (stripes_of g.k g.unit
        (made_lists g.k n rows.now chunks.now (shard_len g.k g.unit size)) (stripe_count g.k g.unit size))) }
    ensures long { IfOk result (λ whole. length whole.items ≡ size) }
{
    let unit = g.unit as usize;
    let count = size.div_ceil(g.k as usize * unit);
    let mut piece = vec![in alloc; 0u8; unit]?;
    let mut whole = Vec::with_capacity(alloc, count * unit * g.k as usize)?;
    for stripe in 0..count {
        join_stripe(rows, g, n, chunks, count, stripe, &mut piece, &mut whole)?;
    }
    whole.truncate(size);
    Ok(whole)
}

// Adds the piece of each data position in a stripe.
fn join_stripe(
    rows: &[[u8; 16]; 16],
    g: Geometry,
    n: u8,
    chunks: &Chunks,
    count: usize,
    stripe: usize,
    piece: &mut [u8],
    whole: &mut Vec<u8>,
) -> Result<(), NoMemory>
    requires k { g.k ≤ 16 }
    requires n { n ≤ 16 }
    requires lengths { AllHaveLength chunks.now (count * g.unit) }
    requires some { count ≤ max_object }
    requires inside { stripe < count }
    requires piece { length piece.old ≡ g.unit }
    ensures value { OnOk result (whole.new.items ≡ whole.old.items
        ++ stripe_of g.k g.unit (made_lists g.k n rows.now chunks.now (count * g.unit)) stripe) }
    ensures piece { length piece.new ≡ g.unit }
{
    let unit = g.unit as usize;
    for j in 0..g.k as usize {
        make_piece(n, &rows[j], chunks, stripe * unit, count * unit, piece);
        whole.extend_from_slice(piece)?;
    }
    Ok(())
}
