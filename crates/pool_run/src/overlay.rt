//! Bytes that are put into an object.
ghost use Rattle.std.specs.Prelude.{◌≡◌, ◌≤◌, length, IfOk, OnOk};
ghost use Rattle.shard_model.specs.Limits.{max_size};
ghost use Rattle.ec_positions.specs.Updates.{overlaid};

use ec_words::{Bytes, NoMemory};

/// An object's bytes with some of them in the place of those from `off` on. Zeros fill a gap before them.
pub fn overlay(old: Bytes, off: usize, bytes: &[u8]) -> Result<Bytes, NoMemory>
    requires some { 1 ≤ length bytes.now }
    requires within_limit { off ≤ max_size }
    ensures { IfOk result (λ list. list ≡ overlaid off bytes.now old) }
{
    let mut list = old.into_vec();
    put_bytes(&mut list, off, bytes)?;
    Ok(Bytes::of(list))
}

#[tactic(auto, using(crate::proofs::OverlayLemmas::overlaid_inside, crate::proofs::OverlayLemmas::overlaid_behind))]
fn put_bytes(list: &mut Vec<u8>, off: usize, bytes: &[u8]) -> Result<(), NoMemory>
    requires some { 1 ≤ length bytes.now }
    requires within_limit { off ≤ max_size }
    ensures { OnOk result (list.new.items ≡ overlaid off bytes.now list.old.items) }
{
    let end = off + bytes.len();
    if end < list.len() {
        list[off..end].copy_from_slice(bytes);
    } else {
        list.resize(off, 0)?;
        list.extend_from_slice(bytes)?;
    }
    Ok(())
}
