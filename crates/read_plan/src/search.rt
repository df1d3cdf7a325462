//! The search for the least set that settles the wanted rows: size by size, and within a size by ascending lists. The rows
//! that are left after a position was chosen are those of the whole branch.
ghost use Rattle.std.specs.Prelude.{◌<◌, IfSome, IfNone};
ghost use Rattle.read_plan.specs.Settling.{Settles, IsFirst, NoneSettles, IsLeastSettling};

use crate::lines::{are_settled, are_settled_by, taken};
use crate::sets::{both, lowest, size, with, without};
use ec_words::Mask;

/// The first set of `len` available positions that settles the wanted ones.
fn first_set(rows: &[[u8; 16]; 16], avail: Mask, wanted: Mask, len: u8) -> Option<Mask>
    ensures some { IfSome result (λ found. IsFirst rows.now avail.0 wanted.0 len found.0) }
    ensures none { IfNone result (NoneSettles rows.now avail.0 wanted.0 len) }
{
    if size(avail) < len {
        return None;
    }
    match len {
        0 => if are_settled(rows, wanted) {
            Some(Mask(0))
        } else {
            None
        },
        1 => first_one(rows, avail, wanted),
        _ => {
            let q = lowest(avail);
            let rest = without(avail, q);
            let left = taken(rows, q, both(rest, wanted));
            match first_set(&left, rest, wanted, len - 1) {
                Some(found) => Some(with(found, q)),
                None => first_set(rows, rest, wanted, len),
            }
        }
    }
}

/// The first position that settles the wanted ones by itself.
fn first_one(rows: &[[u8; 16]; 16], avail: Mask, wanted: Mask) -> Option<Mask>
    ensures some { IfSome result (λ found. IsFirst rows.now avail.0 wanted.0 1 found.0) }
    ensures none { IfNone result (NoneSettles rows.now avail.0 wanted.0 1) }
{
    for q in 0..16u8 {
        if avail.has(q) && are_settled_by(rows, q, wanted) {
            return Some(with(Mask(0), q));
        }
    }
    None
}

/// The least set of available positions that settles the wanted ones.
pub fn least(rows: &[[u8; 16]; 16], avail: Mask, wanted: Mask) -> Option<Mask>
    ensures some { IfSome result (λ found. IsLeastSettling rows.now avail.0 wanted.0 found.0) }
    ensures none { IfNone result (Settles rows.now avail.0 wanted.0 → ⊥) }
{
    for len in 0..17u8 {
        match first_set(rows, avail, wanted, len) {
            Some(found) => return Some(found),
            None => {}
        }
    }
    None
}
