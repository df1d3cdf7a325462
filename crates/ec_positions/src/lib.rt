//! The objects of a pool, what a client may ask of them, and what each position of a code holds of them. Definitions and laws
//! alone, over numbers, lists and finite maps.
//!
//! `specs/Objects.antt`, `specs/Updates.antt`, `specs/Refusals.antt` and `specs/Commands.antt` speak of whole objects, and
//! `specs/Positions.antt` of what a code makes of them.
//!
//! Headline: what a position gets of an update that is not refused fits its shard, and makes what it holds of the objects after
//! the update ([`changes_keep_positions`]).
//!
//! With two data chunks in units of 32 bytes: `append a 0102` on no objects gives position 0 a write of 1, 2 and 30 zeros at 0,
//! position 1 one of 32 zeros, and the parity the sum of both.
#![tactic(auto)]

mod laws;

pub use laws::{changes_keep_positions, lists_are_one, refusal_changes_nothing};
