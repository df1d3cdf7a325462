//! The head of a shard's text.
ghost use Rattle.std.specs.Prelude.{◌≡◌};
ghost use Rattle.shard_store.specs.Stories.{shard_head};

use ec_words::Geometry;
use slot_journal::{Header, Owner};

/// The format of texts.
const FORMAT: u8 = 1;

/// The head of the text of a slot in a pool of `n` positions.
pub(crate) fn shard_head(slot: u8, g: Geometry, n: u8) -> [u8; 23]
    ensures { result ≡ shard_head slot (record { k = g.k; unit = g.unit }) n }
{
    let header = Header {
        owner: Owner::Shard,
        format: FORMAT,
        slot,
        k: g.k,
        n,
        unit: g.unit,
        serial: 0,
    };
    header.encode()
}
