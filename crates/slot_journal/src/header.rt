//! The header of a text: a gate, and a head of 23 bytes that says whose text it is.
ghost use Rattle.std.specs.Prelude.{◌≡◌, ◌≢◌, IfSome, IfNone, MatchOption};

use crate::KNOWN_FORMATS;
use byteorder::{BigEndian, ByteOrder};

/// Whose text it is.
#[derive(Clone, Copy)]
pub enum Owner {
    Shard,
    Map,
}

/// What a head says.
#[derive(Clone, Copy)]
pub struct Header {
    pub owner: Owner,
    pub format: u8,
    pub slot: u8,
    pub k: u8,
    pub n: u8,
    /// Bytes of a chunk in one stripe.
    pub unit: u32,
    /// It tells which of two texts of a slot is the newer one. So far it is 0.
    pub serial: u64,
}

const SHARD_LETTERS: [u8; 7] = *b"ECSHARD";

const MAP_LETTERS: [u8; 7] = *b"ECPOOLM";

impl Owner {
    ghost use Rattle.std.specs.Prelude.{take};
    ghost use Rattle.slot_journal.specs.declared.header.Owner.{Owner};
    ghost use Rattle.slot_journal.specs.Header.{magic_of};

    /// Whose letters a head begins with.
    fn of_head(head: &[u8; 23]) -> Option<Owner>
        ensures { MatchOption result ((owner : Owner)
            → take 7 head.now ≢ magic_of owner) (λ owner. take 7 head.now ≡ magic_of owner) }
    {
        if head.starts_with(&SHARD_LETTERS) {
            return Some(Owner::Shard);
        }
        if head.starts_with(&MAP_LETTERS) {
            return Some(Owner::Map);
        }
        None
    }
}

impl Header {
    ghost use Rattle.slot_journal.specs.Header.{head_of, IsHead};

    /// The bytes of the head.
    pub fn encode(&self) -> [u8; 23]
        ensures { result ≡ head_of self.now }
    {
        let letters = match self.owner {
            Owner::Shard => SHARD_LETTERS,
            Owner::Map => MAP_LETTERS,
        };
        let mut head = [0; 23];
        head[..7].copy_from_slice(&letters);
        head[7] = self.format;
        head[8] = self.slot;
        head[9] = self.k;
        head[10] = self.n;
        BigEndian::write_u32(&mut head[11..], self.unit);
        BigEndian::write_u64(&mut head[15..], self.serial);
        head
    }

    /// What a head says, or `None` if its letters or its format are not known.
    pub fn decode(head: &[u8; 23]) -> Option<Header>
        ensures value { IfSome result (λ header. head_of header ≡ head.now) }
        ensures none { IfNone result (IsHead head.now → ⊥) }
    {
        let owner = Owner::of_head(head)?;
        if !KNOWN_FORMATS.contains(&head[7]) {
            return None;
        }
        Some(Header {
            owner,
            format: head[7],
            slot: head[8],
            k: head[9],
            n: head[10],
            unit: BigEndian::read_u32(&head[11..]),
            serial: BigEndian::read_u64(&head[15..]),
        })
    }
}
