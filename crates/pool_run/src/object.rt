//! An object as its coded chunks.
ghost use Rattle.std.specs.Prelude.{◌≡◌, ◌≤◌, ℕ, List, length, IfOk};
ghost use Rattle.pool_run.specs.Stored.{IsStored, max_object};

use ec_code::Code;
use ec_words::{Bytes, Geometry, NoMemory};
use std::alloc::Global;
use std::marker::Model;
use stripe_map::{Chunks, DecodeFault, decode_object, encode_object};

/// An object, kept as its size and the chunks of each position of a code. A contract sees the two.
#[derive(Drop)]
pub struct StoredObject {
    size: u32,
    chunks: Chunks,
}

impl Model for StoredObject {
    ghost use Rattle.pool_run.specs.Stored.{Stored, coded_stored};

    ghost Value = { Stored };

    ghost coded = { coded_stored };

    ghost view = { λ o. record { size = o.size; chunks = o.chunks } };
}

impl StoredObject {
    /// The chunks of an object with these bytes.
    pub fn encode(
        alloc: Global,
        code: &dyn Code,
        unit: u32,
        bytes: &[u8],
    ) -> Result<StoredObject, NoMemory>
        requires some { 1 ≤ unit }
        requires few { unit ≤ 65536 }
        requires within_limit { length bytes.now ≤ max_object }
        ensures { IfOk result (IsStored (meaning code.now) unit bytes.now) }
    {
        let shape = code.shape();
        let g = Geometry { k: shape.k, unit };
        let mut chunks = Chunks::new();
        for p in 0..shape.n {
            let chunk = encode_object(alloc, code, g, bytes, p)?;
            chunks.set(p, chunk);
        }
        let size = bytes.len() as u32;
        Ok(StoredObject { size, chunks })
    }

    /// The number of the object's bytes.
    pub fn size(&self) -> u32
        ensures { result ≡ self.now.size }
    {
        self.size
    }

    /// The object's bytes. All positions are there, so the data positions are read as they are.
    pub fn decode(&self, alloc: Global, code: &dyn Code, unit: u32) -> Result<Bytes, NoMemory>
        requires some { 1 ≤ unit }
        requires few { unit ≤ 65536 }
        requires stored { (bytes : List ℕ) × IsStored (meaning code.now) unit bytes self.now }
        ensures { IfOk result (λ found. (bytes : List ℕ)
            → IsStored (meaning code.now) unit bytes self.now → found ≡ bytes) }
    {
        let k = code.shape().k;
        let g = Geometry { k, unit };
        match decode_object(alloc, code, g, &self.chunks, self.size) {
            Ok(bytes) => Ok(bytes),
            Err(DecodeFault::NoMemory) => Err(NoMemory),
            Err(DecodeFault::NotDecided) => unreachable!(),
            Err(DecodeFault::Lengths) => unreachable!(),
        }
    }
}
