//! What a shard holds of an object.
ghost use Rattle.std.specs.Prelude.{◌≡◌, ◌-◌, ◌^◌, min, IfOk};
ghost use Rattle.shard_model.specs.Listings.{object_usage};

use crate::attrs::Attrs;
use ec_words::{Bytes, NoMemory};
use std::alloc::Global;
use std::marker::Model;

/// An object in a shard: the bytes of its position, the size of the whole object, and its attributes.
#[derive(Drop)]
pub struct Held {
    pub bytes: Bytes,
    pub size: u32,
    pub attrs: Attrs,
}

impl Model for Held {
    ghost use Rattle.shard_model.specs.Objects.{ShardObject, shard_object_code};

    ghost Value = { ShardObject };

    ghost coded = { shard_object_code };

    ghost view = { λ h. record { bytes = h.bytes; size = h.size; attrs = h.attrs } };
}

impl Held {
    /// The size, and the bytes of the attributes' names and values; or `u64::MAX` if that is more.
    pub fn usage(&self) -> u64
        ensures { result ≡ min (object_usage self.now) (2 ^ 64 - 1) }
    {
        self.attrs.usage().saturating_add(u64::from(self.size))
    }

    /// An equal object.
    pub(crate) fn copy(&self, alloc: Global) -> Result<Held, NoMemory>
        ensures { IfOk result (λ copy. copy ≡ self.now) }
    {
        let bytes = Bytes::from_slice(alloc, self.bytes.as_slice())?;
        let attrs = self.attrs.copy(alloc)?;
        Ok(Held {
            bytes,
            size: self.size,
            attrs,
        })
    }
}
