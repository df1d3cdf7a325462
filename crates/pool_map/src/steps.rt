//! The bytes of steps that a map writes.
ghost use Rattle.std.specs.Prelude.{◌≡◌, if◌then◌else◌};
ghost use Rattle.pool_map.specs.Steps.{step_bytes};
ghost use Rattle.map_model.specs.Steps as steps;

use byteorder::{BigEndian, ByteOrder};
use ec_words::{Mask, Version};

/// The bytes of an interval's begin.
pub(crate) fn begin_bytes(epoch: u32, up: Mask) -> [u8; 7]
    ensures { result ≡ step_bytes (steps.Begin epoch up.0) }
{
    let mut bytes = [0; 7];
    bytes[0] = 2;
    BigEndian::write_u32(&mut bytes[1..], epoch);
    BigEndian::write_u16(&mut bytes[5..], up.0);
    bytes
}

/// The bytes of an interval's going alive.
pub(crate) fn alive_bytes(epoch: u32, joined: Mask, base: &Version) -> [u8; 19]
    ensures { result ≡ step_bytes (steps.Alive epoch joined.0 base.now) }
{
    let mut bytes = [0; 19];
    bytes[0] = 3;
    BigEndian::write_u32(&mut bytes[1..], epoch);
    BigEndian::write_u16(&mut bytes[5..], joined.0);
    BigEndian::write_u32(&mut bytes[7..], base.epoch);
    BigEndian::write_u64(&mut bytes[11..], base.seq);
    bytes
}

/// How a mark is written.
pub(crate) fn down_byte(down: bool) -> u8
    ensures { result ≡ (if down then 1 else 0) }
{
    if down { 1 } else { 0 }
}

/// The bytes of a mark.
pub(crate) fn mark_bytes(slot: u8, down: u8) -> [u8; 3]
    ensures { result ≡ step_bytes (steps.Mark slot down) }
{
    [4, slot, down]
}
