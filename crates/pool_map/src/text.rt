//! The text of a map, as it is read from its slot.
ghost use Rattle.std.specs.Prelude.{◌≡◌, ◌≢◌, ◌⊎◌, ◌≤◌, ◌<◌, ◌∷◌, ℕ, List, length, take, get_or, Some, Err, IfOk, IfErr, IsTrue, false};
ghost use Rattle.rig_disk.specs.During.{During};
ghost use Rattle.ec_words.specs.Readers.{IsWord};
ghost use Rattle.slot_journal.specs.Header.{open_gate};
ghost use Rattle.slot_journal.specs.InUse.{told_text};
ghost use Rattle.slot_journal.specs.Journal.{Holds, IsSettledWhereTold, IsFresh, HaveInUse};
ghost use Rattle.slot_journal.specs.Reading.{SyncsAndReadsArea};
ghost use Rattle.slot_journal.specs.Text.{IsText};
ghost use Rattle.pool_map.specs.Faults.{HasMapCause};
ghost use Rattle.pool_map.specs.Calls.{IsRead, IsNotRead};
ghost use Rattle.pool_map.specs.Maps.{map_head};

use crate::MapFault;
use crate::front::read_front;
use crate::limits::MAP_SLOT;
use byteorder::{BigEndian, ByteOrder};
use rig_disk::Rig;
use slot_journal::{Bodies, HEADER_LEN, Header, Journal, Owner, bad_texts_have_one_place};
use std::alloc::Global;

/// The numbers that a header says.
#[derive(Clone, Copy)]
pub(crate) struct Numbers {
    pub k: u8,
    pub n: u8,
    pub unit: u32,
}

/// A map's text as it was read.
#[derive(Drop)]
pub(crate) struct MapText {
    pub journal: Journal,
    pub bodies: Bodies,
    pub numbers: Numbers,
}

/// Bytes 1 to 23 of a map's text.
pub(crate) fn map_head(numbers: Numbers) -> [u8; 23]
    ensures { result ≡ map_head numbers.k numbers.n numbers.unit }
{
    let header = Header {
        owner: Owner::Map,
        format: 1,
        slot: MAP_SLOT,
        k: numbers.k,
        n: numbers.n,
        unit: numbers.unit,
        serial: 0,
    };
    header.encode()
}

/// The numbers in a header.
fn numbers_of(front: &[u8; 24]) -> Numbers
    ensures { (k n unit : ℕ) → IsWord unit → front.now ≡ open_gate ∷ map_head k n unit
        → (k ≡ result.k) × ((n ≡ result.n) × (unit ≡ result.unit)) }
{
    Numbers {
        k: front[10],
        n: front[11],
        unit: BigEndian::read_u32(&front[12..16]),
    }
}

/// Reads the map's text in use.
pub(crate) fn load_text<R: Rig>(alloc: Global, rig: &mut R) -> Result<MapText, MapFault>
    requires here { R.is_here rig.old 16 }
    ensures ok { IfOk result (λ read. IsRead R.reads R.clock R.images rig.old rig.new
        read.journal read.bodies read.numbers.k read.numbers.n read.numbers.unit) }
    ensures refused { IsNotRead R.reads R.clock R.images rig.old rig.new result }
    ensures only_if_fault { HasMapCause (R.faults rig.old 16) (R.faults rig.new 16) result }
    ensures kept { SyncsAndReadsArea R.is_here R.reads R.said R.clock R.images R.faults R.syncs R.bytes_written R.bytes_read
        16 0 2 (result ≡ Err MapFault.Failed) rig.old rig.new }
{
    bad_texts_have_one_place();
    let mut front = [0; HEADER_LEN];
    if !read_front(rig, &mut front)? {
        return Err(MapFault::NoPool);
    }
    let numbers = numbers_of(&front);
    let head = map_head(numbers);
    let (journal, bodies) = Journal::load(alloc, rig, MAP_SLOT, &head)?;
    Ok(MapText {
        journal,
        bodies,
        numbers,
    })
}
