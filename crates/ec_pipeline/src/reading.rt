//! Objects, read from the slots of a set.
ghost use Rattle.std.specs.Prelude.{◌≡◌, ◌<◌, ◌≤◌, ◌+◌, ◌*◌, ◌/◌, ◌^◌, ◌⊎◌, ℕ, List, length, min, IfOk, IfErr, IfSome, IsErrOf, OnOk};
ghost use Rattle.std.specs.List.{All};
ghost use Rattle.ec_model.specs.Codes.{HasPosition, LiesBelow};
ghost use Rattle.ec_model.specs.Stripes.{shard_len, stripe_count};
ghost use Rattle.rig_disk.specs.Faults.{Rose, count_limit};
ghost use Rattle.shard_model.specs.Changes.{resized, written};
ghost use Rattle.shard_model.specs.Limits.{max_size};
ghost use Rattle.shard_store.specs.OnSlot.{MayFlush};
ghost use Rattle.shard_store.specs.Ranges.{LacksRange, object_bytes, range_of};
ghost use Rattle.shard_store.specs.Shelves.{store_at, fetched_on, Counts};
ghost use Rattle.slot_journal.specs.Reading.{OnlyReads};
ghost use Rattle.stripe_map.specs.Sizes.{max_object};
ghost use Rattle.ec_positions.specs.Positions.{count_touched};
ghost use Rattle.ec_positions.specs.Updates.{overlaid};
ghost use Rattle.ec_positions.specs.Windows.{stripes_from};
ghost use Rattle.ec_pipeline.specs.Reading.{AreFetched, AreIdle, AreStored, Counted, DecidesAll, FetchesPlan, GiveRange, HasSteps, HasStripesOf, LacksStripes, OnlyFetches};

use crate::PrepareFault;
use ec_code::Code;
use ec_words::{Bytes, Geometry, Mask, Name, shard_len};
use read_plan::plan;
use rig_disk::Rig;
use shard_store::Shelf;
use std::alloc::Global;
use stripe_map::{Chunks, DecodeFault, data_set, decode_object};

/// A range of an object's bytes at each slot of a set: `len` bytes from `at` on.
fn fetch_chunks<R: Rig>(
    alloc: Global,
    shelf: &mut Shelf,
    rig: &mut R,
    set: Mask,
    name: &Name,
    at: u32,
    len: usize,
) -> Result<Chunks, PrepareFault>
    requires idle { AreIdle (R.is_here rig.old) (R.reads rig.old) (R.images rig.old (R.clock rig.old)) set.0 shelf.old }
    ensures value { IfOk result (λ chunks. AreFetched
        (λ s. IfSome (store_at shelf.old s) (HasSteps (R.reads rig.old) (R.images rig.old (R.clock rig.old)))) set.0 16 shelf.old name.now at len chunks) }
    ensures counted { OnOk result (Counted set.0 16 len shelf.old shelf.new) }
    ensures slot { (s : ℕ) → IsErrOf result (PrepareFault.Slot s) → Rose (R.faults rig.old s) (R.faults rig.new s)
        ⊎ LacksRange (object_bytes (store_at shelf.old s) name.now) at len }
    ensures among { (s : ℕ) → IsErrOf result (PrepareFault.Slot s) → HasPosition set.0 s }
    ensures faults { IfErr result (λ fault. (fault ≡ PrepareFault.NoMemory) ⊎ ((s : ℕ) × (fault ≡ PrepareFault.Slot s))) }
    ensures quiet { (s : ℕ) → (IsErrOf result (PrepareFault.Slot s) → ⊥) → R.faults rig.new s ≡ R.faults rig.old s }
    ensures stores { (s : ℕ) → store_at shelf.new s ≡ store_at shelf.old s }
    ensures rig { OnlyFetches R.is_here R.reads R.said R.clock R.images R.syncs R.bytes_written rig.old rig.new }
{
    let mut chunks = Chunks::new();
    for slot in 0..16u8 {
        if set.has(slot) {
            match fetch_chunk(alloc, shelf, rig, slot, name, at, len) {
                Ok(chunk) => chunks.set(slot, chunk),
                Err(fault) => return Err(fault),
            }
        }
    }
    Ok(chunks)
}

// A range of an object's bytes at one slot.
fn fetch_chunk<R: Rig>(
    alloc: Global,
    shelf: &mut Shelf,
    rig: &mut R,
    slot: u8,
    name: &Name,
    at: u32,
    len: usize,
) -> Result<Bytes, PrepareFault>
    requires slot { slot < 16 }
    requires idle { IfSome (store_at shelf.old slot) (MayFlush (R.is_here rig.old) (R.reads rig.old) (R.images rig.old (R.clock rig.old)) slot) }
    ensures value { IfOk result (λ chunk. IfSome (store_at shelf.old slot) (HasSteps (R.reads rig.old) (R.images rig.old (R.clock rig.old)))
        → range_of (object_bytes (store_at shelf.old slot) name.now) at len ≡ Some chunk) }
    ensures long { IfOk result (λ chunk. length chunk ≡ len) }
    ensures counted { OnOk result (fetched_on shelf.new slot ≡ min (fetched_on shelf.old slot + len) count_limit) }
    ensures slot { IsErrOf result (PrepareFault.Slot slot) → Rose (R.faults rig.old slot) (R.faults rig.new slot)
        ⊎ LacksRange (object_bytes (store_at shelf.old slot) name.now) at len }
    ensures faults { IfErr result (λ fault. (fault ≡ PrepareFault.NoMemory) ⊎ (fault ≡ PrepareFault.Slot slot)) }
    ensures quiet { (IsErrOf result (PrepareFault.Slot slot) → ⊥) → R.faults rig.new slot ≡ R.faults rig.old slot }
    ensures others { Counts shelf.old shelf.new slot }
    ensures rig { OnlyReads R.is_here R.reads R.said R.clock R.images R.faults R.syncs R.bytes_written R.bytes_read slot rig.old rig.new }
{
    let mut chunk = Vec::new(alloc);
    match chunk.resize(len, 0) {
        Ok(()) => {}
        Err(_) => return Err(PrepareFault::NoMemory),
    }
    match shelf.fetch(rig, slot, name, at, &mut chunk) {
        Ok(()) => Ok(Bytes::of(chunk)),
        Err(_) => Err(PrepareFault::Slot { slot }),
    }
}

/// The `size` bytes whose chunks each joined slot has from `at` on, read by the least plan for the data positions.
pub(crate) fn read_part<R: Rig>(
    alloc: Global,
    shelf: &mut Shelf,
    rig: &mut R,
    code: &dyn Code,
    g: Geometry,
    joined: Mask,
    name: &Name,
    at: u32,
    size: u32,
) -> Result<Bytes, PrepareFault>
    requires same_k { g.k ≡ (meaning code.now).k }
    requires within_limit { size ≤ max_object }
    requires below { LiesBelow (meaning code.now).n joined.0 }
    requires decides { DecidesAll (meaning code.now) joined.0 }
    requires idle { AreIdle (R.is_here rig.old) (R.reads rig.old) (R.images rig.old (R.clock rig.old)) joined.0 shelf.old }
    ensures value { IfOk result (λ found. (bytes : List ℕ) → length bytes ≡ size → All (λ b. b < 2 ^ 8) bytes
        → AreStored (R.reads rig.old) (R.images rig.old (R.clock rig.old)) joined.0 shelf.old
        → GiveRange (meaning code.now) g.unit joined.0 shelf.old name.now at bytes → found ≡ bytes) }
    ensures long { IfOk result (λ found. length found ≡ size) }
    ensures counted { OnOk result (FetchesPlan (meaning code.now) joined.0 (shard_len g.k g.unit size) shelf.old shelf.new) }
    ensures slot { (s : ℕ) → IsErrOf result (PrepareFault.Slot s) → Rose (R.faults rig.old s) (R.faults rig.new s)
        ⊎ LacksRange (object_bytes (store_at shelf.old s) name.now) at (shard_len g.k g.unit size) }
    ensures among { (s : ℕ) → IsErrOf result (PrepareFault.Slot s) → HasPosition joined.0 s }
    ensures faults { IfErr result (λ fault. (fault ≡ PrepareFault.NoMemory) ⊎ ((s : ℕ) × (fault ≡ PrepareFault.Slot s))) }
    ensures quiet { (s : ℕ) → (IsErrOf result (PrepareFault.Slot s) → ⊥) → R.faults rig.new s ≡ R.faults rig.old s }
    ensures stores { (s : ℕ) → store_at shelf.new s ≡ store_at shelf.old s }
    ensures rig { OnlyFetches R.is_here R.reads R.said R.clock R.images R.syncs R.bytes_written rig.old rig.new }
{
    let wanted = data_set(code);
    match plan(code, joined, wanted) {
        None => unreachable!(),
        Some(set) => {
            let len = shard_len(g, size) as usize;
            let chunks = match fetch_chunks(alloc, shelf, rig, set, name, at, len) {
                Ok(chunks) => chunks,
                Err(fault) => return Err(fault),
            };
            match decode_object(alloc, code, g, &chunks, size) {
                Ok(bytes) => Ok(bytes),
                Err(DecodeFault::NoMemory) => Err(PrepareFault::NoMemory),
                Err(DecodeFault::NotDecided) => unreachable!(),
                Err(DecodeFault::Lengths) => unreachable!(),
            }
        }
    }
}

/// The stripes that `bytes` touch in an object of `size` bytes from `off` on, as they are with the bytes put into them.
pub(crate) fn window<R: Rig>(
    alloc: Global,
    shelf: &mut Shelf,
    rig: &mut R,
    code: &dyn Code,
    g: Geometry,
    joined: Mask,
    name: &Name,
    size: u32,
    off: u32,
    bytes: &[u8],
) -> Result<Vec<u8>, PrepareFault>
    requires same_k { g.k ≡ (meaning code.now).k }
    requires size { size ≤ max_size }
    requires new_size { off + length bytes.now ≤ max_size }
    requires some { 1 ≤ length bytes.now }
    requires few { g.k ≤ 16 }
    requires below { LiesBelow (meaning code.now).n joined.0 }
    requires decides { DecidesAll (meaning code.now) joined.0 }
    requires idle { AreIdle (R.is_here rig.old) (R.reads rig.old) (R.images rig.old (R.clock rig.old)) joined.0 shelf.old }
    ensures value { IfOk result (λ window. (old : List ℕ) → length old ≡ size → All (λ b. b < 2 ^ 8) old
        → AreStored (R.reads rig.old) (R.images rig.old (R.clock rig.old)) joined.0 shelf.old
        → HasStripesOf (meaning code.now) g.unit joined.0 shelf.old name.now old
        → window.items ≡ stripes_from (g.k * g.unit) (off / (g.k * g.unit))
        (count_touched (g.k * g.unit) off (length bytes.now)) (overlaid off bytes.now old)) }
    ensures whole { IfOk result (λ window. length window.items ≡ count_touched (g.k * g.unit) off (length bytes.now) * (g.k * g.unit)) }
    ensures long { IfOk result (λ window. length window.items ≤ max_object) }
    ensures list { IfOk result (λ window. shard_len (meaning code.now).k g.unit (length window.items) ≤ 2 ^ 20 + 2 ^ 16) }
    ensures slot { (s : ℕ) → IsErrOf result (PrepareFault.Slot s) → Rose (R.faults rig.old s) (R.faults rig.new s)
        ⊎ LacksStripes g.k g.unit size (object_bytes (store_at shelf.old s) name.now) }
    ensures among { (s : ℕ) → IsErrOf result (PrepareFault.Slot s) → HasPosition joined.0 s }
    ensures faults { IfErr result (λ fault. (fault ≡ PrepareFault.NoMemory) ⊎ ((s : ℕ) × (fault ≡ PrepareFault.Slot s))) }
    ensures quiet { (s : ℕ) → (IsErrOf result (PrepareFault.Slot s) → ⊥) → R.faults rig.new s ≡ R.faults rig.old s }
    ensures stores { (s : ℕ) → store_at shelf.new s ≡ store_at shelf.old s }
    ensures rig { OnlyFetches R.is_here R.reads R.said R.clock R.images R.syncs R.bytes_written rig.old rig.new }
{
    let width = u32::from(g.k) * g.unit;
    let first = off / width;
    let count = (off + bytes.len() as u32 - 1) / width - first + 1;
    let there = u32::min(count, size.div_ceil(width).saturating_sub(first));
    let found = match stripes(alloc, shelf, rig, code, g, joined, name, first, there) {
        Ok(found) => found,
        Err(fault) => return Err(fault),
    };
    let window = put_over(
        found,
        (count * width) as usize,
        (off - first * width) as usize,
        bytes,
    )?;
    Ok(window)
}

// Bytes that are grown with zeros to `len`, with others put over those from `at` on.
fn put_over(found: Vec<u8>, len: usize, at: usize, bytes: &[u8]) -> Result<Vec<u8>, PrepareFault>
    requires inside { at + length bytes.now ≤ len }
    ensures value { IfOk result (λ new. new.items ≡ written at bytes.now (resized len found.items)) }
    ensures long { IfOk result (λ new. length new.items ≡ len) }
    ensures faults { IfErr result (λ fault. fault ≡ PrepareFault.NoMemory) }
{
    let mut found = found;
    found.resize(len, 0)?;
    found[at..at + bytes.len()].copy_from_slice(bytes);
    Ok(found)
}

// `count` stripes of an object from `first` on.
fn stripes<R: Rig>(
    alloc: Global,
    shelf: &mut Shelf,
    rig: &mut R,
    code: &dyn Code,
    g: Geometry,
    joined: Mask,
    name: &Name,
    first: u32,
    count: u32,
) -> Result<Vec<u8>, PrepareFault>
    requires same_k { g.k ≡ (meaning code.now).k }
    requires limit { (first + count) * (g.k * g.unit) ≤ max_object }
    requires below { LiesBelow (meaning code.now).n joined.0 }
    requires decides { DecidesAll (meaning code.now) joined.0 }
    requires idle { AreIdle (R.is_here rig.old) (R.reads rig.old) (R.images rig.old (R.clock rig.old)) joined.0 shelf.old }
    ensures value { IfOk result (λ found. (old : List ℕ) → All (λ b. b < 2 ^ 8) old
        → (first + count ≤ stripe_count g.k g.unit (length old)) ⊎ (count ≡ 0)
        → AreStored (R.reads rig.old) (R.images rig.old (R.clock rig.old)) joined.0 shelf.old
        → HasStripesOf (meaning code.now) g.unit joined.0 shelf.old name.now old
        → found.items ≡ stripes_from (g.k * g.unit) first count old) }
    ensures slot { (s : ℕ) → IsErrOf result (PrepareFault.Slot s) → Rose (R.faults rig.old s) (R.faults rig.new s)
        ⊎ ((1 ≤ count) × LacksRange (object_bytes (store_at shelf.old s) name.now) (first * g.unit) (count * g.unit)) }
    ensures among { (s : ℕ) → IsErrOf result (PrepareFault.Slot s) → HasPosition joined.0 s }
    ensures faults { IfErr result (λ fault. (fault ≡ PrepareFault.NoMemory) ⊎ ((s : ℕ) × (fault ≡ PrepareFault.Slot s))) }
    ensures quiet { (s : ℕ) → (IsErrOf result (PrepareFault.Slot s) → ⊥) → R.faults rig.new s ≡ R.faults rig.old s }
    ensures stores { (s : ℕ) → store_at shelf.new s ≡ store_at shelf.old s }
    ensures rig { OnlyFetches R.is_here R.reads R.said R.clock R.images R.syncs R.bytes_written rig.old rig.new }
{
    if count == 0 {
        return Ok(Vec::new(alloc));
    }
    let size = count * (u32::from(g.k) * g.unit);
    match read_part(
        alloc,
        shelf,
        rig,
        code,
        g,
        joined,
        name,
        first * g.unit,
        size,
    ) {
        Ok(found) => Ok(found.into_vec()),
        Err(fault) => Err(fault),
    }
}
