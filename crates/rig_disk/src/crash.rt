//! What a crash leaves of slots in memory. Their calls are done again, and what no sync has pinned is picked.
ghost use Rattle.std.specs.Prelude.{◌≡◌, ◌≤◌, ℕ, length, min, replicate, take, IfOk, OnOk};
ghost use Rattle.rig_disk.specs.CallLog.{AreSound, IsFitting, IsWithin, after, disk_after};
ghost use Rattle.rig_disk.specs.Crash.{crashed, picked_after, picked_step};
ghost use Rattle.rig_disk.specs.Disk.{written};
ghost use Rattle.rig_disk.specs.SlotAreas.{image_of, put};
ghost use Rattle.rig_disk.specs.declared.crash.Pick.TheVariants.{Synced, Marked, Shortest};

use crate::call::Call;
use crate::slot_areas::Areas;
use ec_words::{Bytes, NoMemory};
use std::alloc::Global;

/// The byte that a pick puts where a write since the last sync may have left any byte.
const MARK: u8 = 0xff;

/// Which of the bytes that a crash may leave are picked.
#[derive(Clone, Copy)]
pub enum Pick {
    /// Bytes and lengths as at the last sync.
    Synced,
    /// As written, with 0xff in each byte written since the last sync.
    Marked,
    /// As written, cut to the least length since the last sync.
    Shortest,
}

/// What the pick with this number leaves of slots that were `first` before these calls and are `areas` after them.
pub fn crashed_areas(
    alloc: Global,
    pick: u8,
    first: &Areas,
    areas: &Areas,
    calls: &[Call],
) -> Result<Areas, NoMemory>
    requires sound { AreSound calls.now (image_of first.now) }
    requires reads { (s a : ℕ)
        → image_of areas.now s a ≡ disk_after calls.now (image_of first.now) s a }
    ensures { IfOk result (λ left. image_of left
        ≡ crashed pick (record { first = first.now; calls = calls.now })) }
{
    match pick {
        0 => replay(alloc, Pick::Synced, first, calls),
        2 => replay(alloc, Pick::Marked, first, calls),
        3 => replay(alloc, Pick::Shortest, first, calls),
        _ => areas.copy(alloc),
    }
}

// What a pick leaves of slots that were `first` before these calls.
fn replay(alloc: Global, pick: Pick, first: &Areas, calls: &[Call]) -> Result<Areas, NoMemory>
    requires { AreSound calls.now (image_of first.now) }
    ensures { IfOk result (λ left. image_of left
        ≡ picked_after pick calls.now (image_of first.now) (image_of first.now)) }
{
    let mut disk = first.copy(alloc)?;
    let mut left = first.copy(alloc)?;
    for index in 0..calls.len() {
        apply(alloc, &mut disk, &calls[index])?;
        leave(alloc, pick, &mut left, &disk, &calls[index])?;
    }
    Ok(left)
}

// Does a call again.
fn apply(alloc: Global, disk: &mut Areas, call: &Call) -> Result<(), NoMemory>
    requires within { IsWithin call.now }
    requires fits { IsFitting call.now (image_of disk.old) }
    ensures { OnOk result (image_of disk.new ≡ after call.now (image_of disk.old)) }
{
    match call {
        Call::Write {
            slot,
            area,
            at,
            bytes,
        } => disk.write(alloc, *slot, *area, *at, bytes.as_slice()),
        Call::Shorten { slot, area, len } => {
            disk.shorten(alloc, *slot, *area, *len);
            Ok(())
        }
        Call::Sync { .. } => Ok(()),
        Call::Say { .. } => Ok(()),
    }
}

// What a pick leaves after one call more. After that call reads give `disk`.
fn leave(
    alloc: Global,
    pick: Pick,
    left: &mut Areas,
    disk: &Areas,
    call: &Call,
) -> Result<(), NoMemory>
    requires { IsWithin call.now }
    ensures { OnOk result (image_of left.new
        ≡ picked_step pick call.now (image_of disk.now) (image_of left.old)) }
{
    match call {
        Call::Write {
            slot,
            area,
            at,
            bytes,
        } => match pick {
            Pick::Synced => Ok(()),
            Pick::Marked => mark(alloc, left, *slot, *area, *at, bytes.as_slice().len()),
            Pick::Shortest => leave_front(alloc, left, disk, *slot, *area),
        },
        Call::Shorten { slot, area, len } => match pick {
            Pick::Synced => Ok(()),
            Pick::Marked => {
                left.shorten(alloc, *slot, *area, *len);
                Ok(())
            }
            Pick::Shortest => leave_front(alloc, left, disk, *slot, *area),
        },
        Call::Sync { slot, area } => {
            let synced = Bytes::from_slice(alloc, disk.bytes(*slot, *area))?;
            left.replace(*slot, *area, synced);
            Ok(())
        }
        Call::Say { .. } => Ok(()),
    }
}

// Writes marks in place of `len` bytes.
fn mark(
    alloc: Global,
    left: &mut Areas,
    slot: u8,
    area: u8,
    at: u64,
    len: usize,
) -> Result<(), NoMemory>
    requires slot { slot ≤ 16 }
    requires area { area ≤ 1 }
    ensures { OnOk result (image_of left.new
        ≡ put slot area (written (min at (length (image_of left.old slot area))) (replicate len 255) (image_of left.old slot area)) (image_of left.old)) }
{
    let at = at.min(left.bytes(slot, area).len() as u64);
    let marks = vec![in alloc; MARK; len]?;
    left.write(alloc, slot, area, at, &marks)
}

// Leaves in an area the front of what reads give, no longer than what was left.
fn leave_front(
    alloc: Global,
    left: &mut Areas,
    disk: &Areas,
    slot: u8,
    area: u8,
) -> Result<(), NoMemory>
    requires slot { slot ≤ 16 }
    requires area { area ≤ 1 }
    ensures { OnOk result (image_of left.new
        ≡ put slot area (take (length (image_of left.old slot area)) (image_of disk.now slot area)) (image_of left.old)) }
{
    let there = disk.bytes(slot, area);
    let len = left.bytes(slot, area).len().min(there.len());
    let front = Bytes::from_slice(alloc, &there[..len])?;
    left.replace(slot, area, front);
    Ok(())
}
