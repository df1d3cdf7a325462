//! Slots in memory with all calls that changed them: what a crash may leave at any instant follows from the calls.
ghost use Rattle.std.specs.Prelude.{◌≡◌, ◌≤◌, ◌<◌, ◌↔◌, [], ℕ, length, IfOk, OnOk, OnErr, IsTrue};
ghost use Rattle.rig_disk.specs.SlotAreas.{image_of};
ghost use Rattle.rig_disk.specs.Spoil.{spoiled};
ghost use Rattle.rig_disk.specs.CallLog.{Agrees, Log, Same, leaves, log_clock, log_disk, push, said_after};
ghost use Rattle.rig_disk.specs.Crash.{crashed};
ghost use Rattle.rig_disk.specs.declared.call.Call.TheVariants.{Write, Shorten, Sync, Say};

use crate::call::Call;
use crate::crash::crashed_areas;
use crate::slot_areas::Areas;
use crate::spoil::spoil_calls;
use ec_words::{Bytes, NoMemory};
use std::alloc::Global;
use std::marker::Model;

/// Slots in memory, and an output, with the calls that made them what they are. A contract sees the slots at first
/// and the calls.
#[derive(Drop)]
pub struct CallLog {
    first: Areas,
    areas: Areas,
    calls: Vec<Call>,
    said: Vec<u8>,
}

impl Model for CallLog {
    ghost Value = { Log };

    ghost view = { λ r. record { first = r.first; calls = r.calls.items } };

    ghost invariant = { λ r. Agrees r.first r.areas r.calls.items r.said.items };
}

impl CallLog {
    /// Empty slots, and no call.
    pub fn new(alloc: Global) -> Result<CallLog, NoMemory>
        ensures calls { IfOk result (λ log. log.calls ≡ []) }
        ensures empty { IfOk result (λ log. (s a : ℕ) → image_of log.first s a ≡ []) }
    {
        Ok(CallLog {
            first: Areas::new(alloc)?,
            areas: Areas::new(alloc)?,
            calls: Vec::new(alloc),
            said: Vec::new(alloc),
        })
    }

    /// The bytes of an area.
    pub fn bytes(&self, slot: u8, area: u8) -> &[u8]
        requires slot { slot ≤ 16 }
        requires area { area ≤ 1 }
        ensures { result.now ≡ log_disk self.now slot area }
    {
        self.areas.bytes(slot, area)
    }

    /// What was said.
    pub fn said(&self) -> &[u8]
        ensures { result.now ≡ said_after self.now.calls }
    {
        self.said.as_slice()
    }

    /// Writes bytes into an area.
    pub fn write(
        &mut self,
        alloc: Global,
        slot: u8,
        area: u8,
        at: u64,
        bytes: &[u8],
    ) -> Result<(), NoMemory>
        requires slot { slot ≤ 16 }
        requires area { area ≤ 1 }
        requires at { at ≤ length (log_disk self.old slot area) }
        ensures ok { OnOk result (self.new ≡ push self.old (Write slot area at bytes.now)) }
        ensures unchanged { OnErr result (self.new ≡ self.old) }
    {
        let call = Call::Write {
            slot,
            area,
            at,
            bytes: Bytes::from_slice(alloc, bytes)?,
        };
        let before = self.calls.len();
        self.calls.push(call)?;
        if self.areas.write(alloc, slot, area, at, bytes).is_err() {
            self.calls.truncate(before);
            return Err(NoMemory);
        }
        Ok(())
    }

    /// Leaves the first `len` bytes of an area.
    pub fn shorten(&mut self, alloc: Global, slot: u8, area: u8, len: u64) -> Result<(), NoMemory>
        requires slot { slot ≤ 16 }
        requires area { area ≤ 1 }
        ensures ok { OnOk result (self.new ≡ push self.old (Shorten slot area len)) }
        ensures unchanged { OnErr result (self.new ≡ self.old) }
    {
        self.calls.push(Call::Shorten { slot, area, len })?;
        self.areas.shorten(alloc, slot, area, len);
        Ok(())
    }

    /// Notes that an area was synced.
    pub fn sync(&mut self, slot: u8, area: u8) -> Result<(), NoMemory>
        requires slot { slot ≤ 16 }
        requires area { area ≤ 1 }
        ensures ok { OnOk result (self.new ≡ push self.old (Sync slot area)) }
        ensures unchanged { OnErr result (self.new ≡ self.old) }
    {
        self.calls.push(Call::Sync { slot, area })?;
        Ok(())
    }

    /// Appends to what was said.
    pub fn say(&mut self, alloc: Global, bytes: &[u8]) -> Result<(), NoMemory>
        ensures ok { OnOk result (self.new ≡ push self.old (Say bytes.now)) }
        ensures unchanged { OnErr result (self.new ≡ self.old) }
    {
        let call = Call::Say {
            bytes: Bytes::from_slice(alloc, bytes)?,
        };
        self.calls.push(call)?;
        if self.said.extend_from_slice(bytes).is_err() {
            self.calls.pop();
            return Err(NoMemory);
        }
        Ok(())
    }

    /// The slots after a crash, by the pick. 0 leaves the bytes of the last sync, 2 those written with 0xff in each byte written
    /// since, 3 those written and cut to the least length since, and any other pick those written. The new log has said nothing
    /// and has no call.
    pub fn crash(&self, alloc: Global, pick: u8) -> Result<CallLog, NoMemory>
        ensures calls { IfOk result (λ log. log.calls ≡ []) }
        ensures disk { IfOk result (λ log. image_of log.first ≡ crashed pick self.now) }
        ensures image { IfOk result
            (λ log. leaves self.now.calls (image_of self.now.first) (Same (image_of self.now.first)) (image_of log.first)) }
    {
        let first = crashed_areas(alloc, pick, &self.first, &self.areas, self.calls.as_slice())?;
        Ok(CallLog {
            areas: first.copy(alloc)?,
            first,
            calls: Vec::new(alloc),
            said: Vec::new(alloc),
        })
    }

    /// Changes one byte of an area, as if it had been so from the first. It is false if there is no such byte.
    pub fn spoil(&mut self, alloc: Global, slot: u8, area: u8, at: u64, byte: u8) -> bool
        requires slot { slot ≤ 16 }
        requires area { area ≤ 1 }
        ensures value { IsTrue result ↔ (at < length (log_disk self.old slot area)) }
        ensures disk { (s a : ℕ)
            → log_disk self.new s a ≡ spoiled slot area at byte (log_disk self.old) s a }
        ensures said { said_after self.new.calls ≡ said_after self.old.calls }
        ensures clock { log_clock self.new ≡ log_clock self.old }
    {
        if at >= self.areas.bytes(slot, area).len() as u64 {
            return false;
        }
        self.first.set(alloc, slot, area, at, byte);
        self.areas.set(alloc, slot, area, at, byte);
        spoil_calls(&mut self.calls, slot, area, at, byte);
        true
    }
}
