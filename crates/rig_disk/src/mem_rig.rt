//! A rig in memory for tests. It tells everything, and fails when a test plans it.
ghost use Rattle.std.specs.Prelude.{◌≡◌, ◌≢◌, ◌≤◌, ◌<◌, ◌∷◌, [], ◌++◌, ◌+◌, ◌-◌, ◌^◌, ◌↔◌, ℕ, List, Option, Some, length, min, take, IfOk, OnOk, OnErr, IsSome, IsTrue, slice_index_or};
ghost use Rattle.rig_disk.specs.Disk.{read_part};

use crate::call_log::CallLog;
use crate::fault_plan::FaultPlan;
use crate::limits::SLOTS;
use crate::{Failed, Rig, VOICE};
use ec_words::NoMemory;
use std::alloc::Global;

/// A rig in memory. It keeps its calls, and what a crash may leave follows from them. A failed call changes nothing but its
/// count of faults.
#[derive(Drop)]
pub struct MemRig {
    alloc: Global,
    here: [bool; SLOTS],
    log: CallLog,
    plan: FaultPlan,
    syncs: [u64; SLOTS],
    written: [u64; SLOTS],
    given: [u64; SLOTS],
}

impl MemRig {
    ghost use Rattle.rig_disk.specs.CallLog.{ImagesAt, log_clock};
    ghost use Rattle.rig_disk.specs.Crash.{crashed};
    ghost use Rattle.rig_disk.specs.Spoil.{spoiled};
    ghost use Rattle.rig_disk.specs.MemRig.{HasSameCounts, HasSamePlan, IsAsBefore, IsNew, IsSettled, IsUnused, said_by, calls_on, disk_of, given_of, is_here_in, left_of, log_of, planned_of, syncs_of, written_of};

    /// A rig without slots that has said nothing, and has no fault and none planned.
    pub fn new(alloc: Global) -> Result<MemRig, NoMemory>
        ensures value { IfOk result IsNew }
        ensures settled { IfOk result IsSettled }
    {
        Ok(MemRig {
            alloc,
            here: [false; SLOTS],
            log: CallLog::new(alloc)?,
            plan: FaultPlan::new(alloc),
            syncs: [0; SLOTS],
            written: [0; SLOTS],
            given: [0; SLOTS],
        })
    }

    /// Lets the `nth` further call on the slot fail, from 1. Slot 17 is the output.
    pub fn fail_at(&mut self, slot: u8, nth: u64) -> Result<(), NoMemory>
        ensures planned { OnOk result (planned_of self.new ≡ planned_of self.old
            ++ record { slot = slot; call = min (calls_on self.old slot + nth) (2 ^ 64 - 1) } ∷ []) }
        ensures unchanged { OnErr result (planned_of self.new ≡ planned_of self.old) }
        ensures left { left_of self.new ≡ left_of self.old }
        ensures kept { IsAsBefore self.old self.new }
    {
        self.plan.fail_at(slot, nth)
    }

    /// Lets the given number of further calls succeed, and all calls after them fail.
    pub fn stop_after(&mut self, calls: u64)
        ensures left { left_of self.new ≡ Some calls }
        ensures planned { planned_of self.new ≡ planned_of self.old }
        ensures kept { IsAsBefore self.old self.new }
    {
        self.plan.stop_after(calls);
    }

    /// Takes a slot away. Its bytes stay.
    pub fn gone(&mut self, slot: u8)
        requires { slot ≤ 16 }
        ensures gone { is_here_in self.new slot → ⊥ }
        ensures others { (s : ℕ) → s ≢ slot → (is_here_in self.new s ↔ is_here_in self.old s) }
        ensures log { log_of self.new ≡ log_of self.old }
        ensures plan { HasSamePlan self.old self.new }
        ensures counts { HasSameCounts self.old self.new }
    {
        self.here[usize::from(slot)] = false;
    }

    /// Changes one byte of an area, as if it had been so from the first. It is false if there is no such byte.
    pub fn spoil(&mut self, slot: u8, area: u8, at: u64, byte: u8) -> bool
        requires slot { slot ≤ 16 }
        requires area { area ≤ 1 }
        ensures value { IsTrue result ↔ (at < length (disk_of self.old slot area)) }
        ensures disk { (s a : ℕ)
            → disk_of self.new s a ≡ spoiled slot area at byte (disk_of self.old) s a }
        ensures said { said_by self.new ≡ said_by self.old }
        ensures clock { log_clock (log_of self.new) ≡ log_clock (log_of self.old) }
        ensures here { (s : ℕ) → is_here_in self.new s ↔ is_here_in self.old s }
        ensures plan { HasSamePlan self.old self.new }
        ensures counts { HasSameCounts self.old self.new }
    {
        self.log.spoil(self.alloc, slot, area, at, byte)
    }

    /// One rig that a crash may leave now. It has said nothing, has no fault and none planned, and has counted nothing. Pick 0
    /// leaves bytes and lengths as at the last sync, 1 as written, 2 as written with 0xff in each byte written since
    /// the sync, 3 as written and cut to the least length since the sync. A larger pick means 1.
    pub fn crash(&self, alloc: Global, pick: u8) -> Result<MemRig, NoMemory>
        ensures disk { IfOk result (λ rig. (s a : ℕ)
            → disk_of rig s a ≡ crashed pick (log_of self.now) s a) }
        ensures image { IfOk result
            (λ rig. ImagesAt (log_of self.now) (log_clock (log_of self.now)) (disk_of rig) (said_by self.now)) }
        ensures here { IfOk result (λ rig. (slot : ℕ)
            → is_here_in rig slot ↔ is_here_in self.now slot) }
        ensures unused { IfOk result IsUnused }
        ensures settled { IfOk result IsSettled }
    {
        Ok(MemRig {
            alloc,
            here: self.here,
            log: self.log.crash(alloc, pick)?,
            plan: FaultPlan::new(alloc),
            syncs: [0; SLOTS],
            written: [0; SLOTS],
            given: [0; SLOTS],
        })
    }

    /// The bytes of an area.
    pub fn bytes(&self, slot: u8, area: u8) -> &[u8]
        requires slot { slot ≤ 16 }
        requires area { area ≤ 1 }
        ensures { result.now ≡ disk_of self.now slot area }
    {
        self.log.bytes(slot, area)
    }

    /// What was said.
    pub fn said(&self) -> &[u8]
        ensures { result.now ≡ said_by self.now }
    {
        self.log.said()
    }

    /// How often the areas of a slot were synced. It stays at the largest count.
    pub fn syncs(&self, slot: u8) -> u64
        requires { slot ≤ 16 }
        ensures { result ≡ syncs_of self.now slot }
    {
        self.syncs[usize::from(slot)]
    }

    /// How many bytes were written to a slot. It stays at the largest count.
    pub fn written(&self, slot: u8) -> u64
        requires { slot ≤ 16 }
        ensures { result ≡ written_of self.now slot }
    {
        self.written[usize::from(slot)]
    }

    /// How many bytes of a slot were read. It stays at the largest count.
    pub fn given(&self, slot: u8) -> u64
        requires { slot ≤ 16 }
        ensures { result ≡ given_of self.now slot }
    {
        self.given[usize::from(slot)]
    }
}

fn add_count(counts: &mut [u64; SLOTS], slot: u8, more: u64)
    requires { slot ≤ 16 }
    ensures at { slice_index_or counts.new slot 0
        ≡ min (slice_index_or counts.old slot 0 + more) (2 ^ 64 - 1) }
    ensures grows { slice_index_or counts.old slot 0 ≤ slice_index_or counts.new slot 0 }
    ensures others { (s : ℕ) → s ≢ slot
        → slice_index_or counts.new s 0 ≡ slice_index_or counts.old s 0 }
{
    let at = usize::from(slot);
    counts[at] = counts[at].saturating_add(more);
}

fn copy_part(there: &[u8], at: u64, into: &mut [u8]) -> usize
    ensures count { result ≡ min (length into.old) (length there.now - at) }
    ensures bytes { into.new ≡ read_part there.now at result into.old }
{
    let at = there.len().min(at as usize);
    let rest = &there[at..];
    let count = rest.len().min(into.len());
    into[..count].copy_from_slice(&rest[..count]);
    count
}

impl Rig for MemRig {
    ghost use Rattle.rig_disk.specs.CallLaws.{log_as_read, log_said_now};
    ghost use Rattle.rig_disk.specs.Disk.{Torn, Cut, From, Saying, on_told, written};
    ghost use Rattle.rig_disk.specs.During.{During, Only};
    ghost use Rattle.rig_disk.specs.Faults.{HasCause};
    ghost use Rattle.rig_disk.specs.Frame.{KeepsCounts, KeepsOthers, Spends, more};
    ghost use Rattle.rig_disk.specs.MemRig.{MeetsPlan, clock_of, faults_of, images_of, is_here_in, log_of, told_given, told_reads, told_said, told_syncs, told_written};
    ghost use Rattle.rig_disk.specs.Said.{Says};

    ghost is_here = { is_here_in };

    ghost reads = { told_reads };

    ghost said = { told_said };

    ghost clock = { clock_of };

    ghost images = { images_of };

    ghost faults = { faults_of };

    ghost syncs = { told_syncs };

    ghost bytes_written = { told_written };

    ghost bytes_read = { told_given };

    ghost as_read = { λ rig s a there told. log_as_read (log_of rig) };

    ghost said_now = { λ rig image text now. log_said_now (log_of rig) image text now };

    fn here(&self, slot: u8) -> bool {
        self.here[usize::from(slot)]
    }

    fn place(&mut self, slot: u8) -> Result<(), Failed>
        requires { slot ≤ 16 }
        ensures placed { OnOk result (is_here_in self.new slot) }
        ensures cause { HasCause (faults_of self.old slot) (faults_of self.new slot) result }
        ensures any_moment { During clock_of images_of self.old self.new
            (λ image text. images_of self.old (clock_of self.old) image text) }
        ensures counts { Spends told_syncs told_written told_given slot 0 0 0 self.old self.new }
        ensures here { (s : ℕ) → is_here_in self.old s → is_here_in self.new s }
        ensures only_here { (s : ℕ) → s ≢ slot → is_here_in self.new s → is_here_in self.old s }
        ensures reads { (s a : ℕ) → told_reads self.new s a ≡ told_reads self.old s a }
        ensures said { told_said self.new ≡ told_said self.old }
        ensures kept { KeepsCounts faults_of told_syncs told_written told_given slot self.old self.new }
        ensures plan { MeetsPlan self.old self.new slot result }
    {
        self.plan.begin(slot)?;
        self.here[usize::from(slot)] = true;
        Ok(())
    }

    fn length(&mut self, slot: u8, area: u8) -> Result<u64, Failed>
        requires slot { slot ≤ 16 }
        requires area { area ≤ 1 }
        requires here { is_here_in self.old slot }
        ensures value { IfOk result (λ len. (there : List ℕ)
            → told_reads self.old slot area ≡ Some there → len ≡ length there) }
        ensures cause { HasCause (faults_of self.old slot) (faults_of self.new slot) result }
        ensures any_moment { During clock_of images_of self.old self.new
            (λ image text. images_of self.old (clock_of self.old) image text) }
        ensures counts { Spends told_syncs told_written told_given slot 0 0 0 self.old self.new }
        ensures reads { told_reads self.new slot area ≡ told_reads self.old slot area }
        ensures kept { KeepsOthers is_here_in told_reads told_said faults_of told_syncs told_written told_given slot area self.old self.new }
        ensures plan { MeetsPlan self.old self.new slot result }
    {
        self.plan.begin(slot)?;
        Ok(self.log.bytes(slot, area).len() as u64)
    }

    fn read_at(&mut self, slot: u8, area: u8, at: u64, into: &mut [u8]) -> Result<usize, Failed>
        requires slot { slot ≤ 16 }
        requires area { area ≤ 1 }
        requires here { is_here_in self.old slot }
        ensures within { IfOk result (λ n. n ≤ length into.old) }
        ensures count { IfOk result (λ n. (there : List ℕ)
            → told_reads self.old slot area ≡ Some there → n
            ≡ min (length into.old) (length there - at)) }
        ensures bytes { IfOk result (λ n. (there : List ℕ)
            → told_reads self.old slot area ≡ Some there → into.new ≡ read_part there at n into.old) }
        ensures cause { HasCause (faults_of self.old slot) (faults_of self.new slot) result }
        ensures any_moment { During clock_of images_of self.old self.new
            (λ image text. images_of self.old (clock_of self.old) image text) }
        ensures counts { Spends told_syncs told_written told_given
            slot 0 0 (length into.old) self.old self.new }
        ensures counted { IfOk result (λ n. told_given self.new slot
            ≡ more n (told_given self.old slot)) }
        ensures reads { told_reads self.new slot area ≡ told_reads self.old slot area }
        ensures kept { KeepsOthers is_here_in told_reads told_said faults_of told_syncs told_written told_given slot area self.old self.new }
        ensures plan { MeetsPlan self.old self.new slot result }
    {
        self.plan.begin(slot)?;
        let count = copy_part(self.log.bytes(slot, area), at, into);
        add_count(&mut self.given, slot, count as u64);
        Ok(count)
    }

    fn write_at(&mut self, slot: u8, area: u8, at: u64, bytes: &[u8]) -> Result<(), Failed>
        requires slot { slot ≤ 16 }
        requires area { area ≤ 1 }
        requires here { is_here_in self.old slot }
        requires at { (there : List ℕ) → told_reads self.old slot area ≡ Some there
            → at ≤ length there }
        requires end { at + length bytes.now ≤ 2 ^ 40 }
        ensures written { OnOk result (told_reads self.new slot area
            ≡ on_told (written at bytes.now) (told_reads self.old slot area)) }
        ensures told { OnErr result (IsSome (told_reads self.old slot area) ↔ IsSome (told_reads self.new slot area)) }
        ensures cause { HasCause (faults_of self.old slot) (faults_of self.new slot) result }
        ensures any_moment { During clock_of images_of self.old self.new
            (From (images_of self.old (clock_of self.old)) slot area (Torn at (length bytes.now))) }
        ensures counts { Spends told_syncs told_written told_given
            slot 0 (length bytes.now) 0 self.old self.new }
        ensures counted { OnOk result (told_written self.new slot
            ≡ more (length bytes.now) (told_written self.old slot)) }
        ensures kept { KeepsOthers is_here_in told_reads told_said faults_of told_syncs told_written told_given slot area self.old self.new }
        ensures plan { MeetsPlan self.old self.new slot result }
    {
        self.plan.begin(slot)?;
        if self.log.write(self.alloc, slot, area, at, bytes).is_err() {
            self.plan.count_fault(slot);
            return Err(Failed);
        }
        add_count(&mut self.written, slot, bytes.len() as u64);
        Ok(())
    }

    fn cut(&mut self, slot: u8, area: u8, len: u64) -> Result<(), Failed>
        requires slot { slot ≤ 16 }
        requires area { area ≤ 1 }
        requires here { is_here_in self.old slot }
        requires len { (there : List ℕ) → told_reads self.old slot area ≡ Some there
            → len ≤ length there }
        ensures cut { OnOk result (told_reads self.new slot area
            ≡ on_told (take len) (told_reads self.old slot area)) }
        ensures told { OnErr result (IsSome (told_reads self.old slot area) ↔ IsSome (told_reads self.new slot area)) }
        ensures cause { HasCause (faults_of self.old slot) (faults_of self.new slot) result }
        ensures any_moment { During clock_of images_of self.old self.new
            (From (images_of self.old (clock_of self.old)) slot area (Cut len)) }
        ensures counts { Spends told_syncs told_written told_given slot 0 0 0 self.old self.new }
        ensures kept { KeepsOthers is_here_in told_reads told_said faults_of told_syncs told_written told_given slot area self.old self.new }
        ensures plan { MeetsPlan self.old self.new slot result }
    {
        self.plan.begin(slot)?;
        if self.log.shorten(self.alloc, slot, area, len).is_err() {
            self.plan.count_fault(slot);
            return Err(Failed);
        }
        Ok(())
    }

    fn sync(&mut self, slot: u8, area: u8) -> Result<(), Failed>
        requires slot { slot ≤ 16 }
        requires area { area ≤ 1 }
        requires here { is_here_in self.old slot }
        ensures durable { OnOk result ((there : List ℕ) → told_reads self.new slot area ≡ Some there
            → Only clock_of images_of self.new slot area there) }
        ensures cause { HasCause (faults_of self.old slot) (faults_of self.new slot) result }
        ensures any_moment { During clock_of images_of self.old self.new
            (λ image text. images_of self.old (clock_of self.old) image text) }
        ensures counts { Spends told_syncs told_written told_given slot 1 0 0 self.old self.new }
        ensures counted { OnOk result (told_syncs self.new slot ≡ more 1 (told_syncs self.old slot)) }
        ensures reads { told_reads self.new slot area ≡ told_reads self.old slot area }
        ensures kept { KeepsOthers is_here_in told_reads told_said faults_of told_syncs told_written told_given slot area self.old self.new }
        ensures plan { MeetsPlan self.old self.new slot result }
    {
        self.plan.begin(slot)?;
        if self.log.sync(slot, area).is_err() {
            self.plan.count_fault(slot);
            return Err(Failed);
        }
        add_count(&mut self.syncs, slot, 1);
        Ok(())
    }

    fn say(&mut self, bytes: &[u8]) -> Result<(), Failed>
        ensures said { Says (told_said self.old) (told_said self.new) bytes.now result }
        ensures cause { HasCause (faults_of self.old VOICE) (faults_of self.new VOICE) result }
        ensures any_moment { During clock_of images_of self.old self.new
            (Saying (images_of self.old (clock_of self.old)) bytes.now) }
        ensures here { (s : ℕ) → is_here_in self.old s ↔ is_here_in self.new s }
        ensures reads { (s a : ℕ) → told_reads self.new s a ≡ told_reads self.old s a }
        ensures kept { KeepsCounts faults_of told_syncs told_written told_given VOICE self.old self.new }
        ensures plan { MeetsPlan self.old self.new VOICE result }
    {
        self.plan.begin(VOICE)?;
        if self.log.say(self.alloc, bytes).is_err() {
            self.plan.count_fault(VOICE);
            return Err(Failed);
        }
        Ok(())
    }
}
