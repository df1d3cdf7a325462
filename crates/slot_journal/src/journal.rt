//! A journal: the records of a slot. One more may be added at a time.
ghost use Rattle.std.specs.Prelude.{◌≡◌, ◌≢◌, ◌⊎◌, ◌≤◌, ◌+◌, ◌-◌, ◌^◌, ◌↔◌, ◌++◌, ◌∷◌, [], ℕ, List, length, Some, Err, false, IsTrue, IfOk, IfErr, IsErrOf, OnOk, OnErr};
ghost use Rattle.rig_disk.specs.During.{During};
ghost use Rattle.slot_journal.specs.InUse.{told_text};
ghost use Rattle.slot_journal.specs.Limits.{make_syncs, make_bytes, make_reads, load_syncs, commit_syncs, commit_bytes, prefix_len};
ghost use Rattle.slot_journal.specs.Reading.{HasSlotCause};
ghost use Rattle.slot_journal.specs.Text.{IsBadText, max_body};
ghost use Rattle.slot_journal.specs.Working.{WorksOnJournal, SyncsAndReadsJournal};

use crate::limits::{AREA, PREFIX_LEN};
use crate::load::read_text;
use crate::make::{shut, write_first};
use crate::write::commit_record;
use crate::{AREA_LIMIT, Bodies, HEADER_LEN, JournalFault};
use rig_disk::Rig;
use std::alloc::Global;

/// The records of a slot: where the gate that closes them stands, and whether a call has failed. It is used with the
/// rig over which it was made or loaded.
#[derive(Drop)]
pub struct Journal {
    slot: u8,
    area: u8,
    serial: u64,
    gate: u64,
    spent: bool,
    ghost a_slot: { slot ≤ 16 },
    ghost first_area: { area ≡ 0 },
    ghost first_serial: { serial ≡ 0 },
}

impl Journal {
    ghost use Rattle.slot_journal.specs.Journal.{slot_of, area_of, is_spent, room_of, Holds, IsSettledWhereTold, IsFresh, IsMade, HasAdded, IsCommitted, InSlot, Commits, Makes, HaveInUse};
    ghost use Rattle.slot_journal.specs.declared.fault.JournalFault.TheVariants.{Failed as SlotFailed, BadSlot, Spent, NoMemory as OutOfMemory};

    /// Makes a journal with one record in the place of what the slot holds. A crash at any instant leaves in use the text
    /// of before, no text, or the new one; after `Ok` it leaves the new one. `head` is bytes 1 to 23 of the text.
    pub fn make<R: Rig>(
        rig: &mut R,
        slot: u8,
        head: &[u8; 23],
        body: &[u8],
    ) -> Result<Journal, JournalFault>
        requires slot { slot ≤ 16 }
        requires here { R.is_here rig.old slot }
        requires some { 1 ≤ length body.now }
        requires fits { length body.now ≤ max_body }

        ensures ok { IfOk result (IsMade (R.reads rig.old) (R.reads rig.new) (R.images rig.new (R.clock rig.new))
            slot head.now body.now) }
        ensures faults { IfErr result (λ fault. fault ≡ SlotFailed) }
        ensures only_if_fault { HasSlotCause (R.faults rig.old slot) (R.faults rig.new slot) result }

        ensures any_moment { During R.clock R.images rig.old rig.new (InSlot (R.images rig.old (R.clock rig.old)) slot
            (Makes slot (R.reads rig.old slot) head.now body.now)) }
        ensures kept { WorksOnJournal R.is_here R.reads R.said R.faults R.syncs R.bytes_written R.bytes_read
            slot 0 make_syncs (length body.now + make_bytes) make_reads rig.old rig.new }
    {
        shut(rig, slot)?;
        write_first(rig, slot, head, body)?;
        Ok(Journal {
            slot,
            area: AREA,
            serial: 0,
            gate: (HEADER_LEN + PREFIX_LEN + body.len()) as u64,
            spent: false,
        })
    }

    /// Reads the records of a slot. `head` is bytes 1 to 23 of its text.
    pub fn load<R: Rig>(
        alloc: Global,
        rig: &mut R,
        slot: u8,
        head: &[u8; 23],
    ) -> Result<(Journal, Bodies), JournalFault>
        requires slot { slot ≤ 16 }
        requires here { R.is_here rig.old slot }

        // The bodies are those of the text in use. A crash then leaves just that text in use.
        ensures ok { IfOk result (λ read. (text : List ℕ) → told_text slot (R.reads rig.old slot) ≡ Some text
            → Holds (R.reads rig.new) (R.images rig.new (R.clock rig.new)) read.0 head.now read.1 text) }
        ensures settled { IfOk result (λ read.
            IsSettledWhereTold (R.reads rig.new) (R.images rig.new (R.clock rig.new)) read.0) }
        ensures fresh { IfOk result (λ read. IsFresh read.0 slot) }
        ensures bad_slot { (at : ℕ) → IsErrOf result (BadSlot at) → (text : List ℕ)
            → told_text slot (R.reads rig.old slot) ≡ Some text → IsBadText head.now text at }
        ensures bad_durable { (at : ℕ) → IsErrOf result (BadSlot at) → (text : List ℕ)
            → told_text slot (R.reads rig.old slot) ≡ Some text → HaveInUse (R.images rig.new (R.clock rig.new)) slot text }
        ensures spent { IsErrOf result Spent → ⊥ }
        ensures only_if_fault { HasSlotCause (R.faults rig.old slot) (R.faults rig.new slot) result }
        ensures kept { SyncsAndReadsJournal R.is_here R.reads R.said R.clock R.images R.faults R.syncs R.bytes_written R.bytes_read
            slot 0 load_syncs (IsErrOf result SlotFailed) rig.old rig.new }
    {
        let (gate, bodies) = read_text(alloc, rig, slot, head)?;
        let journal = Journal {
            slot,
            area: AREA,
            serial: 0,
            gate,
            spent: false,
        };
        Ok((journal, bodies))
    }

    /// Adds a record behind the others. A crash at any instant leaves the records as they were, or these and the new
    /// one; after `Ok` it leaves the new one too. After `Failed` the journal is spent.
    pub fn commit<R: Rig>(&mut self, rig: &mut R, body: &[u8]) -> Result<(), JournalFault>
        requires here { R.is_here rig.old (slot_of self.old) }
        requires some { 1 ≤ length body.now }
        requires fits { length body.now ≤ max_body }
        requires room { length body.now + prefix_len ≤ room_of self.old }
        requires settled { is_spent self.old ≡ false
            → IsSettledWhereTold (R.reads rig.old) (R.images rig.old (R.clock rig.old)) self.old }

        ensures ok { OnOk result (HasAdded (R.reads rig.old) (R.images rig.old (R.clock rig.old)) self.old body.now
            (R.reads rig.new) (R.images rig.new (R.clock rig.new)) self.new) }
        ensures spent { (result ≡ Err JournalFault.Spent) ↔ IsTrue (is_spent self.old) }
        ensures unchanged { IsTrue (is_spent self.old) → rig.new ≡ rig.old }
        ensures faults { IfErr result (λ fault. (fault ≡ SlotFailed) ⊎ (fault ≡ Spent)) }
        ensures only_if_fault { HasSlotCause
            (R.faults rig.old (slot_of self.old)) (R.faults rig.new (slot_of self.old)) result }
        ensures after { IsCommitted self.old self.new body.now result }

        ensures any_moment { During R.clock R.images rig.old rig.new
            (InSlot (R.images rig.old (R.clock rig.old)) (slot_of self.old)
            (Commits (R.reads rig.old) (R.images rig.old (R.clock rig.old)) self.old body.now)) }
        ensures kept { WorksOnJournal R.is_here R.reads R.said R.faults R.syncs R.bytes_written R.bytes_read
            (slot_of self.old) (area_of self.old) commit_syncs (length body.now + commit_bytes) 0 rig.old rig.new }
    {
        if self.spent {
            return Err(JournalFault::Spent);
        }
        match commit_record(rig, self.slot, self.area, self.gate, body) {
            Ok(()) => {
                self.gate += (PREFIX_LEN + body.len()) as u64;
                Ok(())
            }
            Err(fault) => {
                self.spent = true;
                Err(JournalFault::from(fault))
            }
        }
    }

    /// How many bytes the text may still grow by. A record takes the bytes of its body and five more.
    pub fn room(&self) -> u64
        ensures { result ≡ room_of self.now }
    {
        AREA_LIMIT.saturating_sub(self.gate.saturating_add(1))
    }
}
