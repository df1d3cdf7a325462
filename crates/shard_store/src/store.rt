//! The store of one slot: a journal, and the state that its records lead to.
ghost use Rattle.std.specs.Prelude.{◌≡◌, ◌⊎◌, ◌≤◌, ◌+◌, ◌↔◌, ◌++◌, [], ℕ, List, length, max, Some, Err, true, false, IfOk, IfErr, IsErrOf, OnOk, OnErr};
ghost use Rattle.rig_disk.specs.During.{During};
ghost use Rattle.rig_disk.specs.Frame.{Spends};
ghost use Rattle.shard_model.specs.States.{fits};
ghost use Rattle.shard_model.specs.StepBytes.{step_bytes};
ghost use Rattle.shard_model.specs.Steps.{Step as Meant};
ghost use Rattle.shard_steps.specs.StepMeanings.{step_of};
ghost use Rattle.slot_journal.specs.Journal.{room_of, InSlot, HaveInUse};
ghost use Rattle.slot_journal.specs.InUse.{told_text};
ghost use Rattle.slot_journal.specs.Limits.{make_syncs, make_reads, load_syncs, commit_syncs, commit_bytes, prefix_len};
ghost use Rattle.slot_journal.specs.Reading.{KeepsOtherSlots, SyncsAndReads};
ghost use Rattle.slot_journal.specs.Text.{max_body, IsBadText};
ghost use Rattle.shard_store.specs.Limits.{store_bytes};
ghost use Rattle.shard_store.specs.Stories.{fresh_shard, shard_after, first_steps, shard_head, IsBadStory};
ghost use Rattle.shard_store.specs.Told.{IsAccepted, IsSound, IsTold, staged_shard, unflushed_bytes, all_told, with_step, all_accepted, none_staged, all_flushed};

use crate::StoreFault;
use crate::header::shard_head;
use crate::loading::{replay_bodies, with_place};
use crate::story::{Story, first_story};
use ec_words::Geometry;
use rig_disk::Rig;
use shard_state::{ShardState, StepFault};
use shard_steps::Step;
use slot_journal::{Journal, JournalFault};
use std::alloc::Global;

/// What one slot holds of a pool's objects: its records' steps, those that were accepted since, and those that are staged.
/// It is used with the rig over which it was made or loaded.
#[derive(Drop)]
pub struct Store {
    journal: Journal,
    story: Story,
    n: u8,
    ghost short: { length (unflushed_bytes story) ≤ max_body },
    ghost room: { length (unflushed_bytes story) + prefix_len ≤ max (room_of journal) prefix_len },
}

impl Store {
    ghost use Rattle.shard_store.specs.Faults.{HasStoreCause};
    ghost use Rattle.shard_store.specs.Stored.{slot_in, room_in, is_stuck, told_in, IsAtRest, IsStored, Flushes, Becomes, IsFlushed, IsNew, MakesShard};
    ghost use Rattle.shard_store.specs.declared.fault.StoreFault.TheVariants.{Failed as SlotFailed, BadSlot, Spent, NoMemory as OutOfMemory};

    /// Makes a store in the place of what the slot holds. Its text has one step: it starts epoch 1, or has the shard filled anew
    /// if the shard is to be partial. A crash at any instant leaves in use the text of before, no text, or the new one.
    pub fn make<R: Rig>(
        alloc: Global,
        rig: &mut R,
        slot: u8,
        g: Geometry,
        n: u8,
        partial: bool,
    ) -> Result<Store, StoreFault>
        requires slot { slot ≤ 16 }
        requires here { R.is_here rig.old slot }

        ensures ok { IfOk result (λ store. (text : List ℕ) → told_text slot (R.reads rig.old slot) ≡ Some text
            → (after : List ℕ) × IsStored (R.reads rig.new) (R.images rig.new (R.clock rig.new)) store after (first_steps partial) []) }
        ensures settled { IfOk result (IsAtRest (R.reads rig.new) (R.images rig.new (R.clock rig.new))) }
        ensures fresh { IfOk result (λ store. IsNew store slot (record { k = g.k; unit = g.unit }) n) }
        ensures steps { IfOk result (λ store. told_in store ≡ all_told (record { k = g.k; unit = g.unit })
            (shard_after (fresh_shard (record { k = g.k; unit = g.unit })) (first_steps partial))) }
        ensures faults { IfErr result (λ fault. (fault ≡ SlotFailed) ⊎ (fault ≡ OutOfMemory)) }
        ensures only_if_fault { HasStoreCause (R.faults rig.old slot) (R.faults rig.new slot) result }

        ensures any_moment { During R.clock R.images rig.old rig.new (InSlot (R.images rig.old (R.clock rig.old)) slot
            (MakesShard slot (R.reads rig.old slot) (record { k = g.k; unit = g.unit })
            (shard_head slot (record { k = g.k; unit = g.unit }) n) (first_steps partial))) }
        ensures counts { Spends R.syncs R.bytes_written R.bytes_read slot make_syncs store_bytes make_reads rig.old rig.new }
        ensures kept { KeepsOtherSlots R.is_here R.reads R.said R.faults R.syncs R.bytes_written R.bytes_read
            slot rig.old rig.new }
    {
        let mut story = match first_story(alloc, g, partial) {
            Ok(story) => story,
            Err(_) => return Err(StoreFault::NoMemory),
        };
        match Journal::make(rig, slot, &shard_head(slot, g, n), story.body()) {
            Ok(journal) => {
                story.flushed();
                Ok(Store { journal, story, n })
            }
            Err(JournalFault::Failed) => Err(StoreFault::Failed),
            Err(_) => unreachable!(),
        }
    }

    /// Reads the steps of a slot's records, and does them.
    pub fn load<R: Rig>(
        alloc: Global,
        rig: &mut R,
        slot: u8,
        g: Geometry,
        n: u8,
    ) -> Result<Store, StoreFault>
        requires slot { slot ≤ 16 }
        requires here { R.is_here rig.old slot }

        ensures ok { IfOk result (λ store. (text : List ℕ) → told_text slot (R.reads rig.old slot) ≡ Some text
            → (steps : List Meant) × IsStored (R.reads rig.new) (R.images rig.new (R.clock rig.new)) store text steps []) }
        ensures settled { IfOk result (IsAtRest (R.reads rig.new) (R.images rig.new (R.clock rig.new))) }
        ensures fresh { IfOk result (λ store. IsNew store slot (record { k = g.k; unit = g.unit }) n) }
        ensures bad_slot { (at : ℕ) → IsErrOf result (BadSlot at) → (text : List ℕ)
            → told_text slot (R.reads rig.old slot) ≡ Some text
            → IsBadText (shard_head slot (record { k = g.k; unit = g.unit }) n) text at
            ⊎ IsBadStory (record { k = g.k; unit = g.unit }) (shard_head slot (record { k = g.k; unit = g.unit }) n) text at }
        ensures bad_durable { (at : ℕ) → IsErrOf result (BadSlot at) → (text : List ℕ)
            → told_text slot (R.reads rig.old slot) ≡ Some text → HaveInUse (R.images rig.new (R.clock rig.new)) slot text }
        ensures spent { IsErrOf result Spent → ⊥ }
        ensures only_if_fault { HasStoreCause (R.faults rig.old slot) (R.faults rig.new slot) result }
        ensures kept { SyncsAndReads R.is_here R.reads R.said R.clock R.images R.faults R.syncs R.bytes_written R.bytes_read
            slot load_syncs (IsErrOf result SlotFailed) rig.old rig.new }
    {
        match Journal::load(alloc, rig, slot, &shard_head(slot, g, n)) {
            Ok((journal, bodies)) => {
                let journal = with_place(journal);
                let state = replay_bodies(alloc, g, bodies.into_vec())?;
                let story = Story::of(alloc, g, state);
                Ok(Store { journal, story, n })
            }
            Err(JournalFault::Failed) => Err(StoreFault::Failed),
            Err(JournalFault::BadSlot { at }) => Err(StoreFault::BadSlot { at }),
            Err(JournalFault::Spent) => unreachable!(),
            Err(JournalFault::NoMemory) => Err(StoreFault::NoMemory),
        }
    }

    /// The state after the accepted steps.
    pub fn state(&self) -> &ShardState
        requires { IsAccepted (told_in self.now) }
        ensures value { result.now ≡ (told_in self.now).shard }
        ensures sound { IsSound (told_in self.now) }
    {
        self.story.state()
    }

    /// How many bytes the slot's text may still grow by. A record takes the bytes of its body and five more.
    pub fn room(&self) -> u64
        ensures { result ≡ room_in self.now }
    {
        self.journal.room()
    }

    /// The number of bytes of the accepted steps that are not flushed.
    pub fn pending(&self) -> u64
        ensures { result ≡ length (told_in self.now).pending }
    {
        self.story.pending() as u64
    }

    /// The number of bytes of all steps that are not flushed, the staged ones among them.
    pub fn unflushed(&self) -> u64
        ensures { result ≡ length (unflushed_bytes (told_in self.now)) }
    {
        self.story.body().len() as u64
    }

    /// Stages a step behind those that are staged already, and takes all memory that it needs. On a refusal the store is as it was.
    pub fn stage(&mut self, step: Step) -> Result<(), StepFault>
        requires short { length (unflushed_bytes (told_in self.old)) + length (step_bytes (step_of step)) ≤ max_body }
        requires room { length (unflushed_bytes (told_in self.old)) + length (step_bytes (step_of step)) + prefix_len ≤ room_in self.old }
        ensures ok { OnOk result (Becomes self.old self.new (with_step (told_in self.old) (step_of step))) }
        ensures misfit { (result ≡ Err StepFault.Misfit)
            ↔ (fits (staged_shard (told_in self.old)).geometry (staged_shard (told_in self.old)).state (step_of step) ≡ false) }
        ensures unchanged { OnErr result (self.new ≡ self.old) }
    {
        self.story.stage(step)
    }

    /// The staged steps take effect, in order. It takes no memory.
    pub fn accept(&mut self)
        ensures value { Becomes self.old self.new (all_accepted (told_in self.old)) }
        ensures told { (flushed pending : List Meant) → IsTold (told_in self.old) flushed pending
            → IsTold (told_in self.new) flushed (pending ++ (told_in self.old).staged) }
    {
        self.story.accept();
    }

    /// Forgets the staged steps. It takes no memory.
    pub fn unstage(&mut self)
        ensures { Becomes self.old self.new (none_staged (told_in self.old)) }
    {
        self.story.unstage();
    }

    /// Commits the accepted steps as one record. If there are no such steps, nothing is written. A crash at any instant leaves the
    /// steps that were flushed before, or all accepted ones; after `Ok` it leaves all. It takes no memory.
    pub fn flush<R: Rig>(&mut self, rig: &mut R) -> Result<(), StoreFault>
        requires here { R.is_here rig.old (slot_in self.old) }
        requires accepted { IsAccepted (told_in self.old) }
        requires settled { (is_stuck self.old → ⊥) → IsAtRest (R.reads rig.old) (R.images rig.old (R.clock rig.old)) self.old }

        ensures ok { OnOk result ((text : List ℕ) (flushed pending : List Meant)
            → IsStored (R.reads rig.old) (R.images rig.old (R.clock rig.old)) self.old text flushed pending
            → (after : List ℕ) × IsStored (R.reads rig.new) (R.images rig.new (R.clock rig.new)) self.new after (flushed ++ pending) []) }
        ensures settled { OnOk result ((is_stuck self.new → ⊥)
            → IsAtRest (R.reads rig.new) (R.images rig.new (R.clock rig.new)) self.new) }
        ensures after { IsFlushed self.old self.new result }
        ensures spent { (result ≡ Err StoreFault.Spent) ↔ (is_stuck self.old
            × ((told_in self.old).pending ≡ [] → ⊥)) }
        ensures unchanged { is_stuck self.old → rig.new ≡ rig.old }
        ensures nothing { (told_in self.old).pending ≡ [] → rig.new ≡ rig.old }
        ensures faults { IfErr result (λ fault. (fault ≡ SlotFailed) ⊎ (fault ≡ Spent)) }
        ensures only_if_fault { HasStoreCause
            (R.faults rig.old (slot_in self.old)) (R.faults rig.new (slot_in self.old)) result }

        ensures any_moment { During R.clock R.images rig.old rig.new
            (InSlot (R.images rig.old (R.clock rig.old)) (slot_in self.old)
            (Flushes (R.reads rig.old) (R.images rig.old (R.clock rig.old)) self.old)) }
        ensures counts { Spends R.syncs R.bytes_written R.bytes_read
            (slot_in self.old) commit_syncs (length (told_in self.old).pending + commit_bytes) 0 rig.old rig.new }
        ensures kept { KeepsOtherSlots R.is_here R.reads R.said R.faults R.syncs R.bytes_written R.bytes_read
            (slot_in self.old) rig.old rig.new }
    {
        if self.story.is_flushed() {
            return Ok(());
        }
        match self.journal.commit(rig, self.story.body()) {
            Ok(()) => {
                self.story.flushed();
                Ok(())
            }
            Err(JournalFault::Failed) => Err(StoreFault::Failed),
            Err(JournalFault::Spent) => Err(StoreFault::Spent),
            Err(_) => unreachable!(),
        }
    }
}
