//! What is asked of a pool's map, and what is written to it.
ghost use Rattle.std.specs.Prelude.{◌≡◌, ◌≤◌, ◌<◌, ◌⊎◌, ◌↔◌, ◌+◌, ◌^◌, ◌++◌, ◌∷◌, [], ℕ, List, true, false, IfOk, IfErr, IsTrue, OnOk, OnErr, Err, if◌then◌else◌};
ghost use Rattle.ec_model.specs.Codes.{LiesBelow};
ghost use Rattle.ec_words.specs.Intervals.{JoinedLieBelow};
ghost use Rattle.slot_journal.specs.Journal.{room_of};
ghost use Rattle.slot_journal.specs.Limits.{commit_syncs};
ghost use Rattle.map_model.specs.States.{fits, kept, last_epoch, epoch_limit};
ghost use Rattle.slot_journal.specs.Working.{WorksOnJournal};
ghost use Rattle.pool_map.specs.Calls.{IsReady, HasStepped};
ghost use Rattle.pool_map.specs.Pool.{journal_of, map_of, has_begun, IsWorn};
ghost use Rattle.map_model.specs.Sound.{IsSound};
ghost use Rattle.map_model.specs.Steps as steps;
ghost use Rattle.ec_words.specs.Intervals.{Interval as Meant};

use crate::map::PoolMap;
use crate::replay::{last_epoch, with_mark};
use crate::steps::{alive_bytes, begin_bytes, down_byte, mark_bytes};
use crate::{BEGIN_ROOM, MARK_ROOM, MapFault};
use ec_code::Profile;
use ec_words::{Interval, Intervals, Mask, Version};
use rig_disk::Rig;

impl PoolMap {
    /// The profile of the pool.
    pub fn profile(&self) -> &Profile
        ensures { result.now ≡ (map_of self.now).profile }
    {
        &self.profile
    }

    /// The kept intervals, among which a choice may be made.
    pub fn intervals(&self) -> &Intervals
        ensures value { result.now ≡ kept (map_of self.now).state }
        ensures sound { IsSound (map_of self.now).n (map_of self.now).state }
        ensures joined { JoinedLieBelow (map_of self.now).n result.now }
    {
        &self.state.intervals
    }

    /// The slots that are marked as down.
    pub fn marked(&self) -> Mask
        ensures value { result.0 ≡ (map_of self.now).state.marks }
        ensures below { LiesBelow (map_of self.now).n result.0 }
    {
        self.state.marked
    }

    /// Begins an interval with these slots up, and answers its epoch.
    pub fn begin<R: Rig>(&mut self, rig: &mut R, up: Mask) -> Result<u32, MapFault>
        requires ready { IsReady (R.is_here rig.old) (R.reads rig.old) (R.images rig.old (R.clock rig.old)) self.old }
        requires below { up.0 < 2 ^ (map_of self.old).n }

        ensures epoch { IfOk result (λ epoch. epoch ≡ last_epoch (map_of self.old).state.intervals + 1) }
        ensures began { OnOk result (has_begun self.new ≡ true) }
        ensures worn { (result ≡ Err MapFault.Worn) ↔ IsWorn self.old }
        ensures faults { IfErr result (λ fault. (fault ≡ MapFault.Failed) ⊎ ((fault ≡ MapFault.Worn) ⊎ (fault ≡ MapFault.NoMemory))) }
        ensures stepped { HasStepped R.reads R.clock R.images R.faults
            (steps.Begin (last_epoch (map_of self.old).state.intervals + 1) up.0) rig.old rig.new self.old self.new result }
        ensures kept { WorksOnJournal R.is_here R.reads R.said R.faults R.syncs R.bytes_written R.bytes_read
            16 0 commit_syncs 13 0 rig.old rig.new }
    {
        let last = last_epoch(self.state.intervals.as_slice());
        if is_worn(last, self.journal.room()) {
            return Err(MapFault::Worn);
        }
        let epoch = last + 1;
        self.state.intervals.push(Interval {
            epoch,
            up,
            alive: None,
        })?;
        match self.journal.commit(rig, &begin_bytes(epoch, up)) {
            Ok(()) => {
                self.began = true;
                Ok(epoch)
            }
            Err(_) => {
                take_back(&mut self.state.intervals);
                Err(MapFault::Failed)
            }
        }
    }

    /// Records that the last interval is alive. This value began it, and it was not alive before.
    pub fn alive<R: Rig>(
        &mut self,
        rig: &mut R,
        joined: Mask,
        base: Version,
    ) -> Result<(), MapFault>
        requires ready { IsReady (R.is_here rig.old) (R.reads rig.old) (R.images rig.old (R.clock rig.old)) self.old }
        requires began { has_begun self.old ≡ true }
        requires fits { fits (map_of self.old).n (map_of self.old).state
            (steps.Alive (last_epoch (map_of self.old).state.intervals) joined.0 base) ≡ true }

        ensures began { has_begun self.new ≡ has_begun self.old }
        ensures faults { IfErr result (λ fault. fault ≡ MapFault.Failed) }
        ensures stepped { HasStepped R.reads R.clock R.images R.faults
            (steps.Alive (last_epoch (map_of self.old).state.intervals) joined.0 base) rig.old rig.new self.old self.new result }
        ensures kept { WorksOnJournal R.is_here R.reads R.said R.faults R.syncs R.bytes_written R.bytes_read
            16 0 commit_syncs 25 0 rig.old rig.new }
    {
        let epoch = last_epoch(self.state.intervals.as_slice());
        self.journal
            .commit(rig, &alive_bytes(epoch, joined, &base))?;
        self.state.intervals.set_last_alive(joined, base);
        Ok(())
    }

    /// Marks a slot as down, or takes the mark away.
    pub fn mark<R: Rig>(&mut self, rig: &mut R, slot: u8, down: bool) -> Result<(), MapFault>
        requires ready { IsReady (R.is_here rig.old) (R.reads rig.old) (R.images rig.old (R.clock rig.old)) self.old }
        requires slot { slot < (map_of self.old).n }

        ensures began { has_begun self.new ≡ has_begun self.old }
        ensures worn { (result ≡ Err MapFault.Worn) ↔ (room_of (journal_of self.old) < 2 ^ 26) }
        ensures faults { IfErr result (λ fault. (fault ≡ MapFault.Failed) ⊎ (fault ≡ MapFault.Worn)) }
        ensures stepped { HasStepped R.reads R.clock R.images R.faults
            (steps.Mark slot (if down then 1 else 0)) rig.old rig.new self.old self.new result }
        ensures kept { WorksOnJournal R.is_here R.reads R.said R.faults R.syncs R.bytes_written R.bytes_read
            16 0 commit_syncs 9 0 rig.old rig.new }
    {
        if self.journal.room() < MARK_ROOM {
            return Err(MapFault::Worn);
        }
        let byte = down_byte(down);
        self.journal.commit(rig, &mark_bytes(slot, byte))?;
        self.state.marked = with_mark(slot, byte, self.state.marked);
        Ok(())
    }
}

/// Whether no interval may begin behind one of this epoch, with this room.
fn is_worn(last: u32, room: u64) -> bool
    ensures worn { IsTrue result → (epoch_limit ≤ last + 1) ⊎ (room < 2 ^ 27) }
    ensures fine { result ≡ false → (last + 1 < epoch_limit) × (2 ^ 27 ≤ room) }
{
    last >= u32::MAX - 1 || room < BEGIN_ROOM
}

/// Takes the last interval away.
fn take_back(intervals: &mut Intervals)
    ensures { (front : List Meant) (last : Meant) → intervals.old ≡ front ++ last ∷ [] → intervals.new ≡ front }
{
    intervals.pop();
}
