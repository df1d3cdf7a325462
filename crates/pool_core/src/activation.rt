//! The slots that joined an interval start its epoch.
ghost use Rattle.std.specs.Prelude.{◌≡◌, ◌≤◌, ◌<◌, ◌^◌, ℕ, Err, None, false, OnOk, IsTrue, Some};
ghost use Rattle.ec_model.specs.Codes.{HasPosition};
ghost use Rattle.rig_disk.specs.During.{During};
ghost use Rattle.pool_history.specs.Images.{IsLastAlive};
ghost use Rattle.shard_store.specs.Shelves.{store_at, KeepsStores};
ghost use Rattle.shard_store.specs.Stored.{room_in};
ghost use Rattle.shard_store.specs.declared.store.Store.{Store as Stored};
ghost use Rattle.pool_map.specs.Pool.{map_of};
ghost use Rattle.pool_slots.specs.Ready.{MayStart, HasStarted};
ghost use Rattle.pool_moves.specs.Instants.{MovedFrom};
ghost use Rattle.pool_moves.specs.Losing.{HaveSameSlots, LosesFailed};
ghost use Rattle.pool_moves.specs.Moves.{Starts};
ghost use Rattle.pool_moves.specs.Ready.{IsReady, IsHeld, StaysReady, HasFullStore};
ghost use Rattle.pool_moves.specs.Turns.{stores_below};
ghost use Rattle.pool_core.specs.Pools.{layout_of};

use crate::pool::Pool;
use ec_words::{Mask, Version};
use pool_map::{maps_stay_held, texts_have_one_map};
use pool_slots::start_stored;
use rig_disk::Rig;
use shard_store::{Shelf, StoreFault, texts_have_one_story};

/// A record of a shard's start is added only if its text may still grow by this many bytes.
const START_ROOM: u64 = 1 << 26;

/// Why a shard does not start an epoch.
#[derive(Clone, Copy)]
pub(crate) enum StartFault {
    /// The slot failed, and its store is dropped.
    Lost,
    /// The slot's text has too little room.
    Worn,
    NoMemory,
}

/// Whether the text of a slot's store has room for the record of a start.
fn has_room(shelf: &Shelf, slot: u8) -> bool
    requires { slot < 16 }
    ensures enough { IsTrue result → (store : Stored) → store_at shelf.now slot ≡ Some store → 2 ^ 26 ≤ room_in store }
    ensures full { result ≡ false → (store : Stored) → store_at shelf.now slot ≡ Some store → room_in store < 2 ^ 26 }
{
    match shelf.get(slot) {
        None => false,
        Some(store) => store.room() >= START_ROOM,
    }
}

impl Pool {
    /// The shard of a slot starts an epoch at a base. A slot that fails loses its store.
    fn start_slot<R: Rig>(
        &mut self,
        rig: &mut R,
        slot: u8,
        epoch: u32,
        base: &Version,
    ) -> Result<(), StartFault>
        requires slot { slot < 16 }
        requires may { MayStart self.old.shelf epoch base.now slot }
        requires ready { IsReady (layout_of self.old) (R.is_here rig.old) (R.reads rig.old) (R.images rig.old (R.clock rig.old))
            self.old.map self.old.shelf }

        ensures same { (self.new.map ≡ self.old.map) × (layout_of self.new ≡ layout_of self.old)
            × (self.new.min_size ≡ self.old.min_size) }
        ensures others { KeepsStores self.old.shelf self.new.shelf slot }
        ensures ready { (result ≡ Err StartFault.NoMemory → ⊥) → StaysReady (layout_of self.old) R.is_here R.reads R.clock R.images
            rig.old rig.new self.old.map self.new.map self.old.shelf self.new.shelf }
        ensures started { OnOk result (HasStarted self.new.shelf epoch slot) }
        ensures lost { result ≡ Err StartFault.Lost → store_at self.new.shelf slot ≡ None }
        ensures worn { result ≡ Err StartFault.Worn → HasFullStore self.new.shelf }
        ensures any_moment { (joined : ℕ)
            → IsHeld (R.reads rig.old) (R.images rig.old (R.clock rig.old)) self.old.map self.old.shelf
            → IsLastAlive (map_of self.old.map).state.intervals epoch joined base.now → HasPosition joined slot
            → During R.clock R.images rig.old rig.new (MovedFrom (Starts (layout_of self.old) epoch joined base.now)
            (layout_of self.old) (R.images rig.old (R.clock rig.old))) }
        ensures loses { LosesFailed (R.faults rig.old) (R.faults rig.new) self.old.shelf self.new.shelf }
        ensures map_faults { R.faults rig.new 16 ≡ R.faults rig.old 16 }
    {
        texts_have_one_story();
        texts_have_one_map();
        maps_stay_held::<R>();
        if !has_room(&self.shelf, slot) {
            return Err(StartFault::Worn);
        }
        match start_stored(rig, &mut self.shelf, slot, epoch, base) {
            Ok(()) => Ok(()),
            Err(StoreFault::NoMemory) => Err(StartFault::NoMemory),
            Err(StoreFault::Failed) => {
                self.shelf.drop_slot(slot);
                Err(StartFault::Lost)
            }
            Err(StoreFault::BadSlot { .. } | StoreFault::Spent) => unreachable!(),
        }
    }

    /// The shards of the slots that joined an interval start its epoch at a base, in ascending order. It stops at the first slot
    /// that fails, which loses its store.
    pub(crate) fn start_joined<R: Rig>(
        &mut self,
        rig: &mut R,
        joined: Mask,
        epoch: u32,
        base: &Version,
    ) -> Result<(), StartFault>
        requires may { (p : ℕ) → p < self.old.n → HasPosition joined.0 p → MayStart self.old.shelf epoch base.now p }
        requires ready { IsReady (layout_of self.old) (R.is_here rig.old) (R.reads rig.old) (R.images rig.old (R.clock rig.old))
            self.old.map self.old.shelf }

        ensures same { (self.new.map ≡ self.old.map) × (layout_of self.new ≡ layout_of self.old)
            × (self.new.min_size ≡ self.old.min_size) }
        ensures ready { (result ≡ Err StartFault.NoMemory → ⊥) → StaysReady (layout_of self.old) R.is_here R.reads R.clock R.images
            rig.old rig.new self.old.map self.new.map self.old.shelf self.new.shelf }
        ensures fewer { result ≡ Err StartFault.Lost → stores_below self.new.shelf 16 < stores_below self.old.shelf 16 }
        ensures started { OnOk result ((p : ℕ) → p < self.old.n → HasPosition joined.0 p → HasStarted self.new.shelf epoch p) }
        ensures worn { result ≡ Err StartFault.Worn → HasFullStore self.new.shelf }
        ensures any_moment { IsHeld (R.reads rig.old) (R.images rig.old (R.clock rig.old)) self.old.map self.old.shelf
            → IsLastAlive (map_of self.old.map).state.intervals epoch joined.0 base.now
            → During R.clock R.images rig.old rig.new (MovedFrom (Starts (layout_of self.old) epoch joined.0 base.now)
            (layout_of self.old) (R.images rig.old (R.clock rig.old))) }
        ensures slots { OnOk result (HaveSameSlots self.old.shelf self.new.shelf) }
        ensures loses { LosesFailed (R.faults rig.old) (R.faults rig.new) self.old.shelf self.new.shelf }
        ensures map_faults { R.faults rig.new 16 ≡ R.faults rig.old 16 }
    {
        for p in 0..self.n {
            if joined.has(p) {
                match self.start_slot(rig, p, epoch, base) {
                    Ok(()) => {}
                    Err(fault) => return Err(fault),
                }
            }
        }
        Ok(())
    }
}
