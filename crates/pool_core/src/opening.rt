//! The opening of a pool: its slots are read.
ghost use Rattle.std.specs.Prelude.{◌≡◌, ◌≢◌, ◌↔◌, ◌⊎◌, ◌<◌, ◌≤◌, ℕ, List, Some, None, true, is_some, IsTrue, IfOk, IfErr, OnOk};
ghost use Rattle.ec_code.specs.Refusals.{IsAccepted, IsCodeOf};
ghost use Rattle.ec_code.specs.Shapes.{HasShape};
ghost use Rattle.ec_model.specs.Codes.{CodeRows, IsCode, HasPosition};
ghost use Rattle.plugin_reg.specs.Canonical.{least_of};
ghost use Rattle.pool_map.specs.Calls.{IsReady as MayStep};
ghost use Rattle.pool_map.specs.Pool.{map_of};
ghost use Rattle.rig_disk.specs.During.{During};
ghost use Rattle.shard_store.specs.Shelves.{store_at, KeepsStores};
ghost use Rattle.slot_journal.specs.InUse.{told_text};
ghost use Rattle.pool_moves.specs.Finding.{AreFound, IsLost};
ghost use Rattle.pool_moves.specs.Opening.{AreTold};
ghost use Rattle.pool_moves.specs.Ready.{IsReady, IsHeld, IsHeldMap};
ghost use Rattle.pool_core.specs.Pools.{layout_of};

use crate::fault::PoolFault;
use crate::pool::Pool;
use ec_code::{Code, Profile, Shape, default_min};
use ec_words::{Geometry, Mask};
use pool_map::{PoolMap, maps_stay_held};
use rig_disk::Rig;
use shard_store::{Shelf, Store, StoreFault, bad_texts_have_no_story, stores_stay_stored};
use std::alloc::Global;

/// Whether a slot is here, and not one of those that are marked as down.
fn may_load<R: Rig>(rig: &R, marked: Mask, p: u8) -> bool
    requires { p < 16 }
    ensures here { IsTrue result → R.is_here rig.now p }
    ensures unmarked { IsTrue result → HasPosition marked.0 p → ⊥ }
    ensures all { R.is_here rig.now p → (HasPosition marked.0 p → ⊥) → IsTrue result }
{
    if marked.has(p) {
        return false;
    }
    rig.here(p)
}

/// How a pool's shards lie, by its profile and its code.
fn geometry_of(profile: &Profile, shape: Shape) -> Geometry
    requires accepted { IsAccepted profile.now }
    requires some { 1 ≤ shape.k }
    ensures k { result.k ≡ shape.k }
    ensures unit { result.unit ≡ profile.now.stripe_unit }
{
    Geometry {
        k: shape.k,
        unit: profile.stripe_unit,
    }
}

/// The least number of slots with which a pool serves, by its profile and its code.
fn least_of(profile: &Profile, shape: Shape) -> u8
    requires accepted { IsAccepted profile.now }
    requires code { (code : CodeRows) × IsCodeOf profile.now code × IsCode code × HasShape code shape.k shape.n shape.lead }
    ensures value { result ≡ least_of profile.now.min_size shape.k shape.n }
    ensures some { 1 ≤ result }
{
    match profile.min_size {
        Some(least) => least as u8,
        None => default_min(shape),
    }
}

impl Pool {
    /// Opens a pool with its map and the code of its profile: it reads the slots that are here and not marked as down.
    pub fn open<R: Rig>(
        alloc: Global,
        rig: &mut R,
        map: PoolMap,
        code: &dyn Code,
    ) -> Result<Pool, PoolFault>
        requires code { IsCodeOf (map_of map).profile (meaning code.now) }
        requires accepted { IsAccepted (map_of map).profile }
        requires positions { (map_of map).n ≡ (meaning code.now).n }
        requires ready { MayStep (R.is_here rig.old) (R.reads rig.old) (R.images rig.old (R.clock rig.old)) map }

        ensures numbers { IfOk result (λ pool. (layout_of pool ≡ record {
          geometry = record { k = (meaning code.now).k; unit = (map_of map).profile.stripe_unit };
          n = (meaning code.now).n;
        }) × (pool.min_size ≡ least_of (map_of map).profile.min_size (meaning code.now).k (meaning code.now).n)) }
        ensures map { IfOk result (λ pool. pool.map ≡ map) }
        ensures ready { IfOk result (λ pool. IsReady (layout_of pool) (R.is_here rig.new) (R.reads rig.new)
            (R.images rig.new (R.clock rig.new)) pool.map pool.shelf) }
        ensures held { IfOk result (λ pool. AreTold (R.is_here rig.old) (R.reads rig.old) (meaning code.now).n
            → IsHeldMap (R.reads rig.old) (R.images rig.old (R.clock rig.old)) map
            → IsHeld (R.reads rig.new) (R.images rig.new (R.clock rig.new)) pool.map pool.shelf) }
        ensures found { IfOk result (λ pool. AreFound (layout_of pool) (map_of map).state.marks (R.is_here rig.old) (R.reads rig.old)
            (R.faults rig.old) (R.faults rig.new) pool.shelf pool.n) }
        ensures faults { IfErr result (λ fault. fault ≡ PoolFault.NoMemory) }
        ensures any_moment { During R.clock R.images rig.old rig.new (λ image said. R.images rig.old (R.clock rig.old) image said) }
    {
        let shape = code.shape();
        let geometry = geometry_of(map.profile(), shape);
        let min_size = least_of(map.profile(), shape);
        let mut pool = Pool {
            map,
            shelf: Shelf::new(),
            geometry,
            n: shape.n,
            min_size,
        };
        match pool.load_slots(alloc, rig) {
            Ok(()) => Ok(pool),
            Err(fault) => Err(fault),
        }
    }

    /// Reads the shard of a slot. One that fails, or that holds no shard, gets no store.
    fn load_slot<R: Rig>(&mut self, alloc: Global, rig: &mut R, slot: u8) -> Result<(), PoolFault>
        requires slot { slot < self.old.n }
        requires here { R.is_here rig.old slot }
        requires ready { IsReady (layout_of self.old) (R.is_here rig.old) (R.reads rig.old) (R.images rig.old (R.clock rig.old))
            self.old.map self.old.shelf }

        ensures same { (self.new.map ≡ self.old.map) × (layout_of self.new ≡ layout_of self.old)
            × (self.new.min_size ≡ self.old.min_size) }
        ensures ready { OnOk result (IsReady (layout_of self.old) (R.is_here rig.new) (R.reads rig.new)
            (R.images rig.new (R.clock rig.new)) self.new.map self.new.shelf) }
        ensures held { OnOk result ((text : List ℕ) → told_text slot (R.reads rig.old slot) ≡ Some text
            → IsHeld (R.reads rig.old) (R.images rig.old (R.clock rig.old)) self.old.map self.old.shelf
            → IsHeld (R.reads rig.new) (R.images rig.new (R.clock rig.new)) self.new.map self.new.shelf) }
        ensures found { OnOk result ((is_some (store_at self.new.shelf slot) ≡ true)
            ⊎ IsLost (layout_of self.old) (R.reads rig.old) (R.faults rig.old) (R.faults rig.new) slot) }
        ensures faults { IfErr result (λ fault. fault ≡ PoolFault.NoMemory) }
        ensures others { KeepsStores self.old.shelf self.new.shelf slot }
        ensures counts { (s : ℕ) → s ≢ slot → R.faults rig.new s ≡ R.faults rig.old s }
        ensures here { (s : ℕ) → R.is_here rig.old s ↔ R.is_here rig.new s }
        ensures reads { (s a : ℕ) → s ≢ slot → R.reads rig.new s a ≡ R.reads rig.old s a }
        ensures any_moment { During R.clock R.images rig.old rig.new (λ image said. R.images rig.old (R.clock rig.old) image said) }
    {
        maps_stay_held::<R>();
        stores_stay_stored::<R>();
        bad_texts_have_no_story();
        match Store::load(alloc, rig, slot, self.geometry, self.n) {
            Ok(store) => {
                self.shelf.put(slot, store);
                Ok(())
            }
            Err(StoreFault::NoMemory) => Err(PoolFault::NoMemory),
            Err(StoreFault::Failed) => {
                self.shelf.drop_slot(slot);
                Ok(())
            }
            Err(StoreFault::BadSlot { .. }) => {
                self.shelf.drop_slot(slot);
                Ok(())
            }
            Err(StoreFault::Spent) => unreachable!(),
        }
    }

    /// Reads the shards of the slots that are here and not marked as down.
    pub(crate) fn load_slots<R: Rig>(&mut self, alloc: Global, rig: &mut R) -> Result<(), PoolFault>
        requires ready { IsReady (layout_of self.old) (R.is_here rig.old) (R.reads rig.old) (R.images rig.old (R.clock rig.old))
            self.old.map self.old.shelf }
        requires empty { (p : ℕ) → store_at self.old.shelf p ≡ None }

        ensures same { (self.new.map ≡ self.old.map) × (layout_of self.new ≡ layout_of self.old)
            × (self.new.min_size ≡ self.old.min_size) }
        ensures ready { OnOk result (IsReady (layout_of self.old) (R.is_here rig.new) (R.reads rig.new)
            (R.images rig.new (R.clock rig.new)) self.new.map self.new.shelf) }
        ensures held { OnOk result (AreTold (R.is_here rig.old) (R.reads rig.old) self.old.n
            → IsHeld (R.reads rig.old) (R.images rig.old (R.clock rig.old)) self.old.map self.old.shelf
            → IsHeld (R.reads rig.new) (R.images rig.new (R.clock rig.new)) self.new.map self.new.shelf) }
        ensures found { OnOk result (AreFound (layout_of self.old) (map_of self.old.map).state.marks (R.is_here rig.old) (R.reads rig.old)
            (R.faults rig.old) (R.faults rig.new) self.new.shelf self.old.n) }
        ensures faults { IfErr result (λ fault. fault ≡ PoolFault.NoMemory) }
        ensures any_moment { During R.clock R.images rig.old rig.new (λ image said. R.images rig.old (R.clock rig.old) image said) }
    {
        let marked = self.map.marked();
        for p in 0..self.n {
            if may_load(rig, marked, p) {
                match self.load_slot(alloc, rig, p) {
                    Ok(()) => {}
                    Err(fault) => return Err(fault),
                }
            }
        }
        Ok(())
    }
}
