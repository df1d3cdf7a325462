//! The steps of the map in a turn.
ghost use Rattle.std.specs.Prelude.{◌≡◌, ◌⊎◌, ◌+◌, ◌<◌, ◌^◌, true, Err, OnOk, IfOk, IfErr};
ghost use Rattle.ec_model.specs.Codes.{CodeRows};
ghost use Rattle.map_model.specs.States.{fits, kept, last_epoch};
ghost use Rattle.map_model.specs.Steps as steps;
ghost use Rattle.rig_disk.specs.During.{During};
ghost use Rattle.pool_history.specs.Images.{IsLastAlive};
ghost use Rattle.pool_map.specs.Faults.{HasMapCause};
ghost use Rattle.pool_map.specs.Pool.{has_begun, map_after, map_of, IsWorn};
ghost use Rattle.pool_moves.specs.Choosing.{AreUp, StoresChoose};
ghost use Rattle.pool_moves.specs.Instants.{MovedFrom};
ghost use Rattle.pool_moves.specs.Losing.{LosesFailed};
ghost use Rattle.pool_moves.specs.Moves.{Begins, GoesAlive};
ghost use Rattle.pool_moves.specs.Ready.{IsReady, IsHeld, StaysReady};
ghost use Rattle.pool_core.specs.Pools.{layout_of};

use crate::pool::Pool;
use ec_words::{Mask, Version};
use map_model::the_newest_goes_alive;
use pool_map::{MapFault, texts_have_one_map};
use rig_disk::Rig;
use shard_store::texts_have_one_story;

impl Pool {
    /// An interval begins with these slots up.
    pub(crate) fn begin<R: Rig>(&mut self, rig: &mut R, up: Mask) -> Result<u32, MapFault>
        requires below { up.0 < 2 ^ self.old.n }
        requires ready { IsReady (layout_of self.old) (R.is_here rig.old) (R.reads rig.old) (R.images rig.old (R.clock rig.old))
            self.old.map self.old.shelf }

        ensures epoch { IfOk result (λ epoch. epoch ≡ last_epoch (map_of self.old.map).state.intervals + 1) }
        ensures step { OnOk result ((map_of self.new.map ≡ map_after (map_of self.old.map)
            (steps.Begin (last_epoch (map_of self.old.map).state.intervals + 1) up.0)) × (has_begun self.new.map ≡ true)) }
        ensures same { (self.new.shelf ≡ self.old.shelf) × (layout_of self.new ≡ layout_of self.old)
            × (self.new.min_size ≡ self.old.min_size) }
        ensures ready { OnOk result (StaysReady (layout_of self.old) R.is_here R.reads R.clock R.images
            rig.old rig.new self.old.map self.new.map self.old.shelf self.new.shelf) }
        ensures worn { result ≡ Err MapFault.Worn → IsWorn self.new.map }
        ensures faults { IfErr result (λ fault. (fault ≡ MapFault.Failed) ⊎ ((fault ≡ MapFault.Worn) ⊎ (fault ≡ MapFault.NoMemory))) }
        ensures loses { LosesFailed (R.faults rig.old) (R.faults rig.new) self.old.shelf self.new.shelf }
        ensures only_if_fault { HasMapCause (R.faults rig.old 16) (R.faults rig.new 16) result }
        ensures any_moment { IsHeld (R.reads rig.old) (R.images rig.old (R.clock rig.old)) self.old.map self.old.shelf
            → During R.clock R.images rig.old rig.new
            (MovedFrom Begins (layout_of self.old) (R.images rig.old (R.clock rig.old))) }
    {
        texts_have_one_map();
        match self.map.begin(rig, up) {
            Ok(epoch) => Ok(epoch),
            Err(fault) => Err(fault),
        }
    }

    /// The interval goes alive with the slots that hold the version that was chosen.
    pub(crate) fn go_alive<R: Rig>(
        &mut self,
        rig: &mut R,
        joined: Mask,
        base: Version,
    ) -> Result<(), MapFault>
        requires began { has_begun self.old.map ≡ true }
        requires fits { fits (map_of self.old.map).n (map_of self.old.map).state
            (steps.Alive (last_epoch (map_of self.old.map).state.intervals) joined.0 base) ≡ true }
        requires ready { IsReady (layout_of self.old) (R.is_here rig.old) (R.reads rig.old) (R.images rig.old (R.clock rig.old))
            self.old.map self.old.shelf }

        ensures step { OnOk result (map_of self.new.map ≡ map_after (map_of self.old.map)
            (steps.Alive (last_epoch (map_of self.old.map).state.intervals) joined.0 base)) }
        ensures dated { OnOk result (last_epoch (map_of self.new.map).state.intervals ≡ last_epoch (map_of self.old.map).state.intervals) }
        ensures same { (self.new.shelf ≡ self.old.shelf) × (layout_of self.new ≡ layout_of self.old)
            × (self.new.min_size ≡ self.old.min_size) }
        ensures ready { OnOk result (StaysReady (layout_of self.old) R.is_here R.reads R.clock R.images
            rig.old rig.new self.old.map self.new.map self.old.shelf self.new.shelf) }
        ensures newest { OnOk result (IsLastAlive (map_of self.new.map).state.intervals
            (last_epoch (map_of self.old.map).state.intervals) joined.0 base) }
        ensures faults { IfErr result (λ fault. fault ≡ MapFault.Failed) }
        ensures loses { LosesFailed (R.faults rig.old) (R.faults rig.new) self.old.shelf self.new.shelf }
        ensures only_if_fault { HasMapCause (R.faults rig.old 16) (R.faults rig.new 16) result }
        ensures any_moment { (code : CodeRows) (up : _) → AreUp self.old.shelf up
            → StoresChoose code (kept (map_of self.old.map).state) self.old.shelf up joined.0 base
            → IsHeld (R.reads rig.old) (R.images rig.old (R.clock rig.old)) self.old.map self.old.shelf
            → During R.clock R.images rig.old rig.new
            (MovedFrom (GoesAlive code (layout_of self.old)) (layout_of self.old) (R.images rig.old (R.clock rig.old))) }
    {
        texts_have_one_story();
        texts_have_one_map();
        the_newest_goes_alive();
        match self.map.alive(rig, joined, base) {
            Ok(()) => Ok(()),
            Err(fault) => Err(fault),
        }
    }
}
