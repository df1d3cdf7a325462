//! Turns: an interval begins, and goes as far as the slots that are up let it.
ghost use Rattle.std.specs.Prelude.{◌≡◌, ◌⊎◌, ◌≤◌, ◌<◌, ℕ, true, Ok, Err, Some, None, IfOk, OnOk};
ghost use Rattle.ec_model.specs.Codes.{CodeRows};
ghost use Rattle.map_model.specs.States.{last_epoch};
ghost use Rattle.rig_disk.specs.During.{During};
ghost use Rattle.pool_map.specs.Pool.{has_begun, map_of, IsWorn};
ghost use Rattle.pool_moves.specs.Choosing.{AreUp, MayServe};
ghost use Rattle.pool_moves.specs.Instants.{MovedFrom};
ghost use Rattle.pool_moves.specs.Losing.{LosesFailed};
ghost use Rattle.pool_moves.specs.Moves.{Move};
ghost use Rattle.pool_moves.specs.Ready.{IsReady, IsHeld, StaysReady, HasFullStore};
ghost use Rattle.pool_moves.specs.Turns.{AreComplete, stores_below};
ghost use Rattle.pool_core.specs.Faults.{HasTurnCause, pool_fault};
ghost use Rattle.pool_core.specs.Pools.{layout_of};
ghost use Rattle.pool_core.specs.States.{HasTurned, HasTurnedSince, IsServed};
ghost use Rattle.pool_core.specs.declared.state.State.TheVariants.{Active};

use crate::activation::StartFault;
use crate::fault::PoolFault;
use crate::pool::Pool;
use crate::state::State;
use auth_log::State as Decided;
use ec_code::Code;
use ec_words::{Mask, Version};
use pool_map::{MapFault, texts_have_one_map};
use rig_disk::Rig;
use shard_store::texts_have_one_story;

/// What a step of the map answers, to a pool.
fn of_map(fault: MapFault) -> PoolFault
    ensures { result ≡ pool_fault fault }
{
    match fault {
        MapFault::Worn => PoolFault::Worn,
        MapFault::NoMemory => PoolFault::NoMemory,
        MapFault::Failed | MapFault::NoPool | MapFault::BadMap => PoolFault::MapFailed,
    }
}

impl Pool {
    /// The interval goes alive, and the slots that joined it start its epoch. `None` if one was lost.
    fn serve<R: Rig>(
        &mut self,
        rig: &mut R,
        epoch: u32,
        joined: Mask,
        base: &Version,
    ) -> Result<Option<State>, PoolFault>
        requires began { has_begun self.old.map ≡ true }
        requires epoch { epoch ≡ last_epoch (map_of self.old.map).state.intervals }
        requires may { (code : CodeRows) × (up : ℕ) × AreUp self.old.shelf up
            × MayServe code (map_of self.old.map) self.old.shelf up joined.0 base.now }
        requires ready { IsReady (layout_of self.old) (R.is_here rig.old) (R.reads rig.old) (R.images rig.old (R.clock rig.old))
            self.old.map self.old.shelf }

        ensures same { (layout_of self.new ≡ layout_of self.old) × (self.new.min_size ≡ self.old.min_size) }
        ensures ready { OnOk result (StaysReady (layout_of self.old) R.is_here R.reads R.clock R.images
            rig.old rig.new self.old.map self.new.map self.old.shelf self.new.shelf) }
        ensures fewer { result ≡ Ok None → stores_below self.new.shelf 16 < stores_below self.old.shelf 16 }
        ensures active { (state : _) → result ≡ Ok (Some state) → (state ≡ Active epoch joined)
            × (IsHeld (R.reads rig.old) (R.images rig.old (R.clock rig.old)) self.old.map self.old.shelf
            → AreComplete (layout_of self.old) (R.images rig.new (R.clock rig.new)) epoch joined.0) }
        ensures served { (state : _) → result ≡ Ok (Some state)
            → IsServed (map_of self.old.map) (map_of self.new.map) self.old.shelf self.new.shelf self.old.n epoch joined.0 base.now }
        ensures dated { OnOk result (last_epoch (map_of self.new.map).state.intervals ≡ last_epoch (map_of self.old.map).state.intervals) }
        ensures loses { LosesFailed (R.faults rig.old) (R.faults rig.new) self.old.shelf self.new.shelf }
        ensures worn { result ≡ Err PoolFault.Worn → HasFullStore self.new.shelf }
        ensures only_if_fault { HasTurnCause (R.faults rig.old 16) (R.faults rig.new 16) result }
        ensures any_moment { (code : CodeRows) (up : ℕ) → AreUp self.old.shelf up
            → MayServe code (map_of self.old.map) self.old.shelf up joined.0 base.now
            → IsHeld (R.reads rig.old) (R.images rig.old (R.clock rig.old)) self.old.map self.old.shelf
            → During R.clock R.images rig.old rig.new
            (MovedFrom (Move code (layout_of self.old)) (layout_of self.old) (R.images rig.old (R.clock rig.old))) }
    {
        texts_have_one_story();
        texts_have_one_map();
        match self.go_alive(rig, joined, *base) {
            Ok(()) => {}
            Err(_) => return Err(PoolFault::MapFailed),
        }
        match self.start_joined(rig, joined, epoch, base) {
            Ok(()) => Ok(Some(State::Active { epoch, joined })),
            Err(StartFault::Lost) => Ok(None),
            Err(StartFault::Worn) => Err(PoolFault::Worn),
            Err(StartFault::NoMemory) => Err(PoolFault::NoMemory),
        }
    }

    /// Begins an interval, and goes as far in it as the slots that are up let it. `None` if a slot was lost on the way.
    fn turn<R: Rig>(&mut self, rig: &mut R, code: &dyn Code) -> Result<Option<State>, PoolFault>
        requires code { (meaning code.now).n ≡ self.old.n }
        requires ready { IsReady (layout_of self.old) (R.is_here rig.old) (R.reads rig.old) (R.images rig.old (R.clock rig.old))
            self.old.map self.old.shelf }

        ensures same { (layout_of self.new ≡ layout_of self.old) × (self.new.min_size ≡ self.old.min_size) }
        ensures ready { OnOk result (StaysReady (layout_of self.old) R.is_here R.reads R.clock R.images
            rig.old rig.new self.old.map self.new.map self.old.shelf self.new.shelf) }
        ensures fewer { result ≡ Ok None → stores_below self.new.shelf 16 < stores_below self.old.shelf 16 }
        ensures active { (epoch : ℕ) (joined : _) → result ≡ Ok (Some (Active epoch joined))
            → IsHeld (R.reads rig.old) (R.images rig.old (R.clock rig.old)) self.old.map self.old.shelf
            → AreComplete (layout_of self.old) (R.images rig.new (R.clock rig.new)) epoch joined.0 }
        ensures turned { (state : _) → result ≡ Ok (Some state) → HasTurned (meaning code.now) self.old.n
            (map_of self.old.map) (map_of self.new.map) self.old.shelf self.new.shelf self.old.min_size state }
        ensures later { OnOk result (last_epoch (map_of self.old.map).state.intervals ≤ last_epoch (map_of self.new.map).state.intervals) }
        ensures loses { LosesFailed (R.faults rig.old) (R.faults rig.new) self.old.shelf self.new.shelf }
        ensures worn { result ≡ Err PoolFault.Worn → IsWorn self.new.map ⊎ HasFullStore self.new.shelf }
        ensures only_if_fault { HasTurnCause (R.faults rig.old 16) (R.faults rig.new 16) result }
        ensures any_moment { IsHeld (R.reads rig.old) (R.images rig.old (R.clock rig.old)) self.old.map self.old.shelf
            → During R.clock R.images rig.old rig.new (MovedFrom (Move (meaning code.now) (layout_of self.old))
            (layout_of self.old) (R.images rig.old (R.clock rig.old))) }
    {
        let up = self.up();
        let epoch = match self.begin(rig, up) {
            Ok(epoch) => epoch,
            Err(fault) => return Err(of_map(fault)),
        };
        let found = self.found(code, up);
        match found.state {
            Decided::Down { epoch, up } => Ok(Some(State::Down { epoch, up })),
            Decided::Short { joined, min } => Ok(Some(State::Short { joined, min })),
            Decided::Active { joined } => self.serve(rig, epoch, joined, &found.version),
        }
    }

    /// Begins intervals until no slot is lost on the way, and goes as far in the last one as the slots that are up let it.
    pub fn start<R: Rig>(&mut self, rig: &mut R, code: &dyn Code) -> Result<State, PoolFault>
        requires code { (meaning code.now).n ≡ self.old.n }
        requires ready { IsReady (layout_of self.old) (R.is_here rig.old) (R.reads rig.old) (R.images rig.old (R.clock rig.old))
            self.old.map self.old.shelf }

        ensures same { (layout_of self.new ≡ layout_of self.old) × (self.new.min_size ≡ self.old.min_size) }
        ensures ready { OnOk result (StaysReady (layout_of self.old) R.is_here R.reads R.clock R.images
            rig.old rig.new self.old.map self.new.map self.old.shelf self.new.shelf) }
        ensures active { (epoch : ℕ) (joined : _) → result ≡ Ok (Active epoch joined)
            → IsHeld (R.reads rig.old) (R.images rig.old (R.clock rig.old)) self.old.map self.old.shelf
            → AreComplete (layout_of self.old) (R.images rig.new (R.clock rig.new)) epoch joined.0 }
        ensures turned { IfOk result (HasTurnedSince (meaning code.now) self.old.n (map_of self.old.map) (map_of self.new.map)
            self.new.shelf self.old.min_size) }
        ensures loses { LosesFailed (R.faults rig.old) (R.faults rig.new) self.old.shelf self.new.shelf }
        ensures worn { result ≡ Err PoolFault.Worn → IsWorn self.new.map ⊎ HasFullStore self.new.shelf }
        ensures only_if_fault { HasTurnCause (R.faults rig.old 16) (R.faults rig.new 16) result }
        ensures any_moment { IsHeld (R.reads rig.old) (R.images rig.old (R.clock rig.old)) self.old.map self.old.shelf
            → During R.clock R.images rig.old rig.new (MovedFrom (Move (meaning code.now) (layout_of self.old))
            (layout_of self.old) (R.images rig.old (R.clock rig.old))) }
    {
        for round in 0..17u8 {
            match self.turn(rig, code) {
                Ok(Some(state)) => return Ok(state),
                Ok(None) => {}
                Err(fault) => return Err(fault),
            }
        }
        unreachable!()
    }
}
