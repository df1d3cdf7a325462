//! A pool that is opened and started: which slots join, what their texts hold then, and when it does not serve.
ghost use Rattle.std.specs.Prelude.{◌≡◌};
ghost use Rattle.ec_code.specs.Refusals.{IsAccepted, IsCodeOf};
ghost use Rattle.plugin_reg.specs.Boxes.{HaveEachPlugin};
ghost use Rattle.pool_map.specs.Calls.{IsReady};
ghost use Rattle.pool_map.specs.Pool.{map_of};

use crate::maps::boxes;
use crate::pools::{PROFILE, made};
use ec_code::Code;
use ec_words::Mask;
use plugin_reg::has_each_plugin;
use pool_core::{Pool, PoolFault, State};
use pool_map::{MAP_SLOT, MapFault, PoolMap};
use rig_disk::{MemRig, Rig};
use std::alloc::Global;
use std::test::Fail;

// The text of slot 1 of a pool of k=2, m=1 that was made and started: the header, the records of the steps Started 1 and Started
// 2, and a closed gate.
const STARTED: &[u8; 45] =
    b"OECSHARD\x01\x01\x02\x03\0\0\0\x20\0\0\0\0\0\0\0\0O\0\0\0\x05\x07\0\0\0\x01O\0\0\0\x05\x07\0\0\0\x02\0";

/// Opens a pool with its map and its code, and starts it.
fn started_of(
    alloc: Global,
    rig: &mut MemRig,
    map: PoolMap,
    code: &dyn Code,
) -> Result<State, PoolFault>
    requires code { IsCodeOf (map_of map).profile (meaning code.now) }
    requires accepted { IsAccepted (map_of map).profile }
    requires positions { (map_of map).n ≡ (meaning code.now).n }
    requires ready { IsReady (⟦<MemRig as Rig>⟧.is_here rig.old) (⟦<MemRig as Rig>⟧.reads rig.old)
        (⟦<MemRig as Rig>⟧.images rig.old (⟦<MemRig as Rig>⟧.clock rig.old)) map }
{
    let mut pool = Pool::open(alloc, rig, map, code)?;
    pool.start(rig, code)
}

/// Opens the pool of a rig by these boxes, and starts it.
fn started_with(
    alloc: Global,
    rig: &mut MemRig,
    codes: &mut [Box<dyn Code>],
) -> Result<State, PoolFault>
    requires { HaveEachPlugin (λ box. plugin_name box) codes.old }
{
    if !rig.here(MAP_SLOT) {
        return Err(PoolFault::MapFailed);
    }
    match PoolMap::load(alloc, rig, codes) {
        Ok((map, index)) => started_of(alloc, rig, map, codes[index].as_ref()),
        Err(_) => Err(PoolFault::MapFailed),
    }
}

/// Opens the pool of a rig, and starts it.
fn started(alloc: Global, rig: &mut MemRig) -> Result<Result<State, PoolFault>, Fail> {
    let mut codes = boxes(alloc)?;
    if !has_each_plugin(&codes) {
        return Err(Fail::from(MapFault::BadMap));
    }
    Ok(started_with(alloc, rig, &mut codes))
}

#[test]
fn each_start_is_an_interval_that_all_slots_join(rt: HostRuntime) -> Result<(), Fail> {
    let mut rig = MemRig::new(rt.alloc())?;
    made(rt.alloc(), &mut rig, PROFILE)??;
    let first = started(rt.alloc(), &mut rig)?;
    assert!(rt;
        first
            == Ok(State::Active {
                epoch: 2,
                joined: Mask(7)
            })
    );
    assert!(rt; rig.bytes(1, 0) == STARTED.as_slice());
    let second = started(rt.alloc(), &mut rig)?;
    assert!(rt;
        second
            == Ok(State::Active {
                epoch: 3,
                joined: Mask(7)
            })
    );
    Ok(())
}

#[test]
fn a_pool_serves_without_a_slot_and_is_down_without_two(rt: HostRuntime) -> Result<(), Fail> {
    let mut rig = MemRig::new(rt.alloc())?;
    made(rt.alloc(), &mut rig, PROFILE)??;
    rig.gone(2);
    let two = started(rt.alloc(), &mut rig)?;
    assert!(rt;
        two == Ok(State::Active {
            epoch: 2,
            joined: Mask(3)
        })
    );
    rig.gone(1);
    let one = started(rt.alloc(), &mut rig)?;
    assert!(rt;
        one == Ok(State::Down {
            epoch: 2,
            up: Mask(1)
        })
    );
    Ok(())
}

#[test]
fn slots_that_decide_all_and_are_too_few_do_not_serve(rt: HostRuntime) -> Result<(), Fail> {
    let mut rig = MemRig::new(rt.alloc())?;
    made(rt.alloc(), &mut rig, b"k=2,m=2,min_size=3,stripe_unit=32")??;
    rig.gone(0);
    rig.gone(3);
    let two = started(rt.alloc(), &mut rig)?;
    assert!(rt;
        two == Ok(State::Short {
            joined: Mask(6),
            min: 3
        })
    );
    Ok(())
}

#[test]
fn a_slot_that_fails_as_it_starts_is_left_out(rt: HostRuntime) -> Result<(), Fail> {
    let mut rig = MemRig::new(rt.alloc())?;
    made(rt.alloc(), &mut rig, PROFILE)??;
    rig.fail_at(1, 8)?;
    let two = started(rt.alloc(), &mut rig)?;
    assert!(rt;
        two == Ok(State::Active {
            epoch: 3,
            joined: Mask(5)
        })
    );
    Ok(())
}
