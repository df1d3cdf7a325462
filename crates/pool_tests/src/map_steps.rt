//! Steps on a map, and crashes in the midst of them.
ghost use Rattle.std.specs.Prelude.{OnOk};
ghost use Rattle.pool_tests.specs.Ready.{HasThree};

use crate::maps::{Seen, begun, gone_alive, loaded, made, marked, seen_of};
use pool_map::{MAP_SLOT, MapFault, PoolMap};
use rig_disk::{MemRig, Rig};
use std::alloc::Global;
use std::test::Fail;

/// What is done once there is a new map.
#[derive(Clone, Copy)]
enum Work {
    Nothing,
    Begin,
    Alive,
    Mark,
    Unmark,
    MarkAndMake,
}

/// Marks slot 2 as down, and takes the mark away.
fn unmarked<R: Rig>(rig: &mut R, map: &mut PoolMap) -> Result<(), MapFault>
    requires { HasThree (R.is_here rig.old) (R.reads rig.old) (R.images rig.old (R.clock rig.old)) map.old }
{
    marked(rig, map, true)?;
    marked(rig, map, false)
}

/// Does some work on a map.
fn worked<R: Rig>(rig: &mut R, map: &mut PoolMap, work: Work) -> Result<(), MapFault>
    requires { HasThree (R.is_here rig.old) (R.reads rig.old) (R.images rig.old (R.clock rig.old)) map.old }
{
    match work {
        Work::Nothing | Work::MarkAndMake => Ok(()),
        Work::Begin => begun(rig, map),
        Work::Alive => gone_alive(rig, map),
        Work::Mark => marked(rig, map, true),
        Work::Unmark => unmarked(rig, map),
    }
}

/// Makes a new map and does some work on it; what is seen of the map then, where all was done.
fn seen_after<R: Rig>(alloc: Global, rig: &mut R, work: Work) -> Result<Option<Seen>, Fail> {
    rig.place(MAP_SLOT)?;
    match made(alloc, rig)? {
        Ok(mut map) => match worked(rig, &mut map, work) {
            Ok(()) => Ok(Some(seen_of(&map))),
            Err(_) => Ok(None),
        },
        Err(_) => Ok(None),
    }
}

/// Whether a map is seen so after some work, and so loaded.
fn is_loaded(alloc: Global, work: Work, wanted: Seen) -> Result<bool, Fail> {
    let mut rig = MemRig::new(alloc)?;
    let seen = seen_after(alloc, &mut rig, work)?;
    Ok(seen == Some(wanted) && loaded(alloc, &mut rig)? == Ok(wanted))
}

#[test]
fn what_was_done_is_loaded(rt: HostRuntime) -> Result<(), Fail> {
    let rows = [
        (Work::Begin, (2, 0, 0)),
        (Work::Alive, (2, 1, 0)),
        (Work::Mark, (1, 7, 4)),
        (Work::Unmark, (1, 7, 0)),
    ];
    for (work, wanted) in rows {
        assert!(rt; is_loaded(rt.alloc(), work, wanted)?, "{wanted:?}");
    }
    Ok(())
}

/// Makes a map and marks slot 2 as down.
fn made_and_marked<R: Rig>(alloc: Global, rig: &mut R) -> Result<(), Fail>
    ensures { OnOk result (R.is_here rig.new 16) }
{
    rig.place(MAP_SLOT)?;
    let mut map = made(alloc, rig)??;
    Ok(marked(rig, &mut map, true)?)
}

/// Does some work, and says whether all of it was done.
fn did<R: Rig>(alloc: Global, rig: &mut R, work: Work) -> Result<bool, Fail> {
    match work {
        Work::MarkAndMake => {
            made_and_marked(alloc, rig)?;
            Ok(made(alloc, rig)?.is_ok())
        }
        _ => Ok(seen_after(alloc, rig, work)?.is_some()),
    }
}

/// A crash in some work: the calls of the rig before its last part, those of that part, what may be loaded where not all of them
/// were done, and what is loaded where they were.
#[derive(Clone, Copy)]
struct Crash {
    work: Work,
    first: u64,
    calls: u64,
    before: [Result<Seen, MapFault>; 2],
    after: Seen,
}

/// Whether a pick of a crash leaves one of these.
fn is_left(
    alloc: Global,
    rig: &MemRig,
    pick: u8,
    crash: &Crash,
    whole: bool,
) -> Result<bool, Fail> {
    let mut left = rig.crash(alloc, pick)?;
    let found = loaded(alloc, &mut left)?;
    let old = found == crash.before[0] || found == crash.before[1];
    Ok(found == Ok(crash.after) || (old && !whole))
}

/// Whether each pick does.
fn only_leaves(alloc: Global, rig: &MemRig, crash: &Crash, whole: bool) -> Result<bool, Fail> {
    for pick in 0..4 {
        if !is_left(alloc, rig, pick, crash, whole)? {
            return Ok(false);
        }
    }
    Ok(true)
}

/// Whether a rig that stops after some calls leaves what it may.
fn is_whole_or_not(alloc: Global, crash: &Crash, done: u64) -> Result<bool, Fail> {
    let mut rig = MemRig::new(alloc)?;
    rig.stop_after(crash.first.saturating_add(done));
    let whole = did(alloc, &mut rig, crash.work)?;
    Ok(whole == (done == crash.calls) && only_leaves(alloc, &rig, crash, whole)?)
}

/// The first number of calls after which it does not.
fn first_other(alloc: Global, crash: &Crash) -> Result<Option<u64>, Fail> {
    for done in 0..=crash.calls {
        if !is_whole_or_not(alloc, crash, done)? {
            return Ok(Some(done));
        }
    }
    Ok(None)
}

// On an empty area `make` has twelve calls, which are a sync, the length, the gate and a sync, then a cut, four writes and a
// sync, and then the gate and a sync. `place` comes before them. Over a text that is open the gate is read, too. A step has three
// writes and a sync, then the gate and a sync.
#[test]
fn a_crash_leaves_a_step_whole_or_not_at_all(rt: HostRuntime) -> Result<(), Fail> {
    let new = Ok((1, 7, 0));
    let none = Err(MapFault::NoPool);
    let rows = [
        (Work::Nothing, 1, 12, [none, none], (1, 7, 0)),
        (Work::MarkAndMake, 19, 13, [none, Ok((1, 7, 4))], (1, 7, 0)),
        (Work::Begin, 13, 6, [new, new], (2, 0, 0)),
        (
            Work::Alive,
            19,
            6,
            [Ok((2, 0, 0)), Ok((2, 0, 0))],
            (2, 1, 0),
        ),
        (Work::Mark, 13, 6, [new, new], (1, 7, 4)),
    ];
    for (work, first, calls, before, after) in rows {
        let crash = Crash {
            work,
            first,
            calls,
            before,
            after,
        };
        assert_eq!(rt; first_other(rt.alloc(), &crash)?, None, "{first}, {calls}");
    }
    Ok(())
}
