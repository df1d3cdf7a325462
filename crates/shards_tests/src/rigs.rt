//! The rig and the source in memory, the rig over files, and standard input.
use ec_words::Bytes;
use rig_disk::{Failed, FileRig, MemRig, MemSource, Rig, Source, StdSource, VOICE};
use std::alloc::Global;
use std::fs;
use std::rt::Runtime;
use std::test::Fail;

/// A call on area 0 of slot 2.
#[derive(Clone, Copy)]
enum Op {
    Write(u64, &'static [u8]),
    Cut(u64),
    Sync,
}

// A rig with slot 2 alone.
fn placed(alloc: Global) -> Result<MemRig, Fail> {
    let mut rig = MemRig::new(alloc)?;
    rig.place(2)?;
    Ok(rig)
}

// Makes a call where its conditions hold.
fn make(rig: &mut MemRig, op: Op) -> Result<(), Failed> {
    match op {
        Op::Write(at, bytes) => write(rig, 2, 0, at, bytes),
        Op::Cut(len) => cut(rig, len),
        Op::Sync => sync(rig),
    }
}

fn write(rig: &mut MemRig, slot: u8, area: u8, at: u64, bytes: &[u8]) -> Result<(), Failed> {
    if slot > 16 || area > 1 || !rig.here(slot) || bytes.len() > 1000 {
        return Err(Failed);
    }
    if at > 1000 || at > rig.bytes(slot, area).len() as u64 {
        return Err(Failed);
    }
    rig.write_at(slot, area, at, bytes)
}

fn cut(rig: &mut MemRig, len: u64) -> Result<(), Failed> {
    if !rig.here(2) || len > rig.bytes(2, 0).len() as u64 {
        return Err(Failed);
    }
    rig.cut(2, 0, len)
}

fn sync(rig: &mut MemRig) -> Result<(), Failed> {
    if !rig.here(2) {
        return Err(Failed);
    }
    rig.sync(2, 0)
}

// Makes these calls, as far as they succeed, and answers how many did.
fn made(rig: &mut MemRig, ops: &[Op]) -> usize {
    for index in 0..ops.len() {
        if make(rig, ops[index]).is_err() {
            return index;
        }
    }
    ops.len()
}

// Whether a pick leaves these bytes of area 0 of slot 2, and that slot alone.
fn is_left(alloc: Global, rig: &MemRig, pick: u8, bytes: &[u8]) -> bool {
    match rig.crash(alloc, pick) {
        Ok(left) => left.bytes(2, 0) == bytes && left.here(2) && !left.here(3),
        Err(_) => false,
    }
}

// Whether each pick leaves its bytes after these calls.
fn each_leaves(alloc: Global, ops: &[Op], picked: [&[u8]; 5]) -> Result<bool, Fail> {
    let mut rig = placed(alloc)?;
    if made(&mut rig, ops) < ops.len() {
        return Ok(false);
    }
    for pick in 0..5u8 {
        if !is_left(alloc, &rig, pick, picked[usize::from(pick)]) {
            return Ok(false);
        }
    }
    Ok(is_left(alloc, &rig, 255, picked[1]))
}

#[test]
fn each_pick_leaves_what_it_says(rt: HostRuntime) -> Result<(), Fail> {
    let alloc = rt.alloc();
    let unsynced = [Op::Write(0, b"abc")];
    let grown = [
        Op::Write(0, b"abcd"),
        Op::Sync,
        Op::Write(1, b"XY"),
        Op::Write(4, b"ef"),
    ];
    assert!(rt;
        each_leaves(
            alloc,
            &unsynced,
            [b"", b"abc", b"\xff\xff\xff", b"", b"abc"]
        )?
    );
    assert!(rt;
        each_leaves(
            alloc,
            &grown,
            [
                b"abcd",
                b"aXYdef",
                b"a\xff\xffd\xff\xff",
                b"aXYd",
                b"aXYdef"
            ],
        )?
    );
    Ok(())
}

#[test]
fn each_pick_leaves_what_it_says_of_a_cut(rt: HostRuntime) -> Result<(), Fail> {
    let alloc = rt.alloc();
    let cut_and_grown = [
        Op::Write(0, b"abcd"),
        Op::Sync,
        Op::Cut(2),
        Op::Write(2, b"Z"),
    ];
    let synced = [Op::Write(0, b"abc"), Op::Cut(1), Op::Sync];
    assert!(rt;
        each_leaves(
            alloc,
            &cut_and_grown,
            [b"abcd", b"abZ", b"ab\xff", b"ab", b"abZ"]
        )?
    );
    assert!(rt; each_leaves(alloc, &synced, [b"a", b"a", b"a", b"a", b"a"])?);
    Ok(())
}

// Says something, and lets the next call on the slot fail.
fn said_and_planned(rig: &mut MemRig) -> Result<(), Fail> {
    rig.say(b"said")?;
    rig.fail_at(2, 1)?;
    Ok(())
}

// Nothing is said and nothing counted.
fn is_unused(rig: &MemRig) -> bool {
    rig.said() == b"".as_slice() && rig.syncs(2) == 0 && rig.written(2) == 0 && rig.given(2) == 0
}

#[test]
fn a_crash_leaves_nothing_said_and_nothing_counted(rt: HostRuntime) -> Result<(), Fail> {
    let mut rig = placed(rt.alloc())?;
    assert!(rt; made(&mut rig, &[Op::Write(0, b"abc"), Op::Sync]) == 2);
    said_and_planned(&mut rig)?;
    let mut after = rig.crash(rt.alloc(), 1)?;
    assert!(rt; is_unused(&after) && made(&mut after, &[Op::Write(3, b"d")]) == 1);
    assert!(rt; after.bytes(2, 0) == b"abcd".as_slice() && rig.bytes(2, 0) == b"abc".as_slice());
    Ok(())
}

// Writes to both areas of the first slot, and to the last slot.
fn fill(rig: &mut MemRig) -> Result<(), Failed> {
    rig.place(0)?;
    rig.place(16)?;
    write(rig, 0, 0, 0, b"first")?;
    write(rig, 0, 1, 0, b"second")?;
    write(rig, 16, 0, 0, b"map")
}

// A read of area 0 into 8 dots gives these.
fn reads(rig: &mut MemRig, slot: u8, at: u64, count: usize, bytes: &[u8]) -> bool {
    if slot > 16 || !rig.here(slot) {
        return false;
    }
    let mut into = *b"........";
    match rig.read_at(slot, 0, at, &mut into) {
        Ok(given) => given == count && into.as_slice() == bytes,
        Err(_) => false,
    }
}

// How often the slot was synced, and how many of its bytes were written and read.
fn counts(rig: &MemRig, slot: u8) -> (u64, u64, u64) {
    if slot > 16 {
        return (0, 0, 0);
    }
    (rig.syncs(slot), rig.written(slot), rig.given(slot))
}

#[test]
fn areas_are_apart_and_reads_are_counted(rt: HostRuntime) -> Result<(), Fail> {
    let mut rig = MemRig::new(rt.alloc())?;
    fill(&mut rig)?;
    assert!(rt; reads(&mut rig, 0, 0, 5, b"first...") && reads(&mut rig, 0, 3, 2, b"st......"));
    assert!(rt; reads(&mut rig, 0, 5, 0, b"........") && reads(&mut rig, 0, 9, 0, b"........"));
    assert!(rt; reads(&mut rig, 16, 0, 3, b"map....."));
    assert!(rt; counts(&rig, 0) == (0, 11, 7) && counts(&rig, 16) == (0, 3, 3));
    assert!(rt; rig.bytes(0, 1) == b"second".as_slice());
    Ok(())
}

// The third of four texts is not said.
fn third_fails(rig: &mut MemRig) -> bool {
    rig.say(b"b").is_ok()
        && rig.say(b"c").is_err()
        && rig.say(b"de").is_ok()
        && rig.said() == b"abde".as_slice()
}

#[test]
fn a_planned_call_fails_once(rt: HostRuntime) -> Result<(), Fail> {
    let mut rig = MemRig::new(rt.alloc())?;
    rig.say(b"a")?;
    rig.fail_at(VOICE, 2)?;
    rig.fail_at(3, 1)?;
    assert!(rt; third_fails(&mut rig));
    Ok(())
}

// The calls 1, 3 and 5 on slot 2 are to fail.
fn plan(rig: &mut MemRig) -> Result<(), Fail> {
    rig.fail_at(2, 1)?;
    rig.fail_at(2, 3)?;
    rig.fail_at(2, 5)?;
    Ok(())
}

// A call has this outcome, and leaves these bytes and this count of syncs.
fn leaves(rig: &mut MemRig, op: Op, is_done: bool, bytes: &[u8], syncs: u64) -> bool {
    make(rig, op).is_ok() == is_done && rig.bytes(2, 0) == bytes && rig.syncs(2) == syncs
}

// Each call that is to fail changes nothing.
fn three_change_nothing(rig: &mut MemRig) -> bool {
    rig.place(2).is_err()
        && !rig.here(2)
        && rig.place(2).is_ok()
        && leaves(rig, Op::Write(0, b"lost"), false, b"", 0)
        && leaves(rig, Op::Write(0, b"kept"), true, b"kept", 0)
        && leaves(rig, Op::Sync, false, b"kept", 0)
        && leaves(rig, Op::Sync, true, b"kept", 1)
        && leaves(rig, Op::Cut(1), true, b"k", 1)
}

#[test]
fn a_planned_call_changes_nothing(rt: HostRuntime) -> Result<(), Fail> {
    let mut rig = MemRig::new(rt.alloc())?;
    plan(&mut rig)?;
    assert!(rt; three_change_nothing(&mut rig));
    Ok(())
}

// Two calls succeed, and no more.
fn two_succeed(rig: &mut MemRig) -> bool {
    leaves(rig, Op::Write(0, b"a"), true, b"a", 0)
        && rig.say(b"said").is_ok()
        && leaves(rig, Op::Write(1, b"b"), false, b"a", 0)
        && rig.say(b"more").is_err()
        && rig.place(3).is_err()
        && rig.said() == b"said".as_slice()
}

#[test]
fn all_calls_fail_after_the_last_that_is_allowed(rt: HostRuntime) -> Result<(), Fail> {
    let mut rig = placed(rt.alloc())?;
    rig.stop_after(2);
    assert!(rt; two_succeed(&mut rig));
    Ok(())
}

// The bytes 1 and 3 of area 0 become other ones, and there is no byte 4 and none in area 1.
fn spoil_two(rig: &mut MemRig) -> bool {
    rig.spoil(2, 0, 1, b'#')
        && rig.spoil(2, 0, 3, b'#')
        && !rig.spoil(2, 0, 4, b'#')
        && !rig.spoil(2, 1, 0, b'#')
}

#[test]
fn a_spoiled_byte_is_other_from_the_first(rt: HostRuntime) -> Result<(), Fail> {
    let alloc = rt.alloc();
    let mut rig = placed(alloc)?;
    let ops = [Op::Write(0, b"abc"), Op::Sync, Op::Write(2, b"CD")];
    assert!(rt; made(&mut rig, &ops) == 3 && spoil_two(&mut rig));
    assert!(rt; is_left(alloc, &rig, 0, b"a#c") && is_left(alloc, &rig, 1, b"a#C#"));
    Ok(())
}

#[test]
fn a_slot_that_is_gone_keeps_its_bytes(rt: HostRuntime) -> Result<(), Fail> {
    let mut rig = placed(rt.alloc())?;
    assert!(rt; made(&mut rig, &[Op::Write(0, b"abc")]) == 1);
    rig.gone(2);
    assert!(rt; !rig.here(2) && rig.place(2).is_ok() && rig.bytes(2, 0) == b"abc".as_slice());
    Ok(())
}

// A take into the piece has this outcome, and leaves it so.
fn takes(source: &mut MemSource, piece: &mut [u8; 2], count: Option<usize>, bytes: &[u8]) -> bool {
    let taken = match source.take(piece) {
        Ok(taken) => Some(taken),
        Err(_) => None,
    };
    taken == count && piece.as_slice() == bytes
}

#[test]
fn input_comes_in_pieces(rt: HostRuntime) -> Result<(), Fail> {
    let mut source = MemSource::new(Bytes::from_slice(rt.alloc(), b"abc")?, Some(2));
    let mut piece = [0u8; 2];
    assert!(rt; takes(&mut source, &mut piece, Some(2), b"ab"));
    assert!(rt; takes(&mut source, &mut piece, None, b"ab"));
    assert!(rt; takes(&mut source, &mut piece, Some(1), b"cb"));
    assert!(rt; takes(&mut source, &mut piece, Some(0), b"cb"));
    assert!(rt; takes(&mut source, &mut piece, Some(0), b"cb"));
    Ok(())
}

#[test]
fn a_rig_speaks_to_standard_output(rt: HostRuntime) -> Result<(), Fail> {
    let mut rig = FileRig::open(rt, rt.alloc(), ".")?;
    assert!(rt; rig.say(b"said\n").is_ok());
    Ok(())
}

// Slot 3 alone is here.
fn third_is_here<T: Runtime>(rig: &FileRig<T>) -> bool {
    for slot in 0..17u8 {
        if rig.here(slot) != (slot == 3) {
            return false;
        }
    }
    true
}

#[test]
fn a_folder_of_its_own_makes_a_slot_here(rt: HostRuntime) -> Result<(), Fail> {
    fs::create_dir_all(&rt, "edge_here/slot.03")?;
    assert!(rt; third_is_here(&FileRig::open(rt, rt.alloc(), "edge_here")?));
    fs::remove_dir_all(&rt, "edge_here")?;
    Ok(())
}

// An area of slot 5 has this length.
fn is_long<T: Runtime>(rig: &mut FileRig<T>, area: u8, len: u64) -> bool {
    if area > 1 || !rig.here(5) {
        return false;
    }
    match rig.length(5, area) {
        Ok(found) => found == len,
        Err(_) => false,
    }
}

// A read of area 0 of slot 5 into 4 dots gives these.
fn gives<T: Runtime>(rig: &mut FileRig<T>, at: u64, count: usize, bytes: &[u8]) -> bool {
    if !rig.here(5) {
        return false;
    }
    let mut into = *b"....";
    match rig.read_at(5, 0, at, &mut into) {
        Ok(given) => given == count && into.as_slice() == bytes,
        Err(_) => false,
    }
}

fn is_written<T: Runtime>(rig: &mut FileRig<T>, at: u64, bytes: &[u8]) -> bool {
    if !rig.here(5) || at > 1000 || bytes.len() > 1000 {
        return false;
    }
    rig.write_at(5, 0, at, bytes).is_ok()
}

fn is_cut<T: Runtime>(rig: &mut FileRig<T>, len: u64) -> bool {
    rig.here(5) && rig.cut(5, 0, len).is_ok()
}

fn is_synced<T: Runtime>(rig: &mut FileRig<T>) -> bool {
    rig.here(5) && rig.sync(5, 0).is_ok()
}

// An area without a file is read, cut and synced as an empty one.
fn is_empty<T: Runtime>(rig: &mut FileRig<T>) -> bool {
    !rig.here(5)
        && rig.place(5).is_ok()
        && rig.here(5)
        && is_long(rig, 0, 0)
        && gives(rig, 0, 0, b"....")
        && is_cut(rig, 0)
        && is_synced(rig)
}

#[test]
fn an_area_without_a_file_is_empty(rt: HostRuntime) -> Result<(), Fail> {
    let mut rig = FileRig::open(rt, rt.alloc(), "edge_empty/pool")?;
    assert!(rt; is_empty(&mut rig));
    assert!(rt; fs::metadata(&rt, "edge_empty/pool/slot.05/area.0").is_err());
    fs::remove_dir_all(&rt, "edge_empty")?;
    Ok(())
}

// Bytes are written and synced, and read back.
fn keeps<T: Runtime>(rig: &mut FileRig<T>) -> bool {
    rig.place(5).is_ok()
        && is_written(rig, 0, b"abcdef")
        && is_written(rig, 2, b"XY")
        && is_synced(rig)
        && gives(rig, 0, 4, b"abXY")
        && gives(rig, 4, 2, b"ef..")
        && gives(rig, 6, 0, b"....")
}

// The file has these bytes.
fn has_bytes(rt: HostRuntime, path: &str, bytes: &[u8]) -> bool {
    match fs::read(&rt, path) {
        Ok(found) => found.as_slice() == bytes,
        Err(_) => false,
    }
}

// A rig of its own finds the bytes, and syncs them.
fn is_found(rt: HostRuntime, dir: &str) -> Result<bool, Fail> {
    let mut rig = FileRig::open(rt, rt.alloc(), dir)?;
    Ok(is_long(&mut rig, 0, 3) && is_synced(&mut rig) && gives(&mut rig, 0, 3, b"abX."))
}

#[test]
fn bytes_are_written_read_and_cut(rt: HostRuntime) -> Result<(), Fail> {
    let mut rig = FileRig::open(rt, rt.alloc(), "edge_bytes")?;
    assert!(rt; keeps(&mut rig) && is_cut(&mut rig, 3));
    assert!(rt; is_long(&mut rig, 0, 3) && is_long(&mut rig, 1, 0));
    assert!(rt; has_bytes(rt, "edge_bytes/slot.05/area.0", b"abX"));
    assert!(rt; is_found(rt, "edge_bytes")?);
    fs::remove_dir_all(&rt, "edge_bytes")?;
    Ok(())
}

// A read of what is there no more fails, and one of what is there goes on.
fn fails_and_goes_on<T: Runtime>(rig: &mut FileRig<T>) -> bool {
    if !rig.here(5) {
        return false;
    }
    let mut into = [0u8; 6];
    rig.read_at(5, 0, 0, &mut into).is_err()
        && rig.read_at(5, 0, 0, &mut into[..3]) == Ok(3)
        && is_long(rig, 0, 6)
}

#[test]
fn a_short_read_fails(rt: HostRuntime) -> Result<(), Fail> {
    let mut rig = FileRig::open(rt, rt.alloc(), "edge_short")?;
    assert!(rt; rig.place(5).is_ok() && is_written(&mut rig, 0, b"abcdef"));
    fs::write(&rt, "edge_short/slot.05/area.0", "abc")?;
    assert!(rt; fails_and_goes_on(&mut rig));
    fs::remove_dir_all(&rt, "edge_short")?;
    Ok(())
}

#[test]
fn a_folder_in_the_place_of_a_file_fails(rt: HostRuntime) -> Result<(), Fail> {
    fs::create_dir_all(&rt, "edge_folder/slot.05/area.0")?;
    let mut rig = FileRig::open(rt, rt.alloc(), "edge_folder")?;
    assert!(rt; rig.here(5) && rig.length(5, 0).is_err());
    assert!(rt; !is_written(&mut rig, 0, b"a") && is_long(&mut rig, 1, 0));
    fs::remove_dir_all(&rt, "edge_folder")?;
    Ok(())
}

// The tests of this crate run with an input that is at its end.
#[test]
fn a_source_reads_standard_input(rt: HostRuntime) {
    let mut source = StdSource::new(rt);
    let mut piece = [0u8; 16];
    assert_eq!(rt; source.take(&mut piece), Ok(0));
}
