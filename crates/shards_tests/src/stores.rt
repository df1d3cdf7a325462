//! A store's text, its crashes, what is staged, and a shelf's stores and bytes.
ghost use Rattle.std.specs.Prelude.{◌≡◌, ◌≤◌, ◌<◌, OnOk, IfOk};
ghost use Rattle.shard_model.specs.StepBytes.{HasShortLists};
ghost use Rattle.shard_steps.specs.StepMeanings.{step_of};
ghost use Rattle.shard_store.specs.Stored.{slot_in, told_in, IsAtRest, Becomes};
ghost use Rattle.shard_store.specs.Told.{IsAccepted, with_step};

use ec_words::{Bytes, Geometry, Name, Version};
use rig_disk::{MemRig, Rig};
use shard_state::{ShardState, StepFault};
use shard_steps::{Step, encode_steps};
use shard_store::{FetchFault, Shelf, Store, StoreFault};
use slot_journal::MAX_BODY;
use std::alloc::Global;
use std::slice;
use std::test::Fail;

const GEOMETRY: Geometry = Geometry { k: 2, unit: 32 };

// The calls of `make` on an empty area, with `place` before them, and those of a flush.
const MADE: u64 = 13;

const FLUSHED: u64 = 6;

/// Stages a step where its bytes may be staged.
fn stage(alloc: Global, store: &mut Store, step: Step) -> Result<(), StepFault>
    requires { HasShortLists (step_of step) }
    ensures { OnOk result (Becomes store.old store.new (with_step (told_in store.old) (step_of step))) }
{
    let text = encode_steps(alloc, slice::from_ref(&step))?;
    let len = store.unflushed() + text.as_slice().len() as u64;
    if len > MAX_BODY as u64 || len + 5 > store.room() {
        return Err(StepFault::NoMemory);
    }
    store.stage(step)
}

/// Makes a shard in a slot, and starts epoch 2 in it. Whether that was flushed, as its counts say too.
fn is_begun(alloc: Global, rig: &mut MemRig, slot: u8) -> Result<bool, Fail>
    requires { slot ≤ 16 }
    ensures { OnOk result (⟦<MemRig as Rig>⟧.is_here rig.new slot) }
{
    rig.place(slot)?;
    let mut store = Store::make(alloc, rig, slot, GEOMETRY, 3, false)?;
    stage(alloc, &mut store, Step::Started(2))?;
    store.accept();
    let pending = store.pending();
    let flushed = store.flush(rig).is_ok();
    Ok(flushed && pending == 5 && store.pending() == 0 && store.room() == (1 << 40) - 45)
}

// From the format: the header, the first record, and the record of a second step.
#[test]
fn a_text_has_the_bytes_of_the_format(rt: HostRuntime) -> Result<(), Fail> {
    let mut rig = MemRig::new(rt.alloc())?;
    let begun = is_begun(rt.alloc(), &mut rig, 1)?;
    assert_eq!(rt;
        rig.bytes(1, 0),
        b"OECSHARD\x01\x01\x02\x03\0\0\0\x20\0\0\0\0\0\0\0\0O\0\0\0\x05\x07\0\0\0\x01O\0\0\0\x05\x07\0\0\0\x02\0".as_slice()
    );
    assert!(rt; begun);
    Ok(())
}

/// The record of a new object of two bytes, of which slot 0 and slot 2 have `01 02` and slot 1 has zeros.
const FULL: [u8; 35] =
    *b"\x02\0\0\0\x02\0\0\0\0\0\0\0\x01\0\0\0\0\0\0\0\0\0\0\0\0\x01a\0\0\0\x02\0\0\0\x20";

/// The step of that record.
fn full(alloc: Global, first: u8, second: u8) -> Result<Step, Fail>
    ensures { IfOk result (λ step. HasShortLists (step_of step)) }
{
    let mut bytes = vec![in alloc; 0u8; 32]?;
    bytes[0] = first;
    bytes[1] = second;
    Ok(Step::Replace {
        version: Version { epoch: 2, seq: 1 },
        prior: Version { epoch: 0, seq: 0 },
        name: Name::read(alloc, b"a")?,
        size: 2,
        bytes: Bytes::of(bytes),
    })
}

/// Stages the step of that record, and accepts it.
fn fill(alloc: Global, store: &mut Store, first: u8, second: u8) -> Result<(), Fail>
    ensures { OnOk result ((store.new.journal ≡ store.old.journal) × IsAccepted (told_in store.new)) }
{
    let step = full(alloc, first, second)?;
    stage(alloc, store, step)?;
    store.accept();
    Ok(())
}

/// Loads a slot, and flushes the new object. Whether that was done.
fn is_filled(alloc: Global, rig: &mut MemRig, slot: u8, first: u8, second: u8) -> Result<bool, Fail>
    requires slot { slot ≤ 16 }
    requires here { ⟦<MemRig as Rig>⟧.is_here rig.old slot }
{
    let mut store = Store::load(alloc, rig, slot, GEOMETRY, 3)?;
    let step = full(alloc, first, second)?;
    stage(alloc, &mut store, step)?;
    store.accept();
    Ok(store.flush(rig).is_ok())
}

/// Whether a text's last record is that of the new object, its gate and its length before it and 30 zeros and a closed gate
/// behind.
fn ends_full(text: &[u8], first: u8, second: u8) -> bool {
    text.len() == 117
        && &text[44..49] == b"O\0\0\0\x43".as_slice()
        && &text[49..84] == FULL.as_slice()
        && &text[84..86] == [first, second].as_slice()
        && &text[86..117] == [0u8; 31].as_slice()
}

// By hand, from the format.
#[test]
fn a_record_of_a_new_object_has_the_bytes_of_the_format(rt: HostRuntime) -> Result<(), Fail> {
    for (slot, first, second) in [(0u8, 1u8, 2u8), (1, 0, 0), (2, 1, 2)] {
        let mut rig = MemRig::new(rt.alloc())?;
        let begun = is_begun(rt.alloc(), &mut rig, slot)?;
        let filled = is_filled(rt.alloc(), &mut rig, slot, first, second)?;
        let full = ends_full(rig.bytes(slot, 0), first, second);
        assert!(rt; begun && filled && full, "in {slot}");
    }
    Ok(())
}

/// The last epoch started in the shard that a crash leaves in slot 0, or 0 where it leaves none.
fn epoch_after_crash(alloc: Global, rig: &MemRig, pick: u8) -> Result<u32, Fail>
    requires { ⟦<MemRig as Rig>⟧.is_here rig.now 0 }
{
    let mut left = rig.crash(alloc, pick)?;
    match Store::load(alloc, &mut left, 0, GEOMETRY, 3) {
        Ok(store) => Ok(store.state().les()),
        Err(StoreFault::BadSlot { .. }) => Ok(0),
        Err(fault) => Err(fault)?,
    }
}

/// Whether each crash leaves the shard of epoch `new`, or before that was done one of `old`.
fn leaves(alloc: Global, rig: &MemRig, done: bool, new: u32, old: &[u32]) -> Result<bool, Fail>
    requires { ⟦<MemRig as Rig>⟧.is_here rig.now 0 }
{
    for pick in 0..4 {
        let epoch = epoch_after_crash(alloc, rig, pick)?;
        if epoch != new && (done || !old.contains(&epoch)) {
            return Ok(false);
        }
    }
    Ok(true)
}

#[test]
fn a_crash_in_a_first_make_leaves_no_shard_or_the_new_one(rt: HostRuntime) -> Result<(), Fail> {
    for done in 1..=MADE {
        let mut rig = MemRig::new(rt.alloc())?;
        rig.stop_after(done);
        rig.place(0)?;
        let made = Store::make(rt.alloc(), &mut rig, 0, GEOMETRY, 3, false).is_ok();
        let is_one = leaves(rt.alloc(), &rig, made, 1, &[0])?;
        assert!(rt; is_one && made == (done == MADE), "at {done}");
    }
    Ok(())
}

// The shard of before has started epoch 2, the new one epoch 1.
#[test]
fn a_crash_in_a_second_make_leaves_the_old_shard_none_or_the_new_one(
    rt: HostRuntime,
) -> Result<(), Fail> {
    for done in 0..20 {
        let mut rig = MemRig::new(rt.alloc())?;
        rig.stop_after(MADE + FLUSHED + done);
        let begun = is_begun(rt.alloc(), &mut rig, 0)?;
        let made = Store::make(rt.alloc(), &mut rig, 0, GEOMETRY, 3, false).is_ok();
        let is_one = leaves(rt.alloc(), &rig, made, 1, &[0, 2])?;
        assert!(rt; begun && is_one && (made || done < 19), "at {done}");
    }
    Ok(())
}

#[test]
fn a_crash_in_a_flush_leaves_the_steps_of_before_or_all(rt: HostRuntime) -> Result<(), Fail> {
    for done in 0..=FLUSHED {
        let mut rig = MemRig::new(rt.alloc())?;
        rig.stop_after(MADE + done);
        let flushed = is_begun(rt.alloc(), &mut rig, 0)?;
        let is_one = leaves(rt.alloc(), &rig, flushed, 2, &[1])?;
        assert!(rt; is_one && flushed == (done == FLUSHED), "at {done}");
    }
    Ok(())
}

/// Makes a store in a slot.
fn made(alloc: Global, rig: &mut MemRig, slot: u8) -> Result<Store, Fail>
    requires { slot ≤ 16 }
    ensures own { IfOk result (λ store. (slot_in store ≡ slot) × IsAccepted (told_in store)) }
    ensures here { OnOk result (⟦<MemRig as Rig>⟧.is_here rig.new slot) }
    ensures settled { IfOk result (λ store. IsAtRest (⟦<MemRig as Rig>⟧.reads rig.new)
        (⟦<MemRig as Rig>⟧.images rig.new (⟦<MemRig as Rig>⟧.clock rig.new)) store) }
{
    rig.place(slot)?;
    let store = Store::make(alloc, rig, slot, GEOMETRY, 3, false)?;
    Ok(store)
}

/// Makes a store in a slot of a rig of its own.
fn made_alone(alloc: Global, slot: u8) -> Result<Store, Fail>
    requires { slot ≤ 16 }
    ensures { IfOk result (λ store. (slot_in store ≡ slot) × IsAccepted (told_in store)) }
{
    let mut rig = MemRig::new(alloc)?;
    made(alloc, &mut rig, slot)
}

/// Whether `Clear` is refused. It fits a shard that is being filled alone, so it needs the step before it.
fn refuses_clear(alloc: Global, store: &mut Store) -> bool {
    stage(alloc, store, Step::Clear) == Err(StepFault::Misfit)
}

/// Whether `Clear` is staged behind the step that it needs.
fn takes_clear(alloc: Global, store: &mut Store) -> bool {
    stage(alloc, store, Step::Partial).is_ok() && stage(alloc, store, Step::Clear).is_ok()
}

/// Whether `Clear` is taken where it fits alone, also once the step before it was forgotten.
fn clears(alloc: Global, store: &mut Store) -> bool {
    let first = refuses_clear(alloc, store) && takes_clear(alloc, store);
    store.unstage();
    let forgotten = !store.state().partial() && store.pending() == 0;
    let again = refuses_clear(alloc, store) && takes_clear(alloc, store);
    store.accept();
    first && forgotten && again && store.state().partial() && store.pending() == 2
}

#[test]
fn a_step_is_staged_behind_one_that_it_needs(rt: HostRuntime) -> Result<(), Fail> {
    let mut store = made_alone(rt.alloc(), 0)?;
    assert!(rt; clears(rt.alloc(), &mut store));
    Ok(())
}

/// An object of 32 equal bytes is put in the place of the one before, as entry `seq` of epoch 2.
fn filled(alloc: Global, seq: u64, byte: u8) -> Result<Step, Fail>
    ensures { IfOk result (λ step. HasShortLists (step_of step)) }
{
    let prior = match seq {
        1 => Version { epoch: 0, seq: 0 },
        _ => Version {
            epoch: 2,
            seq: seq.saturating_sub(1),
        },
    };
    Ok(Step::Replace {
        version: Version { epoch: 2, seq },
        prior,
        name: Name::read(alloc, b"a")?,
        size: 2,
        bytes: Bytes::of(vec![in alloc; byte; 32]?),
    })
}

/// Stages such a step.
fn put(alloc: Global, store: &mut Store, seq: u64, byte: u8) -> Result<(), Fail> {
    let step = filled(alloc, seq, byte)?;
    stage(alloc, store, step)?;
    Ok(())
}

/// Does such a step.
fn apply(alloc: Global, state: &mut ShardState, seq: u64, byte: u8) -> Result<(), Fail> {
    let step = filled(alloc, seq, byte)?;
    state.apply(&step)?;
    Ok(())
}

/// Whether two shards look the same, as far as object `a` and the bounds tell.
fn same(alloc: Global, one: &ShardState, other: &ShardState) -> Result<bool, Fail> {
    let a = Name::read(alloc, b"a")?;
    let bytes = match (one.object(&a), other.object(&a)) {
        (None, None) => true,
        (Some(one), Some(other)) => one.bytes.as_slice() == other.bytes.as_slice(),
        _ => false,
    };
    let bounds = one.head() == other.head()
        && one.firm() == other.firm()
        && one.tail() == other.tail()
        && one.les() == other.les();
    Ok(bytes && bounds && one.log_len() == other.log_len() && one.partial() == other.partial())
}

/// A shard that has started epoch 1 and done no more.
fn started(alloc: Global) -> Result<ShardState, Fail> {
    let mut plain = ShardState::fresh(alloc, GEOMETRY);
    plain.apply(&Step::Started(1))?;
    Ok(plain)
}

/// Stages two, which take the place of the object one after the other.
fn put_both(alloc: Global, store: &mut Store) -> Result<(), Fail> {
    put(alloc, store, 1, 1)?;
    put(alloc, store, 2, 2)?;
    Ok(())
}

/// Does both.
fn apply_both(alloc: Global, state: &mut ShardState) -> Result<(), Fail> {
    apply(alloc, state, 1, 1)?;
    apply(alloc, state, 2, 2)?;
    Ok(())
}

/// Three are staged and forgotten, and then two of them are taken. Whether the states are right.
fn forgets_three(alloc: Global, store: &mut Store, plain: &mut ShardState) -> Result<bool, Fail> {
    stage(alloc, store, Step::Started(2))?;
    put_both(alloc, store)?;
    store.unstage();
    let forgotten = same(alloc, store.state(), plain)?;
    put_both(alloc, store)?;
    store.accept();
    apply_both(alloc, plain)?;
    Ok(forgotten && same(alloc, store.state(), plain)?)
}

#[test]
fn a_second_stage_works_after_three_are_forgotten(rt: HostRuntime) -> Result<(), Fail> {
    let mut store = made_alone(rt.alloc(), 0)?;
    let mut plain = started(rt.alloc())?;
    let is_right = forgets_three(rt.alloc(), &mut store, &mut plain)?;
    assert!(rt; is_right);
    Ok(())
}

/// One is taken with no flush after it, one is forgotten, and then it is taken. Whether the states are right.
fn takes_turns(alloc: Global, store: &mut Store, plain: &mut ShardState) -> Result<bool, Fail> {
    put(alloc, store, 1, 1)?;
    store.accept();
    apply(alloc, plain, 1, 1)?;
    put(alloc, store, 2, 2)?;
    store.unstage();
    let forgotten = same(alloc, store.state(), plain)?;
    put(alloc, store, 2, 2)?;
    store.accept();
    apply(alloc, plain, 2, 2)?;
    Ok(forgotten && same(alloc, store.state(), plain)?)
}

#[test]
fn the_state_is_that_of_the_accepted_steps_by_turns(rt: HostRuntime) -> Result<(), Fail> {
    let mut store = made_alone(rt.alloc(), 0)?;
    let mut plain = started(rt.alloc())?;
    let is_right = takes_turns(rt.alloc(), &mut store, &mut plain)?;
    assert!(rt; is_right);
    Ok(())
}

/// Starts epoch 2 in the store of a slot. Whether there is one.
fn is_started(alloc: Global, shelf: &mut Shelf, slot: u8) -> bool
    requires { slot < 16 }
{
    match shelf.get_mut(slot) {
        None => false,
        Some(store) => {
            let staged = stage(alloc, store, Step::Started(2)).is_ok();
            store.accept();
            staged
        }
    }
}

/// Whether a store is changed on a shelf at its slot, and at no other, as long as it is there.
fn is_changed(alloc: Global, store: Store) -> bool
    requires { slot_in store ≡ 3 }
{
    let mut shelf = Shelf::new();
    let empty = !is_started(alloc, &mut shelf, 3);
    shelf.put(3, store);
    let alone = !is_started(alloc, &mut shelf, 2) && is_started(alloc, &mut shelf, 3);
    let pending = match shelf.get(3) {
        None => 0,
        Some(store) => store.pending(),
    };
    shelf.drop_slot(3);
    empty && alone && pending == 5 && !is_started(alloc, &mut shelf, 3)
}

#[test]
fn a_store_is_changed_on_its_shelf(rt: HostRuntime) -> Result<(), Fail> {
    let store = made_alone(rt.alloc(), 3)?;
    assert!(rt; is_changed(rt.alloc(), store));
    Ok(())
}

/// Makes a store with the new object in slot 0.
fn made_full(alloc: Global, rig: &mut MemRig) -> Result<Store, Fail>
    ensures own { IfOk result (λ store. (slot_in store ≡ 0) × IsAccepted (told_in store)) }
    ensures here { OnOk result (⟦<MemRig as Rig>⟧.is_here rig.new 0) }
    ensures settled { IfOk result (λ store. IsAtRest (⟦<MemRig as Rig>⟧.reads rig.new)
        (⟦<MemRig as Rig>⟧.images rig.new (⟦<MemRig as Rig>⟧.clock rig.new)) store) }
{
    let mut store = made(alloc, rig, 0)?;
    fill(alloc, &mut store, 1, 2)?;
    Ok(store)
}

/// Whether two bytes from the second on are given and counted, and none once the store is dropped.
fn gives_ranges(rig: &mut MemRig, store: Store, name: &Name) -> bool
    requires own { (slot_in store ≡ 0) × IsAccepted (told_in store) }
    requires here { ⟦<MemRig as Rig>⟧.is_here rig.old 0 }
    requires settled { IsAtRest (⟦<MemRig as Rig>⟧.reads rig.old)
        (⟦<MemRig as Rig>⟧.images rig.old (⟦<MemRig as Rig>⟧.clock rig.old)) store }
{
    let mut shelf = Shelf::new();
    let mut into = [9u8; 2];
    shelf.put(0, store);
    let first = shelf.fetch(rig, 0, name, 1, &mut into).is_ok() && into == [2, 0];
    let counted = shelf.fetched(0) == 2;
    shelf.drop_slot(0);
    let none = shelf.fetch(rig, 0, name, 1, &mut into) == Err(FetchFault::NoSuch);
    first && counted && none
}

#[test]
fn a_shelf_gives_ranges_of_objects_and_counts_them(rt: HostRuntime) -> Result<(), Fail> {
    let mut rig = MemRig::new(rt.alloc())?;
    let name = Name::read(rt.alloc(), b"a")?;
    let store = made_full(rt.alloc(), &mut rig)?;
    assert!(rt; gives_ranges(&mut rig, store, &name));
    Ok(())
}

/// Whether a range of the object `a` is refused, on a shelf of its own.
fn lacks(alloc: Global, text: &[u8], at: u32, into: &mut [u8]) -> Result<bool, Fail> {
    let mut rig = MemRig::new(alloc)?;
    let name = Name::read(alloc, text)?;
    let store = made_full(alloc, &mut rig)?;
    let mut shelf = Shelf::new();
    shelf.put(0, store);
    let done = shelf.fetch(&mut rig, 0, &name, at, into);
    Ok(done == Err(FetchFault::NoSuch) && shelf.fetched(0) == 0)
}

// No such name; then from the object's last byte, its end, the largest place, and behind its end.
#[test]
fn a_range_that_leaves_its_object_is_not_there(rt: HostRuntime) -> Result<(), Fail> {
    let alloc = rt.alloc();
    let mut two = [9u8; 2];
    let mut none = [9u8; 0];
    assert!(rt; lacks(alloc, b"b", 1, &mut two)? && !lacks(alloc, b"a", 30, &mut two)?);
    assert!(rt; lacks(alloc, b"a", 31, &mut two)? && lacks(alloc, b"a", u32::MAX, &mut two)?);
    assert!(rt; !lacks(alloc, b"a", 32, &mut none)? && lacks(alloc, b"a", 33, &mut none)?);
    Ok(())
}
