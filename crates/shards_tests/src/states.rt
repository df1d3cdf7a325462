//! Steps of a shard done and taken back, and steps as bytes.

use ec_words::{Bytes, Geometry, Name, Version};
use shard_state::{Held, ShardState, StepFault, UndoFault};
use shard_steps::{Kind, Step, StepsFault, decode_steps, encode_steps};
use std::alloc::Global;
use std::test::Fail;

/// Two data chunks of four bytes: an object of 16 bytes has eight here.
pub fn fresh_state(alloc: Global) -> ShardState {
    ShardState::fresh(alloc, Geometry { k: 2, unit: 4 })
}

pub fn version(seq: u64) -> Version {
    if seq == 0 {
        Version { epoch: 0, seq: 0 }
    } else {
        Version { epoch: 1, seq }
    }
}

/// Goes back on a shard that is not partial.
pub fn go_back(state: &mut ShardState, version: Version) -> Result<(), UndoFault> {
    if state.partial() {
        return Err(UndoFault::NoMemory);
    }
    state.undo_to(version)
}

fn bytes_of(alloc: Global, b: u8) -> Result<Bytes, Fail> {
    Ok(Bytes::of(vec![in alloc; b, b, b, b]?))
}

/// Four bytes are written into an object from then on of `size` bytes, which is made where `fresh` is 1.
fn wrote(
    alloc: Global,
    state: &mut ShardState,
    text: &str,
    fresh: u8,
    size: u32,
    at: u32,
    b: u8,
) -> Result<(), Fail> {
    let prior = state.head();
    let name = Name::read(alloc, text.as_bytes())?;
    let bytes = bytes_of(alloc, b)?;
    let step = Step::Write {
        version: version(prior.seq.wrapping_add(1)),
        prior,
        name,
        fresh,
        size,
        at,
        bytes,
    };
    state.apply(&step)?;
    Ok(())
}

/// An entry of a kind on the object `a`, with its attribute `t`.
fn entry(alloc: Global, kind: Kind, prior: Version, fresh: u8) -> Result<Step, Fail> {
    let version = version(prior.seq.wrapping_add(1));
    let name = Name::read(alloc, b"a")?;
    let attr = Name::read(alloc, b"t")?;
    let bytes = bytes_of(alloc, 7)?;
    Ok(match kind {
        Kind::Write => Step::Write {
            version,
            prior,
            name,
            fresh,
            size: 16,
            at: 4,
            bytes,
        },
        Kind::Replace => Step::Replace {
            version,
            prior,
            name,
            size: 5,
            bytes,
        },
        Kind::Remove => Step::Remove {
            version,
            prior,
            name,
        },
        Kind::SetAttr => Step::SetAttr {
            version,
            prior,
            name,
            attr,
            value: bytes,
        },
        Kind::RemoveAttr => Step::RemoveAttr {
            version,
            prior,
            name,
            attr,
        },
    })
}

/// Whether an entry of a kind comes now.
fn comes(alloc: Global, state: &mut ShardState, kind: Kind, fresh: u8) -> Result<bool, Fail> {
    let step = entry(alloc, kind, state.head(), fresh)?;
    Ok(state.apply(&step).is_ok())
}

fn held_bytes<'a>(state: &'a ShardState, name: &Name) -> Option<&'a [u8]> {
    match state.object(name) {
        Some(held) => Some(held.bytes.as_slice()),
        None => None,
    }
}

/// Whether the object has these bytes, or is not there.
fn has(state: &ShardState, name: &Name, bytes: Option<&[u8]>) -> bool {
    held_bytes(state, name) == bytes
}

/// Writes 1 to the second unit, 2 over it, and 3 to the first.
fn wrote_three(alloc: Global, state: &mut ShardState) -> Result<(), Fail> {
    wrote(alloc, state, "a", 1, 16, 4, 1)?;
    wrote(alloc, state, "a", 0, 16, 4, 2)?;
    wrote(alloc, state, "a", 0, 16, 0, 3)
}

// Two writes to the first unit, taken back to the middle and to the start.
#[test]
fn writes_over_each_other_are_taken_back_one_by_one(rt: HostRuntime) -> Result<(), Fail> {
    let alloc = rt.alloc();
    let a = Name::read(alloc, b"a")?;
    let mut state = fresh_state(alloc);
    wrote_three(alloc, &mut state)?;
    assert!(rt; state.head() == version(3) && has(&state, &a, Some(&[3, 3, 3, 3, 2, 2, 2, 2])));
    assert!(rt;
        go_back(&mut state, version(1)).is_ok() && has(&state, &a, Some(&[0, 0, 0, 0, 1, 1, 1, 1]))
    );
    assert!(rt; go_back(&mut state, version(2)) == Err(UndoFault::NoUndo { at: version(2) }));
    assert!(rt;
        go_back(&mut state, version(0)).is_ok() && has(&state, &a, None) && state.log_len() == 0
    );
    Ok(())
}

/// Whether an entry of a kind on a name that is not there comes or not, and leaves nothing once it is taken back.
fn leaves_nothing(alloc: Global, a: &Name, kind: Kind, fits: bool) -> Result<bool, Fail> {
    let mut state = fresh_state(alloc);
    let done = comes(alloc, &mut state, kind, 1)?;
    let there = state.object(a).is_some();
    Ok(
        done == fits
            && there == fits
            && go_back(&mut state, version(0)).is_ok()
            && state.object(a).is_none(),
    )
}

// Each kind of entry on a name that is not there: the first two fit.
#[test]
fn entries_on_a_fresh_name_are_taken_back(rt: HostRuntime) -> Result<(), Fail> {
    let alloc = rt.alloc();
    let a = Name::read(alloc, b"a")?;
    let rows = [
        (Kind::Write, true, "write"),
        (Kind::Replace, true, "replace"),
        (Kind::Remove, false, "remove"),
        (Kind::SetAttr, false, "set an attribute"),
        (Kind::RemoveAttr, false, "remove an attribute"),
    ];
    for (kind, fits, text) in rows {
        let same = leaves_nothing(alloc, &a, kind, fits)?;
        assert!(rt; same, "{text}");
    }
    Ok(())
}

/// Whether an entry of a kind comes after an object and its attribute were made, and can be taken back.
fn comes_and_goes(alloc: Global, state: &mut ShardState, kind: Kind) -> Result<bool, Fail> {
    wrote(alloc, state, "a", 1, 16, 4, 1)?;
    let has_attr = comes(alloc, state, Kind::SetAttr, 0)?;
    let done = comes(alloc, state, kind, 0)?;
    Ok(has_attr && done && state.head() == version(3) && go_back(state, version(2)).is_ok())
}

/// Whether the object is the one of 16 bytes with its one attribute.
fn is_first(state: &ShardState, a: &Name, t: &Name) -> bool {
    match state.object(a) {
        Some(held) => is_first_held(held, t),
        None => false,
    }
}

fn is_first_held(held: &Held, t: &Name) -> bool {
    held.bytes.as_slice() == [0u8, 0, 0, 0, 1, 1, 1, 1].as_slice()
        && held.size == 16
        && held.attrs.len() == 1
        && held.attrs.get(t).is_some()
        && held.attrs.name_at(0).is_some()
        && held.attrs.value_at(1).is_none()
}

// Each kind of entry on an object of 16 bytes with one attribute: it is as it was once they are taken back.
#[test]
fn entries_on_an_object_are_taken_back(rt: HostRuntime) -> Result<(), Fail> {
    let alloc = rt.alloc();
    let a = Name::read(alloc, b"a")?;
    let t = Name::read(alloc, b"t")?;
    let rows = [
        (Kind::Write, "write"),
        (Kind::Replace, "replace"),
        (Kind::Remove, "remove"),
        (Kind::SetAttr, "set an attribute"),
        (Kind::RemoveAttr, "remove an attribute"),
    ];
    for (kind, text) in rows {
        let mut state = fresh_state(alloc);
        let is_done = comes_and_goes(alloc, &mut state, kind)?;
        assert!(rt; is_done && is_first(&state, &a, &t), "{text}");
    }
    Ok(())
}

/// Writes the object again and again: entries up to this version.
fn wrote_up_to(alloc: Global, state: &mut ShardState, seq: u64) -> Result<(), Fail> {
    for i in 0..seq {
        let fresh = if i == 0 { 1 } else { 0 };
        wrote(alloc, state, "a", fresh, 16, 0, 1)?;
    }
    Ok(())
}

/// Whether the log was cut to its newest 512 entries.
fn is_cut(state: &ShardState) -> bool {
    let is_ninth = match state.logged(0) {
        Some(what) => what.version == version(9),
        None => false,
    };
    is_ninth
        && state.log_len() == 512
        && state.tail() == version(8)
        && state.firm() == version(519)
        && state.holds(version(519))
        && state.holds(version(520))
        && !state.holds(version(518))
}

// The log is cut to its newest 512 entries, up to a version that is firm.
#[test]
fn old_entries_are_trimmed(rt: HostRuntime) -> Result<(), Fail> {
    let alloc = rt.alloc();
    let mut state = fresh_state(alloc);
    wrote_up_to(alloc, &mut state, 520)?;
    assert!(rt; state.apply(&Step::Trim(version(8))) == Err(StepFault::Misfit));
    assert!(rt; state.apply(&Step::Firm(version(519))).is_ok());
    assert!(rt; state.apply(&Step::Trim(version(8))).is_ok() && is_cut(&state));
    Ok(())
}

/// Makes an object, removes it, and lets the log go.
fn removed_for_good(alloc: Global, state: &mut ShardState) -> Result<bool, Fail> {
    wrote(alloc, state, "a", 1, 16, 4, 1)?;
    let removed = comes(alloc, state, Kind::Remove, 0)?;
    Ok(
        removed
            && state.apply(&Step::Firm(version(2))).is_ok()
            && state.apply(&Step::Trim(version(1))).is_ok()
            && state.apply(&Step::Trim(version(2))).is_ok(),
    )
}

// A removed object is gone with the entries that name it, and is made anew.
#[test]
fn a_removed_object_goes_with_its_entries(rt: HostRuntime) -> Result<(), Fail> {
    let alloc = rt.alloc();
    let mut state = fresh_state(alloc);
    let removed = removed_for_good(alloc, &mut state)?;
    assert!(rt;
        removed && state.count() == 0 && state.next_name(None).is_none() && state.log_len() == 0
    );
    wrote(alloc, &mut state, "a", 1, 16, 4, 1)?;
    assert!(rt; state.count() == 1);
    Ok(())
}

/// Whether the names in their order are these two, where one that is missing is not there.
fn are_names(state: &ShardState, first: Option<&Name>, second: Option<&Name>) -> bool {
    state.next_name(None) == first
        && match first {
            Some(name) => state.next_name(Some(name)) == second,
            None => second.is_none(),
        }
}

/// Whether there are this many objects, which take so much.
fn weigh(state: &ShardState, count: usize, usage: u64) -> bool {
    state.count() == count && state.usage() == usage
}

// An object takes its size, and the lengths of its attributes' names and values. One that is removed is passed over.
#[test]
fn objects_are_listed_in_order_and_weighed(rt: HostRuntime) -> Result<(), Fail> {
    let alloc = rt.alloc();
    let upper = Name::read(alloc, b"A")?;
    let lower = Name::read(alloc, b"a")?;
    let mut state = fresh_state(alloc);
    assert!(rt; are_names(&state, None, None));
    wrote(alloc, &mut state, "a", 1, 16, 4, 1)?;
    let has_attr = comes(alloc, &mut state, Kind::SetAttr, 0)?;
    wrote(alloc, &mut state, "A", 1, 20, 0, 1)?;
    assert!(rt;
        has_attr && weigh(&state, 2, 16 + 5 + 20) && are_names(&state, Some(&upper), Some(&lower))
    );
    assert!(rt; state.next_name(Some(&lower)).is_none());
    let removed = comes(alloc, &mut state, Kind::Remove, 0)?;
    assert!(rt; removed && weigh(&state, 1, 20) && are_names(&state, Some(&upper), None));
    assert!(rt;
        go_back(&mut state, version(2)).is_ok()
            && weigh(&state, 1, 16 + 5)
            && are_names(&state, Some(&lower), None)
    );
    Ok(())
}

/// Whether a copy is as the first was, and takes its own entries back.
fn goes_its_own_way(copy: &mut ShardState, a: &Name) -> bool {
    copy.log_len() == 2
        && copy.count() == 1
        && has(copy, a, Some(&[1, 1, 1, 1, 2, 2, 2, 2]))
        && go_back(copy, version(1)).is_ok()
        && has(copy, a, Some(&[1, 1, 1, 1, 0, 0, 0, 0]))
        && go_back(copy, version(0)).is_ok()
        && copy.count() == 0
}

// A copy goes its own way: what is done to the first is not done to it, and it takes its entries back.
#[test]
fn a_copy_is_equal_and_goes_its_own_way(rt: HostRuntime) -> Result<(), Fail> {
    let alloc = rt.alloc();
    let a = Name::read(alloc, b"a")?;
    let mut state = fresh_state(alloc);
    wrote(alloc, &mut state, "a", 1, 16, 0, 1)?;
    wrote(alloc, &mut state, "a", 0, 16, 4, 2)?;
    let mut copy = state.copy(alloc)?;
    wrote(alloc, &mut state, "a", 0, 16, 0, 3)?;
    assert!(rt; goes_its_own_way(&mut copy, &a) && state.log_len() == 3);
    Ok(())
}

// By hand after docs/FORMAT.md: an epoch started, no objects, and a version gone back to.
#[test]
fn steps_are_put_one_after_another(rt: HostRuntime) -> Result<(), Fail> {
    let alloc = rt.alloc();
    let steps = [Step::Started(1), Step::Clear, Step::Back(version(3))];
    let text = encode_steps(alloc, steps.as_slice())?;
    let expected = [7, 0, 0, 0, 1, 13, 6, 0, 0, 0, 1, 0, 0, 0, 0, 0, 0, 0, 3];
    assert!(rt; text.as_slice() == expected.as_slice() && are_read(alloc, text.as_slice(), 3));
    Ok(())
}

/// Whether bytes are read as this many steps.
fn are_read(alloc: Global, text: &[u8], n: usize) -> bool {
    match decode_steps(alloc, text) {
        Ok(steps) => steps.as_slice().len() == n,
        Err(_) => false,
    }
}

/// Whether a text is the step `full a ..` in epoch 2 with these bytes.
fn is_replace(alloc: Global, text: &[u8], expected: &[u8]) -> bool {
    match decode_steps(alloc, text) {
        Ok(steps) => match steps.as_slice() {
            [step] => is_replace_step(step, expected),
            _ => false,
        },
        Err(_) => false,
    }
}

fn is_replace_step(step: &Step, expected: &[u8]) -> bool {
    match step {
        Step::Replace {
            version,
            prior,
            name,
            size,
            bytes,
        } => {
            *version == Version { epoch: 2, seq: 1 }
                && *prior == Version { epoch: 0, seq: 0 }
                && name.as_slice() == b"a".as_slice()
                && *size == 2
                && bytes.as_slice() == expected
        }
        _ => false,
    }
}

/// Whether a text is that step with the 32 bytes at its end.
fn is_record(alloc: Global, text: &[u8]) -> bool {
    match text.get(35..) {
        Some(bytes) => bytes.len() == 32 && is_replace(alloc, text, bytes),
        None => false,
    }
}

/// The record of an object's first two bytes in a slot, filled up with zeros.
fn record(alloc: Global, first: [u8; 2]) -> Result<Vec<u8>, Fail> {
    let front = [
        2u8, 0, 0, 0, 2, 0, 0, 0, 0, 0, 0, 0, 1, 0, 0, 0, 0, 0, 0, 0, 0, 0, 0, 0, 0, 1, b'a', 0, 0,
        0, 2, 0, 0, 0, 32,
    ];
    let mut text = Vec::from_slice(alloc, front.as_slice())?;
    text.extend_from_slice(first.as_slice())?;
    text.resize(67, 0)?;
    Ok(text)
}

// `full a 0102` in epoch 2 on a pool of two data chunks of 32 bytes, as it stands in each slot.
#[test]
fn a_record_is_read_in_each_slot(rt: HostRuntime) -> Result<(), Fail> {
    let alloc = rt.alloc();
    for first in [[1u8, 2], [0, 0], [1, 2]] {
        let text = record(alloc, first)?;
        assert!(rt; is_record(alloc, text.as_slice()));
    }
    Ok(())
}

/// The place where no step is spelled.
fn bad_place(alloc: Global, text: &str) -> Option<usize> {
    match decode_steps(alloc, text.as_bytes()) {
        Err(StepsFault::BadStep { at }) => Some(at),
        _ => None,
    }
}

// From the tables: the kind is none of them, a field is cut off, a name has no byte, or a space.
#[test]
fn the_first_bad_place_is_told(rt: HostRuntime) {
    let alloc = rt.alloc();
    let rows = [
        ("\x0f", 0),
        ("\x0a\x0d\0", 2),
        ("\x0a\x07\0\0\0", 1),
        ("\x0c\0", 0),
        ("\x0c\x01a\x0c\x01 ", 3),
    ];
    for (text, at) in rows {
        assert!(rt; bad_place(alloc, text) == Some(at));
    }
}
