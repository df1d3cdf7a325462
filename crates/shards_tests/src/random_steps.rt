//! Random steps, taken back version by version, against replays of the entries from the start.

use crate::states::{fresh_state, go_back, version};
use ec_words::{Bytes, Name, Version};
use shard_state::{Attrs, ShardState, StepFault};
use shard_steps::Step;
use std::alloc::Global;
use std::test::Fail;

/// How many steps are done, and at how many versions what taking back leaves is compared with a replay.
const STEPS: usize = 2000;

const VERSIONS: u64 = 50;

// The next number of a linear congruence (Knuth, "The Art of Computer Programming", 3.3.4, the multiplier of MMIX).
fn next_draw(draw: u64) -> u64 {
    draw.wrapping_mul(6364136223846793005)
        .wrapping_add(1442695040888963407)
}

/// A name of one letter of eight.
fn drawn_name(alloc: Global, draw: u64) -> Result<Name, Fail> {
    let letter = b'a' + (draw >> 40 & 7) as u8;
    Ok(Name::read(alloc, &[letter])?)
}

/// Some equal bytes.
fn drawn_bytes(alloc: Global, draw: u64, len: usize) -> Result<Bytes, Fail> {
    let byte = (draw >> 32 & 255) as u8;
    Ok(Bytes::of(vec![in alloc; byte; len]?))
}

/// A step that mostly fits. Objects have up to 64 bytes, and so up to 32 here.
fn drawn_step(alloc: Global, state: &ShardState, draw: u64) -> Result<Step, Fail> {
    match draw >> 56 & 15 {
        0..=5 => drawn_write(alloc, state, draw),
        6 | 7 => drawn_replace(alloc, state, draw),
        8 => drawn_remove(alloc, state, draw),
        9 => drawn_remove_attr(alloc, state, draw),
        10..=12 => drawn_set_attr(alloc, state, draw),
        kind => Ok(drawn_control(state, draw, kind)),
    }
}

/// An epoch is started, or the head or the log's bounds move.
fn drawn_control(state: &ShardState, draw: u64, kind: u64) -> Step {
    let head = state.head().seq;
    match kind {
        13 => Step::Back(version(head.saturating_sub(draw >> 34 & 3))),
        14 => Step::Started(state.les().saturating_add(1)),
        _ => {
            let low = version(head / 4);
            if draw >> 34 & 1 == 0 {
                Step::Firm(low)
            } else {
                Step::Trim(low)
            }
        }
    }
}

/// The version after the head.
fn next_version(state: &ShardState) -> Version {
    version(state.head().seq.saturating_add(1))
}

fn drawn_replace(alloc: Global, state: &ShardState, draw: u64) -> Result<Step, Fail> {
    let name = drawn_name(alloc, draw)?;
    let bytes = drawn_bytes(alloc, draw, 8)?;
    Ok(Step::Replace {
        version: next_version(state),
        prior: state.head(),
        name,
        size: 12,
        bytes,
    })
}

fn drawn_remove(alloc: Global, state: &ShardState, draw: u64) -> Result<Step, Fail> {
    let name = drawn_name(alloc, draw)?;
    Ok(Step::Remove {
        version: next_version(state),
        prior: state.head(),
        name,
    })
}

fn drawn_remove_attr(alloc: Global, state: &ShardState, draw: u64) -> Result<Step, Fail> {
    let name = drawn_name(alloc, draw)?;
    let attr = drawn_name(alloc, draw >> 3)?;
    Ok(Step::RemoveAttr {
        version: next_version(state),
        prior: state.head(),
        name,
        attr,
    })
}

fn drawn_set_attr(alloc: Global, state: &ShardState, draw: u64) -> Result<Step, Fail> {
    let name = drawn_name(alloc, draw)?;
    let attr = drawn_name(alloc, draw >> 3)?;
    let value = drawn_bytes(alloc, draw, 3)?;
    Ok(Step::SetAttr {
        version: next_version(state),
        prior: state.head(),
        name,
        attr,
        value,
    })
}

/// A write of one or two units, which lets the object grow or leaves it as long as it is.
fn drawn_write(alloc: Global, state: &ShardState, draw: u64) -> Result<Step, Fail> {
    let name = drawn_name(alloc, draw)?;
    let (fresh, old_size) = match state.object(&name) {
        None => (1, 0),
        Some(held) => (0, held.size),
    };
    let len = if draw >> 50 & 1 == 0 { 4 } else { 8 };
    let bytes = drawn_bytes(alloc, draw, len)?;
    Ok(Step::Write {
        version: next_version(state),
        prior: state.head(),
        name,
        fresh,
        size: old_size.max(16 + (draw >> 44 & 48) as u32),
        at: (draw >> 51 & 3) as u32 * 4,
        bytes,
    })
}

/// Does a step where it fits, and keeps the entries that are not taken back: the entry with the number `n` at `n - 1`.
fn take(
    alloc: Global,
    state: &mut ShardState,
    entries: &mut Vec<Step>,
    draw: u64,
) -> Result<bool, Fail> {
    let step = drawn_step(alloc, state, draw)?;
    match state.apply(&step) {
        Ok(()) => keep(entries, step),
        Err(StepFault::Misfit) => Ok(false),
        Err(fault) => Err(fault.into()),
    }
}

fn keep(entries: &mut Vec<Step>, step: Step) -> Result<bool, Fail> {
    match step {
        Step::Back(version) => entries.truncate(version.seq as usize),
        Step::Started(_) | Step::Firm(_) | Step::Trim(_) => {}
        entry => entries.push(entry)?,
    }
    Ok(true)
}

/// Draws until so many steps were done, and says how many were.
fn take_all(alloc: Global, state: &mut ShardState, entries: &mut Vec<Step>) -> Result<usize, Fail> {
    let mut draw = 1;
    let mut done: usize = 0;
    for _ in 0..4 * STEPS {
        draw = next_draw(draw);
        if done < STEPS && take(alloc, state, entries, draw)? {
            done = done.saturating_add(1);
        }
    }
    Ok(done)
}

/// Does entries, one after another.
fn replay(state: &mut ShardState, entries: &[Step]) -> Result<(), Fail> {
    for i in 0..entries.len() {
        state.apply(&entries[i])?;
    }
    Ok(())
}

/// Whether a state is the one after some entries alone.
fn is_replay(alloc: Global, state: &ShardState, entries: &[Step]) -> Result<bool, Fail> {
    let mut other = fresh_state(alloc);
    replay(&mut other, entries)?;
    Ok(are_alike(state, &other))
}

/// Whether two shards have the same objects under the same head.
fn are_alike(one: &ShardState, other: &ShardState) -> bool {
    if one.head() != other.head() || one.count() != other.count() || one.usage() != other.usage() {
        return false;
    }
    let mut after = None;
    for _ in 0..=one.count() {
        match (one.next_name(after), other.next_name(after)) {
            (None, None) => return true,
            (Some(name), Some(same)) => {
                if name != same || !is_held_alike(one, other, name) {
                    return false;
                }
                after = Some(name);
            }
            _ => return false,
        }
    }
    false
}

fn is_held_alike(one: &ShardState, other: &ShardState, name: &Name) -> bool {
    match (one.object(name), other.object(name)) {
        (Some(one), Some(other)) => {
            one.size == other.size
                && one.bytes.as_slice() == other.bytes.as_slice()
                && have_equal_attrs(&one.attrs, &other.attrs)
        }
        _ => false,
    }
}

fn have_equal_attrs(one: &Attrs, other: &Attrs) -> bool {
    if one.len() != other.len() {
        return false;
    }
    for i in 0..one.len() {
        match (one.name_at(i), other.name_at(i)) {
            (Some(name), Some(same)) => {
                if name != same || !is_value_alike(one, other, name) {
                    return false;
                }
            }
            _ => return false,
        }
    }
    true
}

fn is_value_alike(one: &Attrs, other: &Attrs, name: &Name) -> bool {
    match (one.get(name), other.get(name)) {
        (Some(one), Some(other)) => one.as_slice() == other.as_slice(),
        _ => false,
    }
}

/// Goes back to a version, and says whether that is what the entries up to it come to.
fn is_past(alloc: Global, state: &mut ShardState, entries: &[Step], at: u64) -> Result<bool, Fail> {
    if go_back(state, version(at)).is_err() {
        return Ok(false);
    }
    match entries.get(..at as usize) {
        Some(front) => is_replay(alloc, state, front),
        None => Ok(false),
    }
}

/// Whether each of the versions, from the head back, is what the entries up to it come to.
fn are_past(alloc: Global, state: &mut ShardState, entries: &[Step]) -> Result<bool, Fail> {
    let head = state.head().seq;
    let apart = head.saturating_sub(state.firm().seq) / VERSIONS;
    for i in 0..VERSIONS {
        let at = head.saturating_sub(apart.saturating_mul(i));
        if !is_past(alloc, state, entries, at)? {
            return Ok(false);
        }
    }
    Ok(apart > 0)
}

#[test]
fn going_back_after_random_steps_gives_their_replay(rt: HostRuntime) -> Result<(), Fail> {
    let alloc = rt.alloc();
    let mut state = fresh_state(alloc);
    let mut entries = Vec::new(alloc);
    let done = take_all(alloc, &mut state, &mut entries)?;
    let same = are_past(alloc, &mut state, entries.as_slice())?;
    assert!(rt; done == STEPS && same);
    Ok(())
}
