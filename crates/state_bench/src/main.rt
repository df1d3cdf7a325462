//! The program `state_bench measure`: how long writes take on a shard with few and with many objects, and how long it takes to
//! take them back. The gate runs it without the word, so that it prints nothing that differs from run to run.
#![tactic(auto)]

use anyhow::{Result, bail};
use ec_words::{Bytes, Geometry, Name, Version};
use shard_state::ShardState;
use shard_steps::Step;
use std::alloc::Global;
use std::env;
use std::rt::{Clock, Env};
use std::time::Instant;

/// The bytes of a write, and of an object.
const LEN: u32 = 4096;

/// How many writes are measured together.
const WRITES: u64 = 512;

/// How often they are measured. The best time counts.
const TURNS: u64 = 20;

fn version(seq: u64) -> Version {
    Version {
        epoch: if seq == 0 { 0 } else { 1 },
        seq,
    }
}

/// The write that comes after the one with this number.
fn write(alloc: Global, seq: u64, object: u64, fresh: u8) -> Result<Step> {
    let name = format!(in alloc; "object.{object:05}")?;
    let bytes = vec![in alloc; 0x61; LEN as usize]?;
    Ok(Step::Write {
        version: version(seq.saturating_add(1)),
        prior: version(seq),
        name: Name::read(alloc, name.as_bytes())?,
        fresh,
        size: LEN,
        at: 0,
        bytes: Bytes::of(bytes),
    })
}

/// A shard of this many objects, which cannot go back from there.
fn filled(alloc: Global, objects: u64) -> Result<ShardState> {
    let mut state = ShardState::fresh(alloc, Geometry { k: 1, unit: LEN });
    for i in 0..objects {
        state.apply(&write(alloc, i, i, 1)?)?;
    }
    state.apply(&Step::Firm(version(objects)))?;
    state.apply(&Step::Trim(version(objects)))?;
    Ok(state)
}

/// Writes over objects that lie far from each other.
fn writes(alloc: Global, objects: u64) -> Result<Vec<Step>> {
    let mut steps = Vec::new(alloc);
    for i in 0..WRITES {
        let seq = objects.saturating_add(i);
        let object = if objects == 0 {
            0
        } else {
            i.wrapping_mul(40_503) % objects
        };
        steps.push(write(alloc, seq, object, 0)?)?;
    }
    Ok(steps)
}

fn apply_all(state: &mut ShardState, steps: &[Step]) -> Result<()> {
    for i in 0..steps.len() {
        state.apply(&steps[i])?;
    }
    Ok(())
}

fn go_back(state: &mut ShardState, seq: u64) -> Result<()> {
    if state.partial() {
        bail!("the shard is being filled");
    }
    state.undo_to(version(seq))?;
    Ok(())
}

fn measure<R: Print + Clock>(rt: &R, alloc: Global, objects: u64) -> Result<()> {
    let mut state = filled(alloc, objects)?;
    let steps = writes(alloc, objects)?;
    let (mut apply, mut back) = (u128::MAX, u128::MAX);
    for _ in 0..TURNS {
        let start = Instant::now(rt)?;
        apply_all(&mut state, &steps)?;
        apply = apply.min(start.elapsed(rt)?.as_micros());
        let start = Instant::now(rt)?;
        go_back(&mut state, objects)?;
        back = back.min(start.elapsed(rt)?.as_micros());
    }
    println!(rt; "apply.{objects} {apply} us for {WRITES}")?;
    println!(rt; "back.{objects} {back} us for {WRITES}")?;
    Ok(())
}

fn main(rt: HostRuntime) -> Result<()> {
    for word in env::args(&rt)?.skip(1) {
        if word.as_str() == "measure" {
            measure(&rt, rt.alloc(), 1_000)?;
            measure(&rt, rt.alloc(), 65_536)?;
        }
    }
    Ok(())
}
