//! The program `store_bench load DIR`, over real files: how long the store of slot 0 takes to load, a shard of one data position
//! and a unit of 4 KiB. The gate runs it without words, so that it prints nothing that differs from run to run.
#![tactic(auto)]

use anyhow::{Result, bail};
use ec_words::Geometry;
use rig_disk::{FileRig, Rig};
use shard_store::Store;
use std::env;
use std::rt::{Clock, Env};
use std::time::Instant;

/// One data position, whose chunks are of 4 KiB.
const GEOMETRY: Geometry = Geometry { k: 1, unit: 4096 };

/// The positions of the code.
const POSITIONS: u8 = 2;

fn measure_load(rt: HostRuntime, dir: &str) -> Result<()> {
    let mut rig = FileRig::open(rt, rt.alloc(), dir)?;
    rig.place(0)?;
    let start = Instant::now(&rt)?;
    let store = Store::load(rt.alloc(), &mut rig, 0, GEOMETRY, POSITIONS)?;
    let micros = start.elapsed(&rt)?.as_micros();
    println!(rt; "load {micros} us of {} objects", store.state().count())?;
    Ok(())
}

fn main(rt: HostRuntime) -> Result<()> {
    let mut words = env::args(&rt)?.skip(1);
    let (Some(what), Some(dir)) = (words.next(), words.next()) else {
        return Ok(());
    };
    match what.as_str() {
        "load" => measure_load(rt, dir.as_str()),
        _ => bail!("not load"),
    }
}
