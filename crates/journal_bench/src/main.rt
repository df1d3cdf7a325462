//! The program `journal_bench`, over real files: `commit DIR` tells how long a commit of 4 KiB takes in a new folder, and
//! `load DIR` how long the journal of slot 0 takes to load. The gate runs it without words, so that it prints nothing that
//! differs from run to run.
#![tactic(auto)]

ghost use Rattle.std.specs.Prelude.{◌≡◌, ◌≤◌, ◌^◌, false, length};
ghost use Rattle.slot_journal.specs.Journal.{slot_of, is_spent, IsSettledWhereTold};

use anyhow::{Result, bail};
use rig_disk::{FileRig, Rig};
use slot_journal::{Header, Journal, JournalFault, Owner};
use std::env;
use std::rt::{Clock, Env};
use std::time::Instant;

/// How many commits are measured.
const COMMITS: u64 = 500;

/// The bytes of a body.
const BODY_LEN: usize = 4096;

fn head() -> [u8; 23] {
    let header = Header {
        owner: Owner::Shard,
        format: 1,
        slot: 0,
        k: 2,
        n: 3,
        unit: 32,
        serial: 0,
    };
    header.encode()
}

fn commit_all<R: Rig>(rig: &mut R, journal: &mut Journal, body: &[u8]) -> Result<(), JournalFault>
    requires here { R.is_here rig.old (slot_of journal.old) }
    requires some { 1 ≤ length body.now }
    requires fits { length body.now ≤ 2 ^ 26 }
    requires settled { is_spent journal.old ≡ false → IsSettledWhereTold (R.reads rig.old) (R.images rig.old (R.clock rig.old)) journal.old }
{
    for _ in 0..COMMITS {
        if journal.room() >= body.len() as u64 + 5 {
            journal.commit(rig, body)?;
        }
    }
    Ok(())
}

fn measure_commits(rt: HostRuntime, dir: &str) -> Result<()> {
    let mut rig = FileRig::open(rt, rt.alloc(), dir)?;
    rig.place(0)?;
    let body = [0x61; BODY_LEN];
    let mut journal = Journal::make(&mut rig, 0, &head(), &body)?;
    let start = Instant::now(&rt)?;
    commit_all(&mut rig, &mut journal, &body)?;
    let micros = start.elapsed(&rt)?.as_micros();
    println!(rt; "commit {micros} us for {COMMITS}")?;
    Ok(())
}

fn measure_load(rt: HostRuntime, dir: &str) -> Result<()> {
    let mut rig = FileRig::open(rt, rt.alloc(), dir)?;
    rig.place(0)?;
    let start = Instant::now(&rt)?;
    let (_, bodies) = Journal::load(rt.alloc(), &mut rig, 0, &head())?;
    let micros = start.elapsed(&rt)?.as_micros();
    println!(rt; "load {micros} us of {} bodies", bodies.as_slice().len())?;
    Ok(())
}

fn main(rt: HostRuntime) -> Result<()> {
    let mut words = env::args(&rt)?.skip(1);
    let (Some(what), Some(dir)) = (words.next(), words.next()) else {
        return Ok(());
    };
    match what.as_str() {
        "commit" => measure_commits(rt, dir.as_str()),
        "load" => measure_load(rt, dir.as_str()),
        _ => bail!("neither commit nor load"),
    }
}
