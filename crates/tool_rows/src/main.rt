//! The program `tool_rows`: runs of `ceph_ec_tool` in memory, as its input lists them, and what each came to. The gate compares its
//! output with the file `stdout`. The lines of that file are from docs/TOOL.md and by hand.
//!
//! A line of the input is one of these; an empty line and a line that begins with `#` are passed over.
//! - `file NAME RUNS`: a file of runs of bytes as `7*32`, or of `COUNT` bytes that rise from 0 to 250 again and again as `up*COUNT`
//! - `fail N`: the Nth call on a file of the next run fails
//! - `mute N`: the Nth saying of the next run fails
//! - `run WORDS`: a run; after it there is no file
//! - `keep WORDS`: a run whose files the next one has too
//!
//! WORDS are separated by single blanks; `~` stands for a blank, and `""` for a word without letters. For a run the program prints
//! the words, the status, what was said, and each of the files `f`, `f.0` to `f.15` that is there.
#![tactic(auto)]

mod filling;
mod rows;
mod serving;
mod showing;

use anyhow::Result;
use rows::Rows;
use std::io::{BufRead, BufReader};

fn main(rt: HostRuntime) -> Result<()> {
    let alloc = rt.alloc();
    let mut rows = Rows::new(alloc)?;
    for line in BufReader::new(alloc, rt.reader())?.lines(alloc) {
        let line = line?;
        if line.is_empty() || line.starts_with('#') {
            continue;
        }
        rows.take(&rt, alloc, &line)?;
    }
    Ok(())
}
