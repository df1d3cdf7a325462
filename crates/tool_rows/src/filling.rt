//! The bytes of a file, from runs of bytes.

use anyhow::{Result, bail};
use ec_words::{Bytes, read_u64};
use std::alloc::Global;

/// The bytes of runs that are separated by blanks: `7*32` is 32 bytes 7, and `up*300` is 0 to 250 and 0 to 48.
pub fn filled(alloc: Global, runs: &str) -> Result<Bytes> {
    let mut list = Vec::new(alloc);
    for run in runs.split(' ') {
        if !run.is_empty() {
            push_run(&mut list, run)?;
        }
    }
    Ok(Bytes::of(list))
}

// Appends one run.
fn push_run(list: &mut Vec<u8>, run: &str) -> Result<()> {
    let Some((byte, count)) = run.split_once('*') else {
        bail!("no run");
    };
    let count = small(count)?;
    if byte == "up" {
        return push_rising(list, count);
    }
    let Ok(byte) = u8::try_from(small(byte)?) else {
        bail!("no byte");
    };
    let whole = list.len().saturating_add(count);
    list.resize(whole, byte)?;
    Ok(())
}

// Appends bytes that rise from 0 to 250 again and again.
fn push_rising(list: &mut Vec<u8>, count: usize) -> Result<()> {
    for i in 0..count {
        list.push((i % 251) as u8)?;
    }
    Ok(())
}

// A number in decimal digits, of at most 2^30.
fn small(text: &str) -> Result<usize> {
    match read_u64(text.as_bytes()) {
        Ok(number) if number <= 1 << 30 => Ok(number as usize),
        _ => bail!("no number"),
    }
}
