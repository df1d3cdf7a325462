//! The program `plan_bench measure`: how long the slowest plans take, for codes with 16 positions of which any k decide
//! all. The gate runs it without the word, so that it prints nothing that differs from run to run.
#![tactic(auto)]

use ec_code::{Code, Shape};
use ec_words::Mask;
use gf256::inv;
use read_plan::plan;
use std::rt::{Clock, Env};
use std::time::Instant;
use std::{env, io};
use table_code::TableCode;

/// The positions of a code.
const POSITIONS: u8 = 16;

/// The row of position `p`: a unit row below `k`, and then inverses of sums of two numbers.
fn row_of(k: u8, p: u8) -> [u8; 16] {
    let mut row = [0u8; 16];
    for j in 0..POSITIONS {
        let sum = (p | 16) ^ j;
        row[j as usize] = match (p < k, j < k && sum != 0) {
            (true, _) => u8::from(p == j),
            (false, true) => inv(sum),
            (false, false) => 0,
        };
    }
    row
}

fn code_of(k: u8) -> Option<TableCode> {
    let mut rows = [[0u8; 16]; 16];
    let mut places = [0u8; 16];
    for p in 0..POSITIONS {
        places[p as usize] = p;
        rows[p as usize] = row_of(k, p);
    }
    let shape = Shape {
        k,
        n: POSITIONS,
        lead: k,
    };
    TableCode::of(shape, rows, places)
}

fn planned(code: &dyn Code, avail: Mask, wanted: Mask) -> Option<Mask> {
    let n = code.shape().n;
    if avail.lies_below(n) && wanted.lies_below(n) {
        plan(code, avail, wanted)
    } else {
        None
    }
}

fn tell<R: Print + Clock>(rt: &R, code: &dyn Code, avail: u16, wanted: u16) -> io::Result<()> {
    let k = code.shape().k;
    let start = Instant::now(rt)?;
    let found = planned(code, Mask(avail), Mask(wanted));
    let micros = start.elapsed(rt)?.as_micros();
    let bits = match found {
        Some(Mask(bits)) => bits,
        None => 0,
    };
    println!(rt; "k {k}, {wanted:04x} from {avail:04x}: {bits:04x} in {micros} us")
}

fn measure<R: Print + Clock>(rt: &R) -> io::Result<()> {
    for k in [4u8, 8, 10, 12, 13, 14, 15] {
        if let Some(code) = code_of(k) {
            tell(rt, &code, 0x7fff, 0x8000)?;
            tell(rt, &code, 0xfffe, 0x0001)?;
            tell(rt, &code, 0x7fff, 0xffff)?;
            tell(rt, &code, 0xfffe, 0xffff)?;
        }
    }
    Ok(())
}

fn main(rt: HostRuntime) -> io::Result<()> {
    if env::args(&rt)?
        .skip(1)
        .any(|word| word.as_str() == "measure")
    {
        measure(&rt)?;
    }
    Ok(())
}
