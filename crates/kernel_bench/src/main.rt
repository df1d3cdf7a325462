//! The program `kernel_bench measure`: how fast the kernels of `gf256` go over slices of 1 MiB, and how fast both coding
//! positions of 4+2 are encoded at a unit of 4,096 bytes. `scripts/bench` runs it, and the gate runs it without the word, so
//! that it prints nothing that differs from run to run.
#![tactic(auto)]

use ec_code::{Code, Shape};
use ec_words::Geometry;
use gf256::{add_into, mul_add_into};
use std::alloc::Global;
use std::rt::{Clock, Env};
use std::time::Instant;
use std::{env, io};
use stripe_map::encode_object;
use table_code::TableCode;

/// The bytes of a slice, and of an object.
const BYTES: usize = 1 << 20;

/// The bytes of a chunk in one stripe.
const UNIT: u32 = 4096;

/// The calls that are timed together.
const ROUNDS: u16 = 2000;

fn add(to: &mut [u8], from: &[u8]) {
    if to.len() == from.len() {
        add_into(to, from);
    }
}

fn add_multiple(coef: u8, to: &mut [u8], from: &[u8]) {
    if to.len() == from.len() {
        mul_add_into(coef, to, from);
    }
}

fn time_sums(to: &mut [u8], from: &[u8]) {
    for _ in 0..ROUNDS {
        add(to, from);
    }
}

fn time_multiples(to: &mut [u8], from: &[u8]) {
    for round in 0..ROUNDS {
        add_multiple((round % 254 + 2) as u8, to, from);
    }
}

/// The code reed_sol_van with k = 4 and m = 2.
fn four_and_two() -> Option<TableCode> {
    let mut rows = [[0u8; 16]; 16];
    let mut places = [0u8; 16];
    for j in 0..4u8 {
        rows[j as usize][j as usize] = 1;
        places[j as usize] = j;
    }
    rows[4] = [1, 1, 1, 1, 0, 0, 0, 0, 0, 0, 0, 0, 0, 0, 0, 0];
    rows[5] = [1, 70, 143, 200, 0, 0, 0, 0, 0, 0, 0, 0, 0, 0, 0, 0];
    let shape = Shape {
        k: 4,
        n: 6,
        lead: 4,
    };
    TableCode::of(shape, rows, places)
}

// Encodes an object at a position, and answers the last byte.
fn encode(alloc: Global, code: &dyn Code, bytes: &[u8], p: u8) -> u8 {
    let shape = code.shape();
    let g = Geometry {
        k: shape.k,
        unit: UNIT,
    };
    if p >= shape.n || bytes.len() > BYTES {
        return 0;
    }
    match encode_object(alloc, code, g, bytes, p) {
        Ok(list) => last_of(list.as_slice()),
        Err(_) => 0,
    }
}

fn last_of(bytes: &[u8]) -> u8 {
    match bytes {
        [.., last] => *last,
        [] => 0,
    }
}

fn time_encoding(alloc: Global, code: &dyn Code, bytes: &[u8]) -> u8 {
    let mut sum = 0u8;
    for _ in 0..ROUNDS {
        sum ^= encode(alloc, code, bytes, 4) ^ encode(alloc, code, bytes, 5);
    }
    sum
}

// Prints how many megabytes a second went through since then. The last byte keeps the work from being left out.
fn tell(rt: &(impl Print + Clock), name: &str, start: &Instant, last: u8) -> io::Result<()> {
    let micros = start.elapsed(rt)?.as_micros();
    if 0 < micros && micros < 1_000_000_000 {
        let rate = u128::from(ROUNDS) * 1_048_576 / micros;
        println!(rt; "{name} {rate} MB/s ({last})")?;
    }
    Ok(())
}

fn filled(alloc: std::alloc::Global) -> Result<Vec<u8>, std::alloc::AllocError> {
    let mut bytes: Vec<u8> = vec![in alloc; 0; BYTES]?;
    let mut next: u8 = 7;
    for byte in bytes.iter_mut() {
        next = next.wrapping_mul(5).wrapping_add(3);
        *byte = next;
    }
    Ok(bytes)
}

fn measure_kernels<R: Print + Clock>(rt: &R, to: &mut [u8], from: &[u8]) -> io::Result<()> {
    let start = Instant::now(rt)?;
    time_sums(to, from);
    tell(rt, "add_into", &start, last_of(to))?;
    let start = Instant::now(rt)?;
    time_multiples(to, from);
    tell(rt, "mul_add_into", &start, last_of(to))
}

fn measure_encoding<R: Print + Clock>(rt: &R, alloc: Global, bytes: &[u8]) -> io::Result<()> {
    match four_and_two() {
        Some(code) => {
            let start = Instant::now(rt)?;
            let last = time_encoding(alloc, &code, bytes);
            tell(rt, "encode_object", &start, last)
        }
        None => Ok(()),
    }
}

fn measure<R: Print + Clock + AllocGlobal>(rt: &R) -> io::Result<()> {
    let from = filled(rt.alloc())?;
    let mut to = filled(rt.alloc())?;
    measure_kernels(rt, to.as_mut_slice(), from.as_slice())?;
    measure_encoding(rt, rt.alloc(), from.as_slice())
}

fn main(rt: HostRuntime) -> io::Result<()> {
    if env::args(&rt)?
        .skip(1)
        .any(|word| word.as_str() == "measure")
    {
        measure(&rt)?;
    }
    Ok(())
}
