//! The files as text: up to eight runs of bytes, else the number of bytes and the sum Adler-32 of zlib.
ghost use Rattle.std.specs.Prelude.{◌≤◌, length};

use anyhow::Result;
use ec_files::MemFiles;
use std::alloc::Global;

/// The names of the files that are looked at.
const NAMES: [&str; 17] = [
    "f", "f.0", "f.1", "f.2", "f.3", "f.4", "f.5", "f.6", "f.7", "f.8", "f.9", "f.10", "f.11",
    "f.12", "f.13", "f.14", "f.15",
];

/// How many runs are shown.
const MOST_RUNS: usize = 8;

/// Prints a line for each file that is there.
pub fn show_files(rt: &impl Print, alloc: Global, files: &MemFiles) -> Result<()> {
    for name in NAMES {
        match files.bytes(name) {
            Some(bytes) => show_file(rt, alloc, name, bytes)?,
            None => {}
        }
    }
    Ok(())
}

// Prints the line of one file.
fn show_file(rt: &impl Print, alloc: Global, name: &str, bytes: &[u8]) -> Result<()> {
    match runs_of(alloc, bytes)? {
        Some(runs) => println!(rt; "{name}{runs}")?,
        None => println!(rt; "{name} {} bytes, sum {:08x}", bytes.len(), sum_of(bytes))?,
    }
    Ok(())
}

// The runs of equal bytes, a blank before each; none if there are too many.
fn runs_of(alloc: Global, bytes: &[u8]) -> Result<Option<String>> {
    let mut text = String::new(alloc);
    let mut rest = bytes;
    for _ in 0..MOST_RUNS {
        if rest.is_empty() {
            break;
        }
        let count = run_length(rest);
        let run = format!(in alloc; " {}*{count}", rest[0])?;
        text.push_str(&run)?;
        rest = &rest[count..];
    }
    Ok(if rest.is_empty() { Some(text) } else { None })
}

// How many bytes at the front are equal.
fn run_length(bytes: &[u8]) -> usize
    ensures { result ≤ length bytes.now }
{
    for i in 0..bytes.len() {
        if bytes[i] != bytes[0] {
            return i;
        }
    }
    bytes.len()
}

// The sum Adler-32: of the bytes, and of these sums, both modulo 65,521.
fn sum_of(bytes: &[u8]) -> u32 {
    let mut low = 1u32;
    let mut high = 0u32;
    for byte in bytes {
        low = low.wrapping_add(u32::from(*byte)) % 65521;
        high = high.wrapping_add(low) % 65521;
    }
    high.wrapping_mul(65536) | low
}
