//! The file that the chunks of some positions make. It is made and written piece after piece. A piece has as many whole stripes as
//! stay in the cache.
ghost use Rattle.std.specs.Prelude.{◌≡◌, ◌≢◌, ◌<◌, ◌≤◌, ◌+◌, ◌*◌, length};
ghost use Rattle.std.specs.Option.{option_copied};
ghost use Rattle.rig_disk.specs.Faults.{HasCause, Rose};
ghost use Rattle.stripe_map.specs.Decoding.{AllHaveLength, HasLength};
ghost use Rattle.ec_files.specs.Files.{max_file};
ghost use Rattle.ec_files.specs.Joining.{AddsStripes, AreMadeStripes, PutsStripes, WritesMade, WritesMadeOrStops};
ghost use Rattle.ec_files.specs.Stops.{status_after};

use crate::Files;
use crate::access::put;
use crate::limits::PIECE;
use crate::stop::Stop;
use ec_words::Geometry;
use rig_disk::Failed;
use std::alloc::Global;
use stripe_map::{Chunks, add_position};

/// Writes the file of `count` stripes that the first `n` positions' chunks make by some rows. All memory is taken before anything
/// is written.
pub fn write_object<F: Files>(
    alloc: Global,
    name: &str,
    rows: &[[u8; 16]; 16],
    g: Geometry,
    n: u8,
    chunks: &Chunks,
    count: usize,
    files: &mut F,
) -> Result<(), Stop>
    requires n { n ≤ 16 }
    requires k { g.k ≤ 16 }
    requires lengths { AllHaveLength chunks.now (count * g.unit) }
    requires short { count * g.unit ≤ max_file }
    ensures value { WritesMadeOrStops g.k g.unit n rows.now chunks.now count (F.files files.old) (F.files files.new) name.now result }
    ensures failed { status_after result ≡ 5 → Rose (F.faults files.old) (F.faults files.new) }
    ensures quiet { status_after result ≢ 5 → F.faults files.new ≡ F.faults files.old }
{
    let name = String::from_str(alloc, name)?;
    let per = stripes_of_piece(g);
    let mut piece = vec![in alloc; 0u8; per * g.k as usize * g.unit as usize]?;
    match write_pieces(&name, rows, g, n, chunks, count, per, &mut piece, files) {
        Ok(()) => Ok(()),
        Err(_) => Err(Stop::Failed(name)),
    }
}

// How many stripes a piece has: at least one.
fn stripes_of_piece(g: Geometry) -> usize
    requires { g.k ≤ 16 }
    ensures some { 1 ≤ result }
    ensures few { result * g.k * g.unit ≤ 1048576 }
{
    (PIECE / (g.k as usize * g.unit as usize)).max(1)
}

// Writes the file in pieces of `per` stripes. There is always a first piece, so that a file without stripes is written too.
fn write_pieces<F: Files>(
    name: &str,
    rows: &[[u8; 16]; 16],
    g: Geometry,
    n: u8,
    chunks: &Chunks,
    count: usize,
    per: usize,
    piece: &mut [u8],
    files: &mut F,
) -> Result<(), Failed>
    requires n { n ≤ 16 }
    requires k { g.k ≤ 16 }
    requires some { 1 ≤ per }
    requires room { length piece.old ≡ per * g.k * g.unit }
    requires lengths { AllHaveLength chunks.now (count * g.unit) }
    requires short { count * g.unit ≤ max_file }
    ensures value { WritesMade g.k g.unit n rows.now chunks.now count (F.files files.old) (F.files files.new) name.now result }
    ensures cause { HasCause (F.faults files.old) (F.faults files.new) result }
{
    let long = count * g.unit as usize;
    let pieces = count.div_ceil(per).max(1);
    let mut from = 0;
    for i in 0..pieces {
        let here = per.min(count - from);
        write_piece(
            name,
            rows,
            g,
            n,
            chunks,
            from,
            here,
            long,
            i == 0,
            piece,
            files,
        )?;
        from += here;
    }
    Ok(())
}

// Writes a piece, from one stripe on. The next piece is made in the same memory.
fn write_piece<F: Files>(
    name: &str,
    rows: &[[u8; 16]; 16],
    g: Geometry,
    n: u8,
    chunks: &Chunks,
    from: usize,
    here: usize,
    long: usize,
    first: bool,
    piece: &mut [u8],
    files: &mut F,
) -> Result<(), Failed>
    requires n { n ≤ 16 }
    requires k { g.k ≤ 16 }
    requires room { here * g.k * g.unit ≤ length piece.old }
    requires lengths { AllHaveLength chunks.now long }
    requires inside { from * g.unit + here * g.unit ≤ long }
    requires short { long ≤ max_file }
    ensures value { PutsStripes g.k g.unit n rows.now chunks.now from here (F.files files.old) (F.files files.new) name.now first result }
    ensures cause { HasCause (F.faults files.old) (F.faults files.new) result }
    ensures long { length piece.new ≡ length piece.old }
{
    let size = here * g.k as usize * g.unit as usize;
    make_stripes(rows, g, n, chunks, from, here, long, &mut piece[..size]);
    put(name, first, &piece[..size], files)
}

// Makes the stripes from one on: zeros, and then the part that each position's chunks add.
fn make_stripes(
    rows: &[[u8; 16]; 16],
    g: Geometry,
    n: u8,
    chunks: &Chunks,
    from: usize,
    here: usize,
    long: usize,
    piece: &mut [u8],
)
    requires n { n ≤ 16 }
    requires k { g.k ≤ 16 }
    requires size { length piece.old ≡ here * g.k * g.unit }
    requires lengths { AllHaveLength chunks.now long }
    requires inside { from * g.unit + here * g.unit ≤ long }
    requires short { long ≤ max_file }
    ensures value { AreMadeStripes g.k g.unit n rows.now chunks.now from here piece.new }
    ensures long { length piece.new ≡ length piece.old }
{
    piece.fill(0);
    for q in 0..n {
        add_stripes(rows, g, q, chunks.get(q), from, here, long, piece);
    }
}

// Adds the part of the stripes from one on that a position's chunks make, if they are there.
fn add_stripes(
    rows: &[[u8; 16]; 16],
    g: Geometry,
    q: u8,
    chunk: Option<&[u8]>,
    from: usize,
    here: usize,
    long: usize,
    piece: &mut [u8],
)
    requires q { q < 16 }
    requires k { g.k ≤ 16 }
    requires size { length piece.old ≡ here * g.k * g.unit }
    requires lengths { HasLength (option_copied chunk) long }
    requires inside { from * g.unit + here * g.unit ≤ long }
    requires short { long ≤ max_file }
    ensures value { AddsStripes g.k g.unit rows.now q (option_copied chunk.entry) from here piece.old piece.new }
    ensures long { length piece.new ≡ length piece.old }
{
    match chunk {
        Some(bytes) => {
            let at = from * g.unit as usize;
            let end = at + here * g.unit as usize;
            add_position(rows, g, q, here, &bytes[at..end], piece);
        }
        None => {}
    }
}
