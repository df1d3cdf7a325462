//! The command `encode`: the chunks of a file; each position has a file of its own.
ghost use Rattle.std.specs.Prelude.{◌≡◌, ◌≢◌, ◌≤◌, ◌<◌, ◌*◌, ◌/◌, length, take, drop, IfOk};
ghost use Rattle.ec_code.specs.Bounds.{IsUnit};
ghost use Rattle.ec_model.specs.Codes.{IsCode};
ghost use Rattle.ec_model.specs.Stripes.{padded};
ghost use Rattle.rig_disk.specs.Faults.{HasCause, Rose};
ghost use Rattle.ec_files.specs.Accesses.{Puts};
ghost use Rattle.ec_files.specs.Chunks.{AreBelow};
ghost use Rattle.ec_files.specs.Encoding.{WritesOne, WritesChunks};
ghost use Rattle.ec_files.specs.Files.{max_file};
ghost use Rattle.ec_files.specs.Jobs.{job_of};
ghost use Rattle.ec_files.specs.Outcomes.{EncodeEnds};
ghost use Rattle.ec_files.specs.Pieces.{AreRowChunks, AreWholeStripes, WritesPieces};
ghost use Rattle.ec_files.specs.Stops.{status_after, line_after};
ghost use Rattle.ec_files.specs.declared.limits.TheConstants.{PIECE};

use crate::Files;
use crate::access::{put, read};
use crate::geometry::geometry;
use crate::job::Coding;
use crate::limits::PIECE;
use crate::naming::chunk_name;
use crate::positions::positions;
use crate::stop::Stop;
use ec_code::{Code, encode_chunk, row_of};
use ec_words::{Bytes, Geometry, NoMemory};
use rig_disk::Failed;
use std::alloc::Global;

/// Writes the chunks of each wanted position of a file.
pub fn encode_file<F: Files>(
    alloc: Global,
    job: &Coding,
    code: &dyn Code,
    files: &mut F,
) -> Result<(), Stop>
    requires { IsUnit job.now.unit }
    ensures value { EncodeEnds (meaning code.now) (job_of job.now) (status_after result) (line_after result)
        (F.files files.old) (F.files files.new) (F.faults files.old) (F.faults files.new) }
    ensures is_code { IsCode (meaning code.now) }
    ensures failed { status_after result ≡ 5 → Rose (F.faults files.old) (F.faults files.new) }
{
    let shape = code.shape();
    let wanted = positions(alloc, &job.wanted, shape.n)?;
    let name = String::from_str(alloc, job.name)?;
    let g = geometry(shape.k, job.unit);
    let width = g.k as usize * g.unit as usize;
    let bytes = read(alloc, name, width, files)?;
    let whole = padded(g, bytes)?;
    let mut piece = vec![in alloc; 0u8; stripes_of_piece(g) * g.unit as usize]?;
    write_chunks(alloc, job.name, &wanted, code, g, &whole, &mut piece, files)
}

// The bytes of a file, and zeros behind them to the end of a stripe.
fn padded(g: Geometry, bytes: Bytes) -> Result<Vec<u8>, NoMemory>
    requires { length bytes ≤ max_file }
    ensures { IfOk result (λ whole. whole.items ≡ padded g.k g.unit bytes) }
{
    let width = g.k as usize * g.unit as usize;
    let mut whole = bytes.into_vec();
    let long = whole.len().div_ceil(width) * width;
    whole.resize(long, 0)?;
    Ok(whole)
}

// Writes the chunks of some positions of whole stripes, one file after another. They are made in the memory of a piece, so no
// memory is taken while a file is written.
fn write_chunks<F: Files>(
    alloc: Global,
    name: &str,
    wanted: &[u8],
    code: &dyn Code,
    g: Geometry,
    bytes: &[u8],
    piece: &mut [u8],
    files: &mut F,
) -> Result<(), Stop>
    requires same_k { g.k ≡ (meaning code.now).k }
    requires whole { AreWholeStripes g.k g.unit bytes.now }
    requires below { AreBelow (meaning code.now).n wanted.now }
    requires room { length piece.old ≡ PIECE / g.unit * g.unit }
    ensures value { WritesChunks (meaning code.now) g.unit name.now bytes.now wanted.now (F.files files.old) (F.files files.new) result }
    ensures failed { status_after result ≡ 5 → Rose (F.faults files.old) (F.faults files.new) }
    ensures quiet { status_after result ≢ 5 → F.faults files.new ≡ F.faults files.old }
{
    for i in 0..wanted.len() {
        write_chunk(alloc, name, wanted[i], code, g, bytes, piece, files)?;
    }
    Ok(())
}

// The number of stripes whose chunks at one position are a piece.
fn stripes_of_piece(g: Geometry) -> usize
    ensures value { result ≡ PIECE / g.unit }
    ensures some { 1 ≤ result }
{
    PIECE / g.unit as usize
}

// Writes the chunks of one position into the file of its name.
fn write_chunk<F: Files>(
    alloc: Global,
    name: &str,
    p: u8,
    code: &dyn Code,
    g: Geometry,
    bytes: &[u8],
    piece: &mut [u8],
    files: &mut F,
) -> Result<(), Stop>
    requires same_k { g.k ≡ (meaning code.now).k }
    requires whole { AreWholeStripes g.k g.unit bytes.now }
    requires below { p < (meaning code.now).n }
    requires room { length piece.old ≡ PIECE / g.unit * g.unit }
    ensures value { WritesOne (meaning code.now) g.unit name.now bytes.now p (F.files files.old) (F.files files.new) result }
    ensures failed { status_after result ≡ 5 → Rose (F.faults files.old) (F.faults files.new) }
    ensures quiet { status_after result ≢ 5 → F.faults files.new ≡ F.faults files.old }
    ensures room { length piece.new ≡ length piece.old }
{
    let file = chunk_name(alloc, name, p)?;
    match write_pieces(&file, p, code, g, bytes, piece, files) {
        Ok(()) => Ok(()),
        Err(_) => Err(Stop::Failed(file)),
    }
}

// Writes the chunks of one position into a file, piece after piece.
fn write_pieces<F: Files>(
    file: &str,
    position: u8,
    code: &dyn Code,
    g: Geometry,
    bytes: &[u8],
    piece: &mut [u8],
    files: &mut F,
) -> Result<(), Failed>
    requires same_k { g.k ≡ (meaning code.now).k }
    requires whole { AreWholeStripes g.k g.unit bytes.now }
    requires below { position < (meaning code.now).n }
    requires room { length piece.old ≡ PIECE / g.unit * g.unit }
    ensures value { WritesPieces (meaning code.now) g.unit file.now bytes.now position (F.files files.old) (F.files files.new) result }
    ensures cause { HasCause (F.faults files.old) (F.faults files.new) result }
    ensures room { length piece.new ≡ length piece.old }
{
    let row = row_of(code, position);
    let width = g.k as usize * g.unit as usize;
    let size = stripes_of_piece(g) * width;
    let count = bytes.len().div_ceil(size).max(1);
    for i in 0..count {
        let part = part(bytes, i * size, size);
        let stripes = part.len() / width;
        let made = &mut piece[..stripes * g.unit as usize];
        write_piece(file, i == 0, &row, g, stripes, part, made, files)?;
    }
    Ok(())
}

// At most `size` bytes of a file, from `at` on.
fn part(bytes: &[u8], at: usize, size: usize) -> &[u8]
    requires { at ≤ length bytes.now }
    ensures { result.now ≡ take size (drop at bytes.now) }
{
    let rest = &bytes[at..];
    &rest[..size.min(rest.len())]
}

// Makes a piece of `count` stripes, and writes it as the first piece of a file, or behind those before it.
fn write_piece<F: Files>(
    file: &str,
    first: bool,
    row: &[u8; 16],
    g: Geometry,
    count: usize,
    stripes: &[u8],
    piece: &mut [u8],
    files: &mut F,
) -> Result<(), Failed>
    requires k { g.k ≤ 16 }
    requires stripes { length stripes.now ≡ count * (g.k * g.unit) }
    requires room { length piece.old ≡ count * g.unit }
    ensures made { AreRowChunks g.k g.unit row.now stripes.now count piece.new }
    ensures room { length piece.new ≡ count * g.unit }
    ensures put { Puts (F.files files.old) (F.files files.new) file.now first piece.new result }
    ensures cause { HasCause (F.faults files.old) (F.faults files.new) result }
{
    make_piece(row, g, count, stripes, piece);
    put(file, first, piece, files)
}

// The chunks of some stripes by a row, one after another.
fn make_piece(row: &[u8; 16], g: Geometry, count: usize, stripes: &[u8], piece: &mut [u8])
    requires k { g.k ≤ 16 }
    requires stripes { length stripes.now ≡ count * (g.k * g.unit) }
    requires room { length piece.old ≡ count * g.unit }
    ensures made { AreRowChunks g.k g.unit row.now stripes.now count piece.new }
    ensures room { length piece.new ≡ count * g.unit }
{
    let unit = g.unit as usize;
    let width = g.k as usize * unit;
    for t in 0..count {
        let stripe = &stripes[t * width..t * width + width];
        encode_chunk(
            row,
            g.k,
            stripe,
            unit,
            &mut piece[t * unit..t * unit + unit],
        );
    }
}
