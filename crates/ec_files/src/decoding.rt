//! The command `decode`: a file from the chunks of the least listed positions that decide it.
ghost use Rattle.std.specs.Prelude.{◌≡◌, ◌≢◌, ◌≤◌, ◌↔◌, ℕ, List, Some, IfOk, IfErr, IfSome, IsNone, IsSome, length, slice_index};
ghost use Rattle.ec_code.specs.Bounds.{IsUnit};
ghost use Rattle.rig_disk.specs.Faults.{Rose};
ghost use Rattle.ec_model.specs.Codes.{IsCode, HasPosition, LiesBelow};
ghost use Rattle.stripe_map.specs.Chunks.{chunk_of_position};
ghost use Rattle.stripe_map.specs.Decoding.{DecidesData};
ghost use Rattle.ec_files.specs.Chunks.{AreBelow, DecideTheData, IsReadPlan, chunk_name};
ghost use Rattle.ec_files.specs.Accesses.{ReadsOrStops};
ghost use Rattle.ec_files.specs.Decoding.{AreShort, IsAmong, HaveChunks, Fetches, StopsReading};
ghost use Rattle.ec_files.specs.Files.{max_file};
ghost use Rattle.ec_files.specs.Joining.{ChecksLengths};
ghost use Rattle.ec_files.specs.Jobs.{job_of};
ghost use Rattle.ec_files.specs.Outcomes.{DecodeEnds};
ghost use Rattle.ec_files.specs.Stops.{status_after, line_after};

use crate::access::read;
use crate::geometry::geometry;
use crate::job::Coding;
use crate::joining::write_object;
use crate::naming::chunk_name;
use crate::positions::{positions, set_of};
use crate::stop::Stop;
use crate::{Files, MAX_FILE};
use ec_code::Code;
use ec_words::{Bytes, Geometry, Mask};
use read_plan::plan;
use std::alloc::Global;
use stripe_map::{Chunks, data_rows, data_set};

/// Writes the file to which the chunks of the listed positions belong.
pub fn decode_file<F: Files>(
    alloc: Global,
    job: &Coding,
    code: &dyn Code,
    files: &mut F,
) -> Result<(), Stop>
    requires unit { IsUnit job.now.unit }
    requires some { 1 ≤ length job.now.wanted.items }
    ensures value { DecodeEnds (meaning code.now) (job_of job.now) (status_after result) (line_after result)
        (F.files files.old) (F.files files.new) (F.faults files.old) (F.faults files.new) }
    ensures is_code { IsCode (meaning code.now) }
    ensures failed { status_after result ≡ 5 → Rose (F.faults files.old) (F.faults files.new) }
{
    let shape = code.shape();
    let listed = positions(alloc, &job.wanted, shape.n)?;
    decode_listed(
        alloc,
        job,
        code,
        geometry(shape.k, job.unit),
        &listed,
        files,
    )
}

// Writes the file to which the chunks of the listed positions belong. All listed positions are the code's.
fn decode_listed<F: Files>(
    alloc: Global,
    job: &Coding,
    code: &dyn Code,
    g: Geometry,
    listed: &[u8],
    files: &mut F,
) -> Result<(), Stop>
    requires same { listed.now ≡ job.now.wanted.items }
    requires some { 1 ≤ length listed.now }
    requires below { AreBelow (meaning code.now).n listed.now }
    requires few { (meaning code.now).n ≤ 16 }
    requires same_k { g.k ≡ (meaning code.now).k }
    requires unit { g.unit ≡ job.now.unit }
    ensures value { DecodeEnds (meaning code.now) (job_of job.now) (status_after result) (line_after result)
        (F.files files.old) (F.files files.new) (F.faults files.old) (F.faults files.new) }
    ensures failed { status_after result ≡ 5 → Rose (F.faults files.old) (F.faults files.new) }
{
    let Some(plan) = read_set(code, listed) else {
        return Err(Stop::NotDecided);
    };
    let chunks = read_chunks(alloc, job.name, listed, files)?;
    let long = first_length(listed, &chunks);
    check_lengths(alloc, job.name, g, long, &chunks)?;
    let rows = data_rows(code, plan);
    let count = long / g.unit as usize;
    write_object(
        alloc,
        job.name,
        &rows,
        g,
        code.shape().n,
        &chunks,
        count,
        files,
    )
}

// The set of the listed positions that is read; none if they do not decide the data.
fn read_set(code: &dyn Code, listed: &[u8]) -> Option<Mask>
    requires { AreBelow (meaning code.now).n listed.now }
    ensures some { IfSome result (λ set. IsReadPlan (meaning code.now) listed.now set.0) }
    ensures decides { IfSome result (λ set. DecidesData (meaning code.now) set.0) }
    ensures listed { IfSome result (λ set. (p : ℕ) → HasPosition set.0 p → IsAmong listed.now p) }
    ensures below { IfSome result (λ set. LiesBelow (meaning code.now).n set.0) }
    ensures none { IsNone result ↔ (DecideTheData (meaning code.now) listed.now → ⊥) }
    ensures is_code { IsCode (meaning code.now) }
{
    let data = data_set(code);
    let given = set_of(listed);
    plan(code, given, data)
}

// The chunks of each listed position, each position's from a file of its own.
fn read_chunks<F: Files>(
    alloc: Global,
    name: &str,
    listed: &[u8],
    files: &mut F,
) -> Result<Chunks, Stop>
    requires { AreBelow 16 listed.now }
    ensures value { IfOk result (Fetches (F.files files.old) name.now listed.now) }
    ensures there { IfOk result (HaveChunks listed.now) }
    ensures short { IfOk result AreShort }
    ensures stopped { IfErr result (StopsReading (F.files files.old) name.now listed.now) }
    ensures kept { F.files files.new ≡ F.files files.old }
    ensures failed { status_after result ≡ 5 → Rose (F.faults files.old) (F.faults files.new) }
    ensures quiet { status_after result ≢ 5 → F.faults files.new ≡ F.faults files.old }
{
    let mut chunks = Chunks::new();
    for i in 0..listed.len() {
        let bytes = read_chunk(alloc, name, listed[i], files)?;
        chunks.set(listed[i], bytes);
    }
    Ok(chunks)
}

// The chunks of one position.
fn read_chunk<F: Files>(alloc: Global, name: &str, p: u8, files: &mut F) -> Result<Bytes, Stop>
    ensures value { ReadsOrStops (F.files files.old) (chunk_name name.now p) result }
    ensures bound { IfOk result (λ bytes. length bytes ≤ max_file) }
    ensures kept { F.files files.new ≡ F.files files.old }
    ensures failed { status_after result ≡ 5 → Rose (F.faults files.old) (F.faults files.new) }
    ensures quiet { status_after result ≢ 5 → F.faults files.new ≡ F.faults files.old }
{
    let file = chunk_name(alloc, name, p)?;
    read(alloc, file, 0, files)
}

// The length of the first listed position's chunks.
fn first_length(listed: &[u8], chunks: &Chunks) -> usize
    requires { AreBelow 16 listed.now }
    ensures short { AreShort chunks.now → result ≤ max_file }
    ensures value { (bytes : List ℕ) → 1 ≤ length listed.now
        → chunk_of_position chunks.now (slice_index listed.now 0) ≡ Some bytes → result ≡ length bytes }
{
    match listed.first() {
        Some(p) => match chunks.get(*p) {
            Some(bytes) => bytes.len(),
            None => 0,
        },
        None => 0,
    }
}

// Whether the chunks make a file: all have one length, it is that of whole units, and the file is not too long.
fn check_lengths(
    alloc: Global,
    name: &str,
    g: Geometry,
    long: usize,
    chunks: &Chunks,
) -> Result<(), Stop>
    requires { long ≤ max_file }
    ensures { ChecksLengths g.k g.unit name.now long chunks.now result }
{
    if long % g.unit as usize != 0 || !chunks.have_length(long) {
        return Err(Stop::Lengths);
    }
    if long * g.k as usize > MAX_FILE {
        return Err(Stop::TooLong(String::from_str(alloc, name)?));
    }
    Ok(())
}
