//! The commands of the tool, after the words were read.
ghost use Rattle.std.specs.Prelude.{◌≡◌, ◌<◌, ◌≤◌, ◌↔◌, ◌⊎◌, ℕ, IfOk, IfErr, IsTrue, length, slice_index_or};
ghost use Rattle.ec_code.specs.Bounds.{IsUnit};
ghost use Rattle.ec_code.specs.Refusals.{IsCodeOf};
ghost use Rattle.plugin_reg.specs.Boxes.{HaveEachPlugin, KeepNames};
ghost use Rattle.rig_disk.specs.Faults.{Rose};
ghost use Rattle.ec_tool.specs.Jobs.{GivesJob};
ghost use Rattle.ec_tool.specs.Outcomes.{Shows, Codes};
ghost use Rattle.ec_files.specs.Outcomes.{EncodeEnds, DecodeEnds};
ghost use Rattle.ec_files.specs.Jobs.{job_of};
ghost use Rattle.ec_tool.specs.Stops.{StopsByJob, shown_after};
ghost use Rattle.ec_files.specs.Stops.{status_after, line_after};
ghost use Rattle.ec_tool.specs.Parameters.{parameters_text, size_text};
ghost use Rattle.ec_tool.specs.Words.{texts_of, max_size};

use crate::parameters::{parameters_text, size_text};
use ec_code::{Code, ProfileFault};
use ec_files::{Coding, Files, Stop, decode_file, encode_file};
use ec_words::Bytes;
use plugin_reg::{Opened, open_profile};
use std::alloc::Global;

/// Numbers of a profile's code, each on a line.
pub fn validate(
    alloc: Global,
    profile: &str,
    parameters: &[String],
    codes: &mut [Box<dyn Code>],
) -> Result<Bytes, Stop>
    requires { HaveEachPlugin (λ box. plugin_name box) codes.old }
    ensures value { Shows profile.now (λ code. parameters_text code (texts_of parameters.now)) (status_after result) (shown_after result) }
    ensures boxes { KeepNames (λ box. plugin_name box) codes.old codes.new }
{
    let opened = open_profile(alloc, profile.as_bytes(), codes)?;
    let text = parameters_text(alloc, codes[opened.index].as_ref(), parameters)?;
    Ok(text)
}

/// The size of the chunks of an object, on a line.
pub fn size(
    alloc: Global,
    profile: &str,
    size: u64,
    codes: &mut [Box<dyn Code>],
) -> Result<Bytes, Stop>
    requires boxes { HaveEachPlugin (λ box. plugin_name box) codes.old }
    requires within { size ≤ max_size }
    ensures value { Shows profile.now (λ code. size_text code size) (status_after result) (shown_after result) }
    ensures boxes { KeepNames (λ box. plugin_name box) codes.old codes.new }
{
    let opened = open_profile(alloc, profile.as_bytes(), codes)?;
    let text = size_text(alloc, codes[opened.index].as_ref(), size)?;
    Ok(text)
}

// Opens the profile of a job, and looks at its unit.
fn open_job(alloc: Global, job: &Coding, codes: &mut [Box<dyn Code>]) -> Result<Opened, Stop>
    requires { HaveEachPlugin (λ box. plugin_name box) codes.old }
    ensures gives { IfOk result (λ opened. GivesJob (job_of job.now) opened.profile) }
    ensures below { IfOk result (λ opened. opened.index < length codes.new) }
    ensures made { IfOk result (λ opened. (d : _) → IsCodeOf opened.profile (meaning (slice_index_or codes.new opened.index d))) }
    ensures stopped { IfErr result (StopsByJob (job_of job.now)) }
    ensures boxes { KeepNames (λ box. plugin_name box) codes.old codes.new }
{
    let opened = open_profile(alloc, job.profile.as_bytes(), codes)?;
    if !is_unit(job.unit) {
        return Err(Stop::Profile(ProfileFault::Unit));
    }
    Ok(opened)
}

// Whether a unit is a multiple of 32 from 32 to 65,536.
fn is_unit(unit: u64) -> bool
    ensures { IsTrue result ↔ IsUnit unit }
{
    unit % 32 == 0 && 32 <= unit && unit <= 65536
}

/// Writes the chunks of each wanted position of a file.
pub fn encode<F: Files>(
    alloc: Global,
    job: &Coding,
    codes: &mut [Box<dyn Code>],
    files: &mut F,
) -> Result<(), Stop>
    requires { HaveEachPlugin (λ box. plugin_name box) codes.old }
    ensures value { Codes EncodeEnds (job_of job.now) (status_after result) (line_after result) (F.files files.old) (F.files files.new) (F.faults files.old) (F.faults files.new) }
    ensures failed { status_after result ≡ 5 → Rose (F.faults files.old) (F.faults files.new) }
    ensures boxes { KeepNames (λ box. plugin_name box) codes.old codes.new }
{
    let opened = open_job(alloc, job, codes)?;
    encode_file(alloc, job, codes[opened.index].as_ref(), files)
}

/// Writes the file to which the chunks of the listed positions belong.
pub fn decode<F: Files>(
    alloc: Global,
    job: &Coding,
    codes: &mut [Box<dyn Code>],
    files: &mut F,
) -> Result<(), Stop>
    requires boxes { HaveEachPlugin (λ box. plugin_name box) codes.old }
    requires some { 1 ≤ length job.now.wanted.items }
    ensures value { Codes DecodeEnds (job_of job.now) (status_after result) (line_after result) (F.files files.old) (F.files files.new) (F.faults files.old) (F.faults files.new) }
    ensures failed { status_after result ≡ 5 → Rose (F.faults files.old) (F.faults files.new) }
    ensures boxes { KeepNames (λ box. plugin_name box) codes.old codes.new }
{
    let opened = open_job(alloc, job, codes)?;
    decode_file(alloc, job, codes[opened.index].as_ref(), files)
}
