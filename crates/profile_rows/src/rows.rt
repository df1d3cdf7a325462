//! The answer to a line: `settings TEXT`, `json TEXT` and `any TEXT` say how a text is read, with `%XX` for a byte that a line
//! can't have; `boxes` asks for the shapes of the boxes, and a heading, which begins with `#`, is said as it is.
ghost use Rattle.std.specs.Prelude.{◌<◌, length, slice_index_or};
ghost use Rattle.ec_code.specs.Refusals.{IsAccepted, IsCodeOf};

use ec_code::{Code, Profile, ProfileFault};
use ec_words::{Bytes, NoMemory};
use lrc_layers::Lrc;
use percent_encoding::percent_decode;
use plugin_reg::{
    RegFault, pick, print_fault, print_profile, read_any, read_profile, read_profile_json,
};
use rs_van::RsVan;
use shec_matrix::Shec;
use std::alloc::Global;

/// What a line asks for.
#[derive(Drop)]
pub enum Row {
    /// To be said as it is.
    Heading,
    /// The shapes of the boxes.
    Shapes,
    /// The canonical lines of a profile.
    Read(Profile),
    /// The line of a text's fault.
    Refused(ProfileFault),
}

/// Reads a line.
pub fn asked(alloc: Global, line: &str) -> Result<Row, NoMemory> {
    if line.starts_with('#') {
        return Ok(Row::Heading);
    }
    if line == "boxes" {
        return Ok(Row::Shapes);
    }
    match read(alloc, line) {
        Ok(profile) => Ok(Row::Read(profile)),
        Err(RegFault::Profile(fault)) => Ok(Row::Refused(fault)),
        Err(RegFault::NoMemory) => Err(NoMemory),
    }
}

/// The line of a fault.
pub fn refusal(alloc: Global, fault: &ProfileFault) -> Result<String, NoMemory> {
    let text = print_fault(alloc, fault)?;
    joined(alloc, text.as_slice())
}

/// The canonical lines of a profile, or the line of its fault, by boxes of its own.
pub fn lines_of(alloc: Global, profile: &Profile) -> Result<Bytes, NoMemory> {
    let mut boxes: Vec<Box<dyn Code>> = Vec::new(alloc);
    boxes.push(Box::new(alloc, RsVan::new())?)?;
    boxes.push(Box::new(alloc, Shec::new())?)?;
    boxes.push(Box::new(alloc, Lrc::new())?)?;
    match pick(&mut boxes, profile) {
        Ok(i) => lines_in(alloc, profile, &boxes, i),
        Err(fault) => print_fault(alloc, &fault),
    }
}

/// The canonical lines of a profile whose code is a box of these.
fn lines_in(
    alloc: Global,
    profile: &Profile,
    boxes: &[Box<dyn Code>],
    i: usize,
) -> Result<Bytes, NoMemory>
    requires accepted { IsAccepted profile.now }
    requires below { i < length boxes.now }
    requires made { (d : _) → IsCodeOf profile.now (meaning (slice_index_or boxes.now i d)) }
{
    lines_by(alloc, profile, boxes[i].as_ref())
}

/// The canonical lines of a profile, whose code this is.
fn lines_by(alloc: Global, profile: &Profile, code: &dyn Code) -> Result<Bytes, NoMemory>
    requires accepted { IsAccepted profile.now }
    requires made { IsCodeOf profile.now (meaning code.now) }
{
    print_profile(alloc, profile, code.shape())
}

fn read(alloc: Global, line: &str) -> Result<Profile, RegFault> {
    let (form, text) = line.split_once(' ').unwrap_or(("any", line));
    let mut bytes = Vec::new(alloc);
    match percent_decode(text.as_bytes()).append_to(&mut bytes) {
        Ok(()) => read_as(alloc, form, &bytes),
        Err(_) => Err(RegFault::NoMemory),
    }
}

fn read_as(alloc: Global, form: &str, bytes: &[u8]) -> Result<Profile, RegFault> {
    if form == "json" {
        read_profile_json(alloc, bytes)
    } else if form == "settings" {
        match str::from_utf8(bytes) {
            Ok(text) => read_profile(alloc, text),
            Err(_) => Err(RegFault::Profile(ProfileFault::Setting)),
        }
    } else {
        read_any(alloc, bytes)
    }
}

/// The lines of a text as one.
pub fn joined(alloc: Global, text: &[u8]) -> Result<String, NoMemory> {
    let mut all = String::new(alloc);
    match str::from_utf8(text) {
        Ok(text) => {
            for line in text.lines() {
                if !all.is_empty() {
                    all.push_str(" / ")?;
                }
                all.push_str(line)?;
            }
        }
        Err(_) => {}
    }
    Ok(all)
}

/// `K N LEAD` of each box.
pub fn shapes(alloc: Global, boxes: &[Box<dyn Code>]) -> Result<String, NoMemory> {
    let mut all = String::new(alloc);
    for code in boxes {
        let shape = code.shape();
        if !all.is_empty() {
            all.push_str(" / ")?;
        }
        write!(all, "{} {} {}", shape.k, shape.n, shape.lead)?;
    }
    Ok(all)
}
