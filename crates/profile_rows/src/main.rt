//! The program `profile_rows`: says of each line of its input, the text of a profile, its first fault or its canonical lines.
//! The gate runs it over the lines of `stdin`, whose answers in `stdout` were written by the rules and not by the program.
#![tactic(auto)]

mod rows;

use anyhow::Result;
use ec_code::{Code, Profile, ProfileFault};
use ec_words::Bytes;
use lrc_layers::Lrc;
use plugin_reg::pick;
use rows::{Row, asked, joined, lines_of, refusal, shapes};
use rs_van::RsVan;
use shec_matrix::Shec;

fn say(rt: &HostRuntime, text: &str) -> Result<()> {
    println!(rt; "{text}")?;
    Ok(())
}

fn say_lines(rt: &HostRuntime, lines: &Bytes) -> Result<()> {
    let text = joined(rt.alloc(), lines.as_slice())?;
    say(rt, text.as_str())
}

fn say_fault(rt: &HostRuntime, fault: &ProfileFault) -> Result<()> {
    let text = refusal(rt.alloc(), fault)?;
    say(rt, text.as_str())
}

fn say_shapes(rt: &HostRuntime, boxes: &[Box<dyn Code>]) -> Result<()> {
    let text = shapes(rt.alloc(), boxes)?;
    say(rt, text.as_str())
}

fn say_profile(rt: &HostRuntime, profile: &Profile) -> Result<()> {
    let lines = lines_of(rt.alloc(), profile)?;
    say_lines(rt, &lines)
}

// The boxes stay here: a function that gets them to be changed would be one that hands them out.
fn main(rt: HostRuntime) -> Result<()> {
    let alloc = rt.alloc();
    let mut boxes: Vec<Box<dyn Code>> = Vec::new(alloc);
    boxes.push(Box::new(alloc, RsVan::new())?)?;
    boxes.push(Box::new(alloc, RsVan::new())?)?;
    boxes.push(Box::new(alloc, Shec::new())?)?;
    boxes.push(Box::new(alloc, Lrc::new())?)?;
    for line in rt.lines(alloc) {
        let line = line?;
        match asked(alloc, line.as_str())? {
            Row::Heading => say(&rt, line.as_str())?,
            Row::Shapes => say_shapes(&rt, &boxes)?,
            Row::Refused(fault) => say_fault(&rt, &fault)?,
            Row::Read(profile) => {
                let _picked = pick(&mut boxes, &profile);
                say_profile(&rt, &profile)?
            }
        }
    }
    Ok(())
}
