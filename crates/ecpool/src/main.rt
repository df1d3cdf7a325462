//! The program `ecpool`: hands the words, the real input and the real output to [`pool_run::ecpool`], and ends with its status.
//! That call decides everything.
#![tactic(auto)]

use ec_code::Code;
use ec_words::NoMemory;
use lrc_layers::Lrc;
use plugin_reg::has_each_plugin;
use pool_run::{Status, ecpool};
use program_edge::words;
use rig_disk::{FileRig, StdSource};
use rs_van::RsVan;
use shec_matrix::Shec;
use std::process::ExitCode;

/// The status if memory ran out.
const NO_MEMORY: u8 = 13;

/// The status if a plugin has no box. No run ends with it: the test for it is there because the proof needs what `ecpool` requires.
const NO_PLUGIN: u8 = 70;

/// The folder of the slots if the words name none.
const HERE: &str = ".";

// Makes a box of each plugin, the real rig and the real input, and does what the words ask for.
fn run(rt: HostRuntime, words: &[String]) -> Result<Status, NoMemory> {
    let alloc = rt.alloc();
    let mut boxes: Vec<Box<dyn Code>> = Vec::new(alloc);
    boxes.push(Box::new(alloc, RsVan::new())?)?;
    boxes.push(Box::new(alloc, Lrc::new())?)?;
    boxes.push(Box::new(alloc, Shec::new())?)?;
    if !has_each_plugin(&boxes) {
        return Ok(Status(NO_PLUGIN));
    }
    let dir = match words.get(1) {
        Some(dir) => dir.as_str(),
        None => HERE,
    };
    let mut rig = FileRig::open(rt, alloc, dir)?;
    let mut source = StdSource::new(rt);
    Ok(ecpool(alloc, words, &mut boxes, &mut rig, &mut source))
}

fn main(rt: HostRuntime) -> ExitCode {
    let Ok(words) = words(&rt) else {
        return ExitCode::from(NO_MEMORY);
    };
    match run(rt, &words) {
        Ok(status) => ExitCode::from(status.0),
        Err(NoMemory) => ExitCode::from(NO_MEMORY),
    }
}
