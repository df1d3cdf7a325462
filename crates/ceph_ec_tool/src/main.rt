//! The program `ceph_ec_tool`: hands the words, the real files and the real output to [`ec_tool::tool`], and ends with its status.
//! That call decides everything.
#![tactic(auto)]

use ec_code::Code;
use ec_files::DiskFiles;
use ec_tool::{ToolStatus, tool};
use ec_words::NoMemory;
use lrc_layers::Lrc;
use plugin_reg::has_each_plugin;
use program_edge::words;
use rig_disk::FileRig;
use rs_van::RsVan;
use shec_matrix::Shec;
use std::process::ExitCode;

/// The status if memory ran out.
const NO_MEMORY: u8 = 13;

/// The status if a plugin has no box. No run ends with it: the test for it is there because the proof needs what `tool` requires.
const NO_PLUGIN: u8 = 70;

/// The folder of the rig. Only the rig's output is used.
const HERE: &str = ".";

// Makes a box of each plugin, the real files and the real output, and does what the words ask for.
fn run(rt: HostRuntime, words: &[String]) -> Result<ToolStatus, NoMemory> {
    let alloc = rt.alloc();
    let mut boxes: Vec<Box<dyn Code>> = Vec::new(alloc);
    boxes.push(Box::new(alloc, RsVan::new())?)?;
    boxes.push(Box::new(alloc, Lrc::new())?)?;
    boxes.push(Box::new(alloc, Shec::new())?)?;
    if !has_each_plugin(&boxes) {
        return Ok(ToolStatus(NO_PLUGIN));
    }
    let mut rig = FileRig::open(rt, alloc, HERE)?;
    let mut files = DiskFiles::new(rt);
    Ok(tool(alloc, words, &mut boxes, &mut files, &mut rig))
}

fn main(rt: HostRuntime) -> ExitCode {
    let Ok(words) = words(&rt) else {
        return ExitCode::from(NO_MEMORY);
    };
    match run(rt, &words) {
        Ok(status) => ExitCode::from(status.0),
        Err(NoMemory) => ExitCode::from(NO_MEMORY),
    }
}
