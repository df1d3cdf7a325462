//! A run of `ceph_ec_tool` in memory.

use ec_code::Code;
use ec_files::MemFiles;
use ec_tool::{ToolStatus, tool};
use ec_words::NoMemory;
use lrc_layers::Lrc;
use plugin_reg::has_each_plugin;
use rig_disk::MemRig;
use rs_van::RsVan;
use shec_matrix::Shec;
use std::alloc::Global;

/// Makes the boxes, as the program does, and calls. Each plugin has its box, so the test of that never fails.
pub fn served(
    alloc: Global,
    words: &[String],
    files: &mut MemFiles,
    rig: &mut MemRig,
) -> Result<ToolStatus, NoMemory> {
    let mut boxes: Vec<Box<dyn Code>> = Vec::new(alloc);
    boxes.push(Box::new(alloc, RsVan::new())?)?;
    boxes.push(Box::new(alloc, Lrc::new())?)?;
    boxes.push(Box::new(alloc, Shec::new())?)?;
    if !has_each_plugin(&boxes) {
        return Err(NoMemory);
    }
    Ok(tool(alloc, words, &mut boxes, files, rig))
}
