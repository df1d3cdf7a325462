//! A run of `ecpool` in memory.

use ec_code::Code;
use ec_words::{Bytes, NoMemory};
use lrc_layers::Lrc;
use plugin_reg::has_each_plugin;
use pool_run::ecpool;
use rig_disk::{MemRig, MemSource};
use rs_van::RsVan;
use shec_matrix::Shec;
use std::alloc::Global;

/// The status with which `ecpool` ends on these words and this input. The take with the number `fail` fails.
pub fn status_of(
    alloc: Global,
    words: &[String],
    input: Vec<u8>,
    fail: Option<u64>,
    rig: &mut MemRig,
) -> Result<u8, NoMemory> {
    let mut source = MemSource::new(Bytes::of(input), fail);
    answered(alloc, words, rig, &mut source)
}

// Makes the boxes, as the program does, and calls. Each plugin has its box, so the test of that never fails.
fn answered(
    alloc: Global,
    words: &[String],
    rig: &mut MemRig,
    source: &mut MemSource,
) -> Result<u8, NoMemory> {
    let mut boxes: Vec<Box<dyn Code>> = Vec::new(alloc);
    boxes.push(Box::new(alloc, RsVan::new())?)?;
    boxes.push(Box::new(alloc, Lrc::new())?)?;
    boxes.push(Box::new(alloc, Shec::new())?)?;
    if !has_each_plugin(&boxes) {
        return Err(NoMemory);
    }
    Ok(ecpool(alloc, words, &mut boxes, rig, source).0)
}
