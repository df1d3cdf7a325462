//! The last line of a run, and its status.
ghost use Rattle.std.specs.Prelude.{◌≡◌, ◌≢◌, ℕ};
ghost use Rattle.rig_disk.specs.Faults.{Rose};
ghost use Rattle.ec_files.specs.Stops.{status_of, line_of, status_after, line_after};
ghost use Rattle.ec_tool.specs.Stops.{shown_after};
ghost use Rattle.ec_tool.specs.Texts.{EndsWith};

use crate::program::ToolStatus;
use ec_files::Stop;
use ec_words::Bytes;
use rig_disk::{Rig, VOICE};
use std::alloc::Global;

/// Says a last line and ends with this status, or with the status of a failed output.
pub fn say<R: Rig>(rig: &mut R, line: &[u8], status: u8) -> ToolStatus
    requires failed { status ≢ 9 }
    requires out { status ≢ 13 }
    ensures ends { EndsWith status line.now (R.said rig.old) (R.said rig.new) result.0 }
    ensures voice { result.0 ≡ 9 → Rose (R.faults rig.old VOICE) (R.faults rig.new VOICE) }
    ensures quiet { result.0 ≢ 9 → R.faults rig.new VOICE ≡ R.faults rig.old VOICE }
    ensures slots { (slot : ℕ) → slot ≢ VOICE → R.faults rig.new slot ≡ R.faults rig.old slot }
{
    match rig.say(line) {
        Ok(()) => ToolStatus(status),
        Err(_) => ToolStatus(9),
    }
}

/// Says why a command stopped.
fn say_stop<R: Rig>(alloc: Global, stop: &Stop, rig: &mut R) -> ToolStatus
    ensures ends { EndsWith (status_of stop.now) (line_of stop.now) (R.said rig.old) (R.said rig.new) result.0 }
    ensures voice { result.0 ≡ 9 → Rose (R.faults rig.old VOICE) (R.faults rig.new VOICE) }
    ensures quiet { result.0 ≢ 9 → R.faults rig.new VOICE ≡ R.faults rig.old VOICE }
    ensures slots { (slot : ℕ) → slot ≢ VOICE → R.faults rig.new slot ≡ R.faults rig.old slot }
{
    match stop {
        Stop::NoMemory => ToolStatus(13),
        _ => match stop.line(alloc) {
            Ok(line) => say(rig, line.as_slice(), stop.status()),
            Err(_) => ToolStatus(13),
        },
    }
}

/// Ends a command that says nothing if it did what was asked for.
pub fn end<R: Rig>(alloc: Global, ended: &Result<(), Stop>, rig: &mut R) -> ToolStatus
    ensures ends { EndsWith (status_after ended.now) (line_after ended.now) (R.said rig.old) (R.said rig.new) result.0 }
    ensures voice { result.0 ≡ 9 → Rose (R.faults rig.old VOICE) (R.faults rig.new VOICE) }
    ensures quiet { result.0 ≢ 9 → R.faults rig.new VOICE ≡ R.faults rig.old VOICE }
    ensures slots { (slot : ℕ) → slot ≢ VOICE → R.faults rig.new slot ≡ R.faults rig.old slot }
{
    match ended {
        Ok(()) => ToolStatus(0),
        Err(stop) => say_stop(alloc, stop, rig),
    }
}

/// Ends a command that shows something.
pub fn show<R: Rig>(alloc: Global, shown: &Result<Bytes, Stop>, rig: &mut R) -> ToolStatus
    ensures ends { EndsWith (status_after shown.now) (shown_after shown.now) (R.said rig.old) (R.said rig.new) result.0 }
    ensures voice { result.0 ≡ 9 → Rose (R.faults rig.old VOICE) (R.faults rig.new VOICE) }
    ensures quiet { result.0 ≢ 9 → R.faults rig.new VOICE ≡ R.faults rig.old VOICE }
    ensures slots { (slot : ℕ) → slot ≢ VOICE → R.faults rig.new slot ≡ R.faults rig.old slot }
{
    match shown {
        Ok(text) => say(rig, text.as_slice(), 0),
        Err(stop) => say_stop(alloc, stop, rig),
    }
}
