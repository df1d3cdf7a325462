//! The one call of the program `ceph_ec_tool`: everything that it does, except for its real files and output.
ghost use Rattle.std.specs.Prelude.{◌≡◌, ◌≢◌, ◌<◌, ◌⊎◌, ◌∷◌, [], ℕ, length, slice_index_or};
ghost use Rattle.std.specs.Io.KnownBytes.{Appends};
ghost use Rattle.plugin_reg.specs.Boxes.{HaveBox, HaveEachPlugin, KeepNames};
ghost use Rattle.rig_disk.specs.Faults.{Rose};
ghost use Rattle.ec_tool.specs.Headline.{IsDone};
ghost use Rattle.ec_tool.specs.Requests.{Asks};
ghost use Rattle.ec_tool.specs.Texts.{OneOf, EndsWith, exists_line, unknown_plugin_line};

use crate::commands::{decode, encode, size, validate};
use crate::request::Request;
use crate::saying::{end, say, show};
use crate::texts::{EXISTS, UNKNOWN_PLUGIN};
use crate::words::requested;
use ec_code::Code;
use ec_files::{Files, USAGE};
use plugin_reg::has_box;
use rig_disk::{Rig, VOICE};
use std::alloc::Global;

/// How the program ends: the number is its exit status. docs/TOOL.md explains it.
#[derive(Clone, Copy, Debug, PartialEq, Eq)]
pub struct ToolStatus(pub u8);

/// Does what the words of the command line ask for, over these files and this rig's output. `codes` has a box of each plugin; the
/// first box of a profile's plugin becomes the profile's code. Only the output of the rig is used.
pub fn tool<F: Files, R: Rig>(
    alloc: Global,
    words: &[String],
    codes: &mut Vec<Box<dyn Code>>,
    files: &mut F,
    rig: &mut R,
) -> ToolStatus
    requires { HaveEachPlugin (λ box. plugin_name box) codes.old.items }
    ensures statuses { OneOf result.0 (0 ∷ 1 ∷ 2 ∷ 3 ∷ 4 ∷ 5 ∷ 6 ∷ 7 ∷ 8 ∷ 9 ∷ 13 ∷ []) }

    // The words ask for something, and the run does it; or memory ran out before they were read.
    ensures headline { ((request : _) × Asks words.now request
        × IsDone (HaveBox (λ box. plugin_name box) codes.old.items) request
        (record {
          status = result.0;
          said_before = R.said rig.old;
          said_now = R.said rig.new;
          before = F.files files.old;
          now = F.files files.new;
          was = F.faults files.old;
          is = F.faults files.new;
        }))
        ⊎ ((result.0 ≡ 13) × (files.new ≡ files.old)) }

    // A failure of the files or of the output has its cause, and want of memory says nothing.
    ensures status_5 { result.0 ≡ 5 → Rose (F.faults files.old) (F.faults files.new) }
    ensures status_9 { result.0 ≡ 9 → Rose (R.faults rig.old VOICE) (R.faults rig.new VOICE) }
    ensures silent { result.0 ≡ 13 → Appends (R.said rig.old) (R.said rig.new) [] }
    ensures quiet_voice { result.0 ≢ 9 → R.faults rig.new VOICE ≡ R.faults rig.old VOICE }

    // No slot's count ever changes. The boxes keep their names.
    ensures slots { (slot : ℕ) → slot ≢ VOICE → R.faults rig.new slot ≡ R.faults rig.old slot }
    ensures boxes { KeepNames (λ box. plugin_name box) codes.old.items codes.new.items }
{
    match requested(alloc, words) {
        Ok(request) => serve(alloc, &request, codes, files, rig),
        Err(_) => ToolStatus(13),
    }
}

// Does what was asked for.
fn serve<F: Files, R: Rig>(
    alloc: Global,
    request: &Request,
    codes: &mut [Box<dyn Code>],
    files: &mut F,
    rig: &mut R,
) -> ToolStatus
    requires asked { (words : _) × Asks words request.now }
    requires boxes { HaveEachPlugin (λ box. plugin_name box) codes.old }
    ensures statuses { OneOf result.0 (0 ∷ 1 ∷ 2 ∷ 3 ∷ 4 ∷ 5 ∷ 6 ∷ 7 ∷ 8 ∷ 9 ∷ 13 ∷ []) }
    ensures done { IsDone (HaveBox (λ box. plugin_name box) codes.old) request.now
        (record {
          status = result.0;
          said_before = R.said rig.old;
          said_now = R.said rig.new;
          before = F.files files.old;
          now = F.files files.new;
          was = F.faults files.old;
          is = F.faults files.new;
        }) }
    ensures status_5 { result.0 ≡ 5 → Rose (F.faults files.old) (F.faults files.new) }
    ensures status_9 { result.0 ≡ 9 → Rose (R.faults rig.old VOICE) (R.faults rig.new VOICE) }
    ensures silent { result.0 ≡ 13 → Appends (R.said rig.old) (R.said rig.new) [] }
    ensures quiet_voice { result.0 ≢ 9 → R.faults rig.new VOICE ≡ R.faults rig.old VOICE }
    ensures slots { (slot : ℕ) → slot ≢ VOICE → R.faults rig.new slot ≡ R.faults rig.old slot }
    ensures boxes { KeepNames (λ box. plugin_name box) codes.old codes.new }
{
    match request {
        Request::Wrong => say(rig, USAGE, 2),
        Request::Exists(plugin) => test_plugin(plugin, codes, rig),
        Request::Validate(profile, parameters) => {
            show(alloc, &validate(alloc, profile, parameters, codes), rig)
        }
        Request::Size(profile, bytes) => show(alloc, &size(alloc, profile, *bytes, codes), rig),
        Request::Encode(job) => end(alloc, &encode(alloc, job, codes, files), rig),
        Request::Decode(job) => end(alloc, &decode(alloc, job, codes, files), rig),
    }
}

// Says whether a plugin is there.
fn test_plugin<R: Rig>(plugin: &str, codes: &[Box<dyn Code>], rig: &mut R) -> ToolStatus
    ensures there { HaveBox (λ box. plugin_name box) codes.now plugin.now
        → EndsWith 0 exists_line (R.said rig.old) (R.said rig.new) result.0 }
    ensures unknown { (HaveBox (λ box. plugin_name box) codes.now plugin.now → ⊥)
        → EndsWith 1 unknown_plugin_line (R.said rig.old) (R.said rig.new) result.0 }
    ensures known { HaveBox (λ box. plugin_name box) codes.now plugin.now
        ⊎ (HaveBox (λ box. plugin_name box) codes.now plugin.now → ⊥) }
    ensures voice { result.0 ≡ 9 → Rose (R.faults rig.old VOICE) (R.faults rig.new VOICE) }
    ensures quiet { result.0 ≢ 9 → R.faults rig.new VOICE ≡ R.faults rig.old VOICE }
    ensures slots { (slot : ℕ) → slot ≢ VOICE → R.faults rig.new slot ≡ R.faults rig.old slot }
{
    if has_box(codes, plugin) {
        say(rig, EXISTS, 0)
    } else {
        say(rig, UNKNOWN_PLUGIN, 1)
    }
}
