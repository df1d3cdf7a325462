//! The commands of the program, once the words are read.
ghost use Rattle.std.specs.Prelude.{◌≡◌, ◌≢◌, ◌<◌, ◌≤◌, ◌∷◌, [], List, ℕ, Some, length};
ghost use Rattle.std.specs.Io.KnownBytes.{Appends};
ghost use Rattle.rig_disk.specs.Disk.{Saying};
ghost use Rattle.rig_disk.specs.During.{During};
ghost use Rattle.rig_disk.specs.Faults.{Rose};
ghost use Rattle.rig_disk.specs.Said.{SaysFront};
ghost use Rattle.ec_code.specs.Refusals.{IsAccepted, IsCodeOf};
ghost use Rattle.pool_run.specs.Counts.{Counts, CountsOfRig};
ghost use Rattle.pool_run.specs.Ends.{IsRefusedAtOnce, TriesScript};
ghost use Rattle.plugin_reg.specs.Boxes.{HaveEachPlugin, KeepNames};
ghost use Rattle.plugin_reg.specs.Opening.{GivesProfile, IsRefused};
ghost use Rattle.pool_run.specs.Profiles.{ShowsProfile, SaysFault, profile_text};
ghost use Rattle.pool_run.specs.Script.{ReadsAll};
ghost use Rattle.pool_run.specs.Texts.{OneOf, ComesFor, line_of, max_input};

use crate::profiles::print_code;
use crate::script::{InputFault, read_input, run_script};
use crate::status::Status;
use crate::texts::TOO_LONG;
use ec_code::{Code, Profile, ProfileFault};
use plugin_reg::{RegFault, open_profile, print_fault};
use rig_disk::{Rig, Source, VOICE};
use std::alloc::Global;

/// Reads the input to its end and answers it from no objects, with the code of a profile.
pub fn try_profile<R: Rig, S: Source>(
    alloc: Global,
    text: &[u8],
    codes: &mut [Box<dyn Code>],
    rig: &mut R,
    source: &mut S,
) -> Status
    requires { HaveEachPlugin (λ box. plugin_name box) codes.old }
    ensures statuses { OneOf result.0 (0 ∷ 1 ∷ 3 ∷ 8 ∷ 9 ∷ 12 ∷ 13 ∷ []) }
    ensures script { (p : _) → GivesProfile text.now p
        → TriesScript result.0 (R.said rig.old) (R.said rig.new) (S.left source.old) (S.left source.new) }
    ensures refused { (f : _) → IsRefused text.now f
        → IsRefusedAtOnce text.now result.0 (R.said rig.old) (R.said rig.new) source.old source.new }
    ensures status_3 { result.0 ≡ 3 → (f : _) × IsRefused text.now f }
    ensures unread { result.0 ≡ 3 → source.new ≡ source.old }
    ensures too_long { result.0 ≡ 12 → Appends (R.said rig.old) (R.said rig.new) (line_of 12) }
    ensures counts { Counts result.0 (S.faults source.old) (S.faults source.new) (R.faults rig.old) (R.faults rig.new) }
    ensures boxes { KeepNames (λ box. plugin_name box) codes.old codes.new }
{
    match open_profile(alloc, text, codes) {
        Ok(opened) => {
            let unit = opened.profile.stripe_unit;
            try_script(alloc, codes[opened.index].as_ref(), unit, rig, source)
        }
        Err(RegFault::Profile(fault)) => refuse(alloc, &fault, rig),
        Err(RegFault::NoMemory) => Status(13),
    }
}

// Reads the input to its end and answers it from no objects.
fn try_script<R: Rig, S: Source>(
    alloc: Global,
    code: &dyn Code,
    unit: u32,
    rig: &mut R,
    source: &mut S,
) -> Status
    requires some { 1 ≤ unit }
    requires few { unit ≤ 65536 }
    ensures script { TriesScript result.0 (R.said rig.old) (R.said rig.new) (S.left source.old) (S.left source.new) }
    ensures too_long { result.0 ≡ 12 → Appends (R.said rig.old) (R.said rig.new) (line_of 12) }
    ensures counts { Counts result.0 (S.faults source.old) (S.faults source.new) (R.faults rig.old) (R.faults rig.new) }
{
    match read_input(alloc, source) {
        Ok(script) => run_script(alloc, &script, code, unit, rig),
        Err(InputFault::TooLong) => say_last(rig, TOO_LONG, 12),
        Err(InputFault::Failed) => Status(8),
        Err(InputFault::NoMemory) => Status(13),
    }
}

/// Says what the profile of the whole input means.
pub fn show_input<R: Rig, S: Source>(
    alloc: Global,
    codes: &mut [Box<dyn Code>],
    rig: &mut R,
    source: &mut S,
) -> Status
    requires { HaveEachPlugin (λ box. plugin_name box) codes.old }
    ensures statuses { OneOf result.0 (0 ∷ 3 ∷ 8 ∷ 9 ∷ 12 ∷ 13 ∷ []) }
    ensures shown { (text : List ℕ) (p : _) → S.left source.old ≡ Some text → length text ≤ max_input → GivesProfile text p
        → ShowsProfile p result.0 (R.said rig.old) (R.said rig.new) }
    ensures refused { (text : List ℕ) (f : _) → S.left source.old ≡ Some text → length text ≤ max_input → IsRefused text f
        → SaysFault text result.0 (R.said rig.old) (R.said rig.new) }
    ensures status_3 { result.0 ≡ 3 → (text : List ℕ) × (f : _) × IsRefused text f × ReadsAll (S.left source.old) (S.left source.new) text }
    ensures status_12 { (text : List ℕ) → S.left source.old ≡ Some text → ComesFor (max_input < length text) 12 (8 ∷ 9 ∷ 13 ∷ []) result.0 }
    ensures too_long { result.0 ≡ 12 → Appends (R.said rig.old) (R.said rig.new) (line_of 12) }
    ensures counts { Counts result.0 (S.faults source.old) (S.faults source.new) (R.faults rig.old) (R.faults rig.new) }
    ensures boxes { KeepNames (λ box. plugin_name box) codes.old codes.new }
{
    match read_input(alloc, source) {
        Ok(text) => show_profile(alloc, &text, codes, rig),
        Err(InputFault::TooLong) => say_last(rig, TOO_LONG, 12),
        Err(InputFault::Failed) => Status(8),
        Err(InputFault::NoMemory) => Status(13),
    }
}

/// Says what a profile means.
pub fn show_profile<R: Rig>(
    alloc: Global,
    text: &[u8],
    codes: &mut [Box<dyn Code>],
    rig: &mut R,
) -> Status
    requires { HaveEachPlugin (λ box. plugin_name box) codes.old }
    ensures statuses { OneOf result.0 (0 ∷ 3 ∷ 9 ∷ 13 ∷ []) }
    ensures shown { (p : _) → GivesProfile text.now p → ShowsProfile p result.0 (R.said rig.old) (R.said rig.new) }
    ensures refused { (f : _) → IsRefused text.now f → SaysFault text.now result.0 (R.said rig.old) (R.said rig.new) }
    ensures status_3 { result.0 ≡ 3 → (f : _) × IsRefused text.now f }
    ensures counts { CountsOfRig result.0 (R.faults rig.old) (R.faults rig.new) }
    ensures boxes { KeepNames (λ box. plugin_name box) codes.old codes.new }
{
    match open_profile(alloc, text, codes) {
        Ok(opened) => show_code(alloc, &opened.profile, codes[opened.index].as_ref(), rig),
        Err(RegFault::Profile(fault)) => refuse(alloc, &fault, rig),
        Err(RegFault::NoMemory) => Status(13),
    }
}

// Says the canonical lines of an accepted profile and the rows of its code.
fn show_code<R: Rig>(alloc: Global, profile: &Profile, code: &dyn Code, rig: &mut R) -> Status
    requires accepted { IsAccepted profile.now }
    requires made { IsCodeOf profile.now (meaning code.now) }
    ensures shown { ShowsProfile profile.now result.0 (R.said rig.old) (R.said rig.new) }
    ensures statuses { OneOf result.0 (0 ∷ 9 ∷ 13 ∷ []) }
    ensures counts { CountsOfRig result.0 (R.faults rig.old) (R.faults rig.new) }
{
    match print_code(alloc, profile, code) {
        Ok(text) => say_last(rig, text.as_slice(), 0),
        Err(_) => Status(13),
    }
}

/// Says the line of a profile's fault.
pub fn refuse<R: Rig>(alloc: Global, fault: &ProfileFault, rig: &mut R) -> Status
    ensures refused { (text : List ℕ) → IsRefused text fault.now → SaysFault text result.0 (R.said rig.old) (R.said rig.new) }
    ensures statuses { OneOf result.0 (3 ∷ 9 ∷ 13 ∷ []) }
    ensures counts { CountsOfRig result.0 (R.faults rig.old) (R.faults rig.new) }
{
    match print_fault(alloc, fault) {
        Ok(line) => say_last(rig, line.as_slice(), 3),
        Err(_) => Status(13),
    }
}

/// Says a last line and ends with this status, or with that of a failed output.
pub fn say_last<R: Rig>(rig: &mut R, line: &[u8], status: u8) -> Status
    ensures status { OneOf result.0 (status ∷ 9 ∷ []) }
    ensures said { result.0 ≢ 9 → Appends (R.said rig.old) (R.said rig.new) line.now }
    ensures front { SaysFront (R.said rig.old) (R.said rig.new) line.now }
    ensures any_moment { During R.clock R.images rig.old rig.new (Saying (R.images rig.old (R.clock rig.old)) line.now) }
    ensures voice { result.0 ≡ 9 → status ≢ 9 → Rose (R.faults rig.old VOICE) (R.faults rig.new VOICE) }
    ensures quiet { result.0 ≢ 9 → R.faults rig.new VOICE ≡ R.faults rig.old VOICE }
    ensures slots { (slot : ℕ) → slot ≢ VOICE → R.faults rig.new slot ≡ R.faults rig.old slot }
{
    match rig.say(line) {
        Ok(()) => Status(status),
        Err(_) => Status(9),
    }
}
