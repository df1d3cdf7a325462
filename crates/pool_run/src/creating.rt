//! A pool is made: the command `create`, once its words are read.
ghost use Rattle.std.specs.Prelude.{◌≡◌, ◌≢◌, ◌<◌, ◌≤◌, ◌∷◌, [], List, ℕ, Some, IfOk, length};
ghost use Rattle.std.specs.Io.KnownBytes.{Appends};
ghost use Rattle.rig_disk.specs.Disk.{Saying};
ghost use Rattle.rig_disk.specs.During.{During};
ghost use Rattle.rig_disk.specs.Faults.{Rose};
ghost use Rattle.ec_code.specs.Refusals.{IsAccepted, IsCodeOf};
ghost use Rattle.plugin_reg.specs.Boxes.{HaveEachPlugin, KeepNames};
ghost use Rattle.plugin_reg.specs.Canonical.{IsWritable};
ghost use Rattle.plugin_reg.specs.Opening.{GivesProfile, IsRefused};
ghost use Rattle.pool_run.specs.Counts.{Counts, CountsOfInput, CountsOfMaking};
ghost use Rattle.pool_run.specs.Creates.{CreatesPool, MakesPool};
ghost use Rattle.pool_run.specs.Profiles.{SaysFault};
ghost use Rattle.pool_run.specs.Script.{ReadsAll};
ghost use Rattle.pool_run.specs.Texts.{OneOf, ComesFor, line_of, slot_line, max_input};

use crate::commands::{refuse, say_last};
use crate::script::{InputFault, read_input};
use crate::status::Status;
use crate::texts::{POOL_EXISTS, TOO_LONG};
use ec_code::{Code, Profile};
use ec_words::{Bytes, NoMemory};
use plugin_reg::{RegFault, open_profile, read_profiles_are_writable};
use pool_making::{MakeFault, make_pool};
use rig_disk::{Rig, Source};
use std::alloc::Global;

/// Makes a pool with the profile of the whole input.
pub fn create_from_input<R: Rig, S: Source>(
    alloc: Global,
    codes: &mut [Box<dyn Code>],
    rig: &mut R,
    source: &mut S,
) -> Status
    requires { HaveEachPlugin (λ box. plugin_name box) codes.old }
    ensures statuses { OneOf result.0 (0 ∷ 3 ∷ 4 ∷ 5 ∷ 8 ∷ 9 ∷ 10 ∷ 12 ∷ 13 ∷ []) }
    ensures created { (text : List ℕ) (p : _) → S.left source.old ≡ Some text → length text ≤ max_input → GivesProfile text p
        → MakesPool p result.0 R.reads R.clock R.images R.said rig.old rig.new }
    ensures refused { (text : List ℕ) (f : _) → S.left source.old ≡ Some text → length text ≤ max_input → IsRefused text f
        → SaysFault text result.0 (R.said rig.old) (R.said rig.new) }
    ensures status_3 { result.0 ≡ 3 → (text : List ℕ) × (f : _) × IsRefused text f × ReadsAll (S.left source.old) (S.left source.new) text }
    ensures status_12 { (text : List ℕ) → S.left source.old ≡ Some text → ComesFor (max_input < length text) 12 (8 ∷ 9 ∷ 13 ∷ []) result.0 }
    ensures too_long { result.0 ≡ 12 → Appends (R.said rig.old) (R.said rig.new) (line_of 12) }
    ensures input { CountsOfInput result.0 (S.faults source.old) (S.faults source.new) }
    ensures counts { CountsOfMaking result.0 (R.faults rig.old) (R.faults rig.new) }
    ensures boxes { KeepNames (λ box. plugin_name box) codes.old codes.new }
{
    match read_input(alloc, source) {
        Ok(text) => create_pool(alloc, &text, codes, rig),
        Err(InputFault::TooLong) => say_last(rig, TOO_LONG, 12),
        Err(InputFault::Failed) => Status(8),
        Err(InputFault::NoMemory) => Status(13),
    }
}

/// Makes a pool with the profile of this text.
pub fn create_pool<R: Rig>(
    alloc: Global,
    text: &[u8],
    codes: &mut [Box<dyn Code>],
    rig: &mut R,
) -> Status
    requires { HaveEachPlugin (λ box. plugin_name box) codes.old }
    ensures statuses { OneOf result.0 (0 ∷ 3 ∷ 4 ∷ 5 ∷ 9 ∷ 10 ∷ 13 ∷ []) }
    ensures created { (p : _) → GivesProfile text.now p
        → MakesPool p result.0 R.reads R.clock R.images R.said rig.old rig.new }
    ensures refused { (f : _) → IsRefused text.now f → SaysFault text.now result.0 (R.said rig.old) (R.said rig.new) }
    ensures status_3 { result.0 ≡ 3 → (f : _) × IsRefused text.now f }
    ensures counts { CountsOfMaking result.0 (R.faults rig.old) (R.faults rig.new) }
    ensures boxes { KeepNames (λ box. plugin_name box) codes.old codes.new }
{
    read_profiles_are_writable();
    match open_profile(alloc, text, codes) {
        Ok(opened) => make(alloc, &opened.profile, codes[opened.index].as_ref(), rig),
        Err(RegFault::Profile(fault)) => refuse(alloc, &fault, rig),
        Err(RegFault::NoMemory) => Status(13),
    }
}

// Makes a pool with an accepted profile and its code.
fn make<R: Rig>(alloc: Global, profile: &Profile, code: &dyn Code, rig: &mut R) -> Status
    requires made { IsCodeOf profile.now (meaning code.now) }
    requires accepted { IsAccepted profile.now }
    requires writable { IsWritable profile.now }
    ensures created { CreatesPool profile.now result.0 R.reads R.clock R.images R.said rig.old rig.new }
    ensures counts { CountsOfMaking result.0 (R.faults rig.old) (R.faults rig.new) }
{
    match make_pool(alloc, rig, code, profile) {
        Ok(()) => Status(0),
        Err(MakeFault::Exists) => say_last(rig, POOL_EXISTS, 4),
        Err(MakeFault::SlotFailed { slot }) => say_slot(alloc, slot, rig),
        Err(MakeFault::MapFailed) => Status(10),
        Err(MakeFault::NoMemory) => Status(13),
    }
}

// Says which slot failed.
fn say_slot<R: Rig>(alloc: Global, slot: u8, rig: &mut R) -> Status
    ensures statuses { OneOf result.0 (5 ∷ 9 ∷ 13 ∷ []) }
    ensures said { result.0 ≡ 5 → Appends (R.said rig.old) (R.said rig.new) (slot_line slot) }
    ensures unsaid { result.0 ≡ 13 → rig.new ≡ rig.old }
    ensures any_moment { result.0 ≢ 13 → During R.clock R.images rig.old rig.new (Saying (R.images rig.old (R.clock rig.old)) (slot_line slot)) }
    ensures voice { result.0 ≡ 9 → Rose (R.faults rig.old 17) (R.faults rig.new 17) }
    ensures slots { (s : ℕ) → s ≢ 17 → R.faults rig.new s ≡ R.faults rig.old s }
{
    match print_slot(alloc, slot) {
        Ok(line) => say_last(rig, line.as_slice(), 5),
        Err(_) => Status(13),
    }
}

fn print_slot(alloc: Global, slot: u8) -> Result<Bytes, NoMemory>
    ensures { IfOk result (λ text. text ≡ slot_line slot) }
{
    let line = format!(in alloc; "slot {slot}\n")?;
    Bytes::from_slice(alloc, line.as_bytes())
}
