//! The one call of the program `ecpool`: all that it does, but for its real input and output.
ghost use Rattle.std.specs.Prelude.{◌≡◌, ◌≢◌, ◌∷◌, [], List, ℕ, Some, length, string_bytes};
ghost use Rattle.plugin_reg.specs.Boxes.{HaveEachPlugin, KeepNames};
ghost use Rattle.plugin_reg.specs.Opening.{GivesProfile, IsRefused};
ghost use Rattle.pool_run.specs.Counts.{Counts, CountsOfInput, CountsOfMaking, CountsOfRig};
ghost use Rattle.pool_run.specs.Creates.{MakesPool};
ghost use Rattle.pool_run.specs.Ends.{AnswersScript, ComesForItsCause, LeavesInput};
ghost use Rattle.pool_run.specs.Profiles.{AsksToCreate, AsksToShow, AsksFor, ShowsProfile, SaysFault};
ghost use Rattle.pool_run.specs.Texts.{OneOf};
ghost use Rattle.pool_run.specs.Words.{AskTry, AskProfile, AskCreate, Asks};

use crate::commands::{say_last, show_input, show_profile, try_profile};
use crate::creating::{create_from_input, create_pool};
use crate::status::Status;
use crate::texts::USAGE;
use ec_code::Code;
use rig_disk::{Rig, Source};
use std::alloc::Global;

// What the words ask for.
#[derive(Clone, Copy)]
enum Request<'a> {
    Wrong,
    Try(&'a str),
    Show(&'a str),
    ShowInput,
    Create(&'a str),
    CreateFromInput,
}

/// Does what the words of the command line ask for, over this input and this rig's output. `codes` has a box of each plugin; the
/// first of a profile's plugin becomes the profile's code.
pub fn ecpool<R: Rig, S: Source>(
    alloc: Global,
    words: &[String],
    codes: &mut Vec<Box<dyn Code>>,
    rig: &mut R,
    source: &mut S,
) -> Status
    requires { HaveEachPlugin (λ box. plugin_name box) codes.old.items }
    ensures statuses { OneOf result.0 (0 ∷ 1 ∷ 2 ∷ 3 ∷ 4 ∷ 5 ∷ 8 ∷ 9 ∷ 10 ∷ 12 ∷ 13 ∷ []) }

    // What is said to a script is a prefix of the map's replies to it, and then the line of the status.
    ensures tried { (profile script : List ℕ) (p : _) → AskTry words.now profile → GivesProfile profile p
        → S.left source.old ≡ Some script → AnswersScript script result.0 (R.said rig.old) (R.said rig.new) (S.left source.new)
        (S.faults source.old) (S.faults source.new) (R.faults rig.old) (R.faults rig.new) }

    // An accepted profile is shown by its canonical lines and its rows.
    ensures shown { (profile : List ℕ) (p : _) → AsksToShow words.now (S.left source.old) profile → GivesProfile profile p
        → ShowsProfile p result.0 (R.said rig.old) (R.said rig.new) }

    // A pool is made with an accepted profile: a crash at each instant leaves no pool, or the new one whole.
    ensures created { (profile : List ℕ) (p : _) → AsksToCreate words.now (S.left source.old) profile → GivesProfile profile p
        → MakesPool p result.0 R.reads R.clock R.images R.said rig.old rig.new }

    // A profile is refused exactly if it has a fault, by the line of its first one.
    ensures refused { (profile : List ℕ) (f : _) → AsksFor words.now (S.left source.old) profile → IsRefused profile f
        → SaysFault profile result.0 (R.said rig.old) (R.said rig.new) }

    // When statuses 2, 3 and 12 come. Status 13, for want of memory, is free.
    ensures causes { ComesForItsCause words.now result.0 (R.said rig.old) (R.said rig.new)
        (S.left source.old) (S.left source.new) }

    // What is taken of the input. When statuses 8 and 9 come, by the counts of faults. The boxes go by their names.
    ensures input { LeavesInput words.now result.0 source.old source.new }
    ensures counts { CountsOfInput result.0 (S.faults source.old) (S.faults source.new) }
    ensures made { (profile : List ℕ) → AskCreate words.now profile → CountsOfMaking result.0 (R.faults rig.old) (R.faults rig.new) }
    ensures others { ((profile : List ℕ) → AskCreate words.now profile → ⊥) → CountsOfRig result.0 (R.faults rig.old) (R.faults rig.new) }
    ensures boxes { KeepNames (λ box. plugin_name box) codes.old.items codes.new.items }
{
    match requested(words) {
        Request::Wrong => say_last(rig, USAGE, 2),
        Request::Try(profile) => try_profile(alloc, profile.as_bytes(), codes, rig, source),
        Request::Show(profile) => show_profile(alloc, profile.as_bytes(), codes, rig),
        Request::ShowInput => show_input(alloc, codes, rig, source),
        Request::Create(profile) => create_pool(alloc, profile.as_bytes(), codes, rig),
        Request::CreateFromInput => create_from_input(alloc, codes, rig, source),
    }
}

fn requested<'a>(words: &'a [String]) -> Request<'a>
    ensures { Asks words.now result }
{
    let [word, profile] = words else {
        return requested_of_three(words);
    };
    if word.as_str() == "try" {
        Request::Try(profile.as_str())
    } else if word.as_str() == "profile" {
        shown(profile)
    } else {
        Request::Wrong
    }
}

fn requested_of_three<'a>(words: &'a [String]) -> Request<'a>
    requires { length words.now ≢ 2 }
    ensures { Asks words.now result }
{
    let [word, _, profile] = words else {
        return Request::Wrong;
    };
    if word.as_str() == "create" {
        created(profile)
    } else {
        Request::Wrong
    }
}

// The profile with which `create` is asked to make a pool: its word, or the input for `-`.
fn created<'a>(profile: &'a String) -> Request<'a>
    ensures { (words : _) → AskCreate words (string_bytes profile.now) → Asks words result }
{
    if profile.as_str() == "-" {
        Request::CreateFromInput
    } else {
        Request::Create(profile.as_str())
    }
}

// The profile that `profile` is asked to show: its word, or the input for `-`.
fn shown<'a>(profile: &'a String) -> Request<'a>
    ensures { (words : _) → AskProfile words (string_bytes profile.now) → Asks words result }
{
    if profile.as_str() == "-" {
        Request::ShowInput
    } else {
        Request::Show(profile.as_str())
    }
}
