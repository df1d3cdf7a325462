//! What the steps do in the place of a name.
ghost use Rattle.std.specs.Prelude.{◌≡◌, ◌≤◌, bytes_eq, false, length, drop, map as each, IsSome, OnOk, OnErr, IfOk, None, true};
ghost use Rattle.std.specs.FinMap as map;
ghost use Rattle.shard_model.specs.Objects.{MayBeHeld, put};
ghost use Rattle.shard_model.specs.Changes.{fits_change, changed, restored, undo_of as undo_of_change};
ghost use Rattle.shard_state.specs.Doing.{HasRoomFor};
ghost use Rattle.shard_steps.specs.StepMeanings.{change_in, is_entry, step_of};
ghost use Rattle.shard_state.specs.EntryMeanings.{undo_of};
ghost use Rattle.shard_state.specs.Places.{joined, inside, HasMade};
ghost use Rattle.std.specs.List.{AllByRecursion, list_any};
ghost use Rattle.shard_state.specs.Records.{recorded};
ghost use Rattle.shard_state.specs.Sound.{IsSound, HasPlace};

use crate::attrs::SpareAttrs;
use crate::change::{apply_change, taken_back};
use crate::entry::Undo;
use crate::log::is_named;
use crate::places::Places;
use crate::record::Record;
use ec_words::{Geometry, Name, NoMemory};
use shard_steps::Step;
use std::alloc::Global;

/// Nothing lies in the place of a name, if it has one.
pub(crate) fn empty_place(places: &mut Places, name: &Name)
    ensures { inside places.new ≡ put (inside places.old) name.now None }
{
    if places.has(name) {
        places.set(name, None);
    }
}

/// Makes a place for a name that has none; what lies in the others stays.
pub(crate) fn make_place(places: &mut Places, alloc: Global, name: &Name) -> Result<(), NoMemory>
    ensures made { OnOk result (HasMade name.now places.old places.new) }
    ensures unchanged { OnErr result (places.new ≡ places.old) }
{
    if !places.has(name) {
        let copy = name.copy(alloc)?;
        places.make(copy)?;
    }
    Ok(())
}

/// Does an entry's step to what lies in the place of its name.
pub(crate) fn change_place(
    places: &mut Places,
    alloc: Global,
    g: Geometry,
    step: &Step,
    name: &Name,
) -> Result<(Undo, SpareAttrs), NoMemory>
    requires placed { IsSome (map.get places.old name.now) }
    requires entry { is_entry (step_of step.now) ≡ true }
    requires held { MayBeHeld (record { k = g.k; unit = g.unit }) (joined (map.get places.old name.now)) }
    requires fits { fits_change (record { k = g.k; unit = g.unit }) (change_in (step_of step.now)) (joined (map.get places.old name.now)) ≡ true }
    ensures ok { OnOk result (places.new ≡ map.insert places.old name.now
        (changed (record { k = g.k; unit = g.unit }) (change_in (step_of step.now)) (joined (map.get places.old name.now)))) }
    ensures undo { IfOk result (λ done. (undo_of done.0 ≡ undo_of_change (change_in (step_of step.now)) (joined (map.get places.old name.now)))
        × HasRoomFor (change_in (step_of step.now)) done.1) }
    ensures unchanged { OnErr result (places.new ≡ places.old) }
{
    let before = places.set(name, None);
    match apply_change(alloc, g, step, before) {
        Ok(done) => {
            places.set(name, done.after);
            Ok((done.undo, done.spare))
        }
        Err(before) => {
            places.set(name, before);
            Err(NoMemory)
        }
    }
}

/// Takes a change back in the place of a name.
pub(crate) fn restore_place(
    places: &mut Places,
    g: Geometry,
    name: Name,
    undo: Undo,
    spare: SpareAttrs,
)
    requires placed { IsSome (map.get places.old name) }
    requires sound { IsSound (record { k = g.k; unit = g.unit }) spare (undo_of undo) (joined (map.get places.old name)) }
    ensures { places.new ≡ map.insert places.old name (restored (record { k = g.k; unit = g.unit }) (undo_of undo) (joined (map.get places.old name))) }
{
    let held = places.set(&name, None);
    let before = taken_back(g, held, undo, spare);
    places.set(&name, before);
}

/// Takes the empty places away of names that stand in the first entries and in no other.
pub(crate) fn sweep_front(places: &mut Places, log: &Vec<Record>, cut: usize)
    requires { cut ≤ length log.now.items }
    ensures same { inside places.new ≡ inside places.old }
    ensures placed { AllByRecursion (λ r. HasPlace places.old r.logged.name) (each recorded (drop cut log.now.items))
        → AllByRecursion (λ r. HasPlace places.new r.logged.name) (each recorded (drop cut log.now.items)) }
{
    for i in 0..cut {
        let record = &log[i];
        let name = &record.entry.what.name;
        if may_go(places, log, cut, name) {
            places.sweep(name);
        }
    }
}

/// Whether nothing lies in the place of a name, and no entry from an index on has the name.
fn may_go(places: &Places, log: &Vec<Record>, from: usize, name: &Name) -> bool
    ensures { result ≡ true → list_any (λ r. bytes_eq r.logged.name name.now) (each recorded (drop from log.now.items)) ≡ false }
{
    places.get(name).is_none() && !is_named(log, from, name)
}
