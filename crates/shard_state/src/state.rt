//! The state of a shard.
ghost use Rattle.std.specs.Prelude.{◌≡◌, ◌≤◌, ◌<◌, ◌+◌, ◌-◌, ◌^◌, min, get_or, IfSome, IsNone, ◌*◌, ◌↔◌, ◌&&◌, ◌==◌, nat_lt, nat_le, List, ℕ, Err, false, OnOk, OnErr, IfOk, IfErr, IsSome, None, true, length};
ghost use Rattle.std.specs.Option.{option_copied};
ghost use Rattle.std.specs.Result.{IsErr};
ghost use Rattle.std.specs.FinMap as map;
ghost use Rattle.ec_model.specs.Versions.{zero_version};
ghost use Rattle.shard_model.specs.Objects.{MayBeHeld, put};
ghost use Rattle.shard_model.specs.Changes.{Change, fits_change, changed, restored, kind_of as kind_of_change, undo_of as undo_of_change};
ghost use Rattle.shard_state.specs.Sound.{IsSound};
ghost use Rattle.shard_model.specs.Steps.{Log, Control, Recover, Back, Started, Firm, Trim, Partial, Drop as DropName, Clear, Reset, Put};
ghost use Rattle.shard_model.specs.States.{Logged as Meant, holds, fits, follows, is_known, brought};
ghost use Rattle.shard_model.specs.Limits.{seq_limit};
ghost use Rattle.shard_model.specs.Listings.{next_name, usage};
ghost use Rattle.std.specs.Ordering.{nat_cmp};
ghost use Rattle.std.specs.Cmp.Lexicographic.{slice_cmp};
ghost use Rattle.shard_state.specs.Doing.{takes_none, fresh_state};
ghost use Rattle.shard_model.specs.Shards.{stepped};
ghost use Rattle.shard_state.specs.Places.{joined, inside, HasMade};
ghost use Rattle.shard_state.specs.Doing.{HasRoomFor};
ghost use Rattle.shard_steps.specs.StepMeanings.{change_in, is_entry, kind_of, step_of};
ghost use Rattle.shard_state.specs.EntryMeanings.{undo_of, logged_of};
ghost use Rattle.shard_state.specs.Ways.{UndoesNewest, GivesThePast};

use crate::attrs::Attrs;
use crate::copying::copy_log;
use crate::entry::{Entry, Logged, Undo};
use crate::fault::{StepFault, UndoFault};
use crate::fit::{fits_entry, fits_put};
use crate::held::Held;
use crate::limits::SEQ_LIMIT;
use crate::log::{front_len, is_logged, settle_to, take_off};
use crate::phase::Phase;
use crate::place_steps::{change_place, empty_place, make_place, restore_place, sweep_front};
use crate::places::Places;
use crate::record::Record;
use ec_words::{Bytes, Geometry, Name, NoMemory, Version};
use shard_steps::{Kind, Pairs, Step, head_of};
use std::alloc::Global;
use std::marker::Model;

/// What a shard holds: its objects, its log, and what takes each entry back. A contract sees the geometry and the state.
#[derive(Drop)]
pub struct ShardState {
    alloc: Global,
    geometry: Geometry,
    phase: Phase,
    places: Places,
    log: Vec<Record>,
    tail: Version,
    firm: Version,
    head: Version,
    les: u32,
    partial: bool,
}

impl Model for ShardState {
    ghost use Rattle.shard_model.specs.Shards.{Shard, shard_code};

    ghost Value = { Shard };

    ghost coded = { shard_code };

    ghost use Rattle.shard_state.specs.Inner.{shard_of, IsKeptIn};

    ghost view = { shard_of };

    ghost invariant = { IsKeptIn };
}

impl ShardState {
    /// A shard with no objects: versions (0, 0), epoch 0, not partial. It takes no memory yet.
    pub fn fresh(alloc: Global, g: Geometry) -> ShardState
        ensures { result ≡ record { geometry = record { k = g.k; unit = g.unit }; state = fresh_state } }
    {
        let zero = Version { epoch: 0, seq: 0 };
        ShardState {
            alloc,
            geometry: g,
            phase: Phase::Unbegun,
            places: Places::new(alloc),
            log: Vec::new(alloc),
            tail: zero,
            firm: zero,
            head: zero,
            les: 0,
            partial: false,
        }
    }

    /// An equal state.
    pub fn copy(&self, alloc: Global) -> Result<ShardState, NoMemory>
        ensures { IfOk result (λ copy. copy ≡ self.now) }
    {
        let places = self.places.copy(alloc)?;
        let log = copy_log(alloc, &self.log)?;
        Ok(ShardState {
            alloc,
            geometry: self.geometry,
            phase: self.phase,
            places,
            log,
            tail: self.tail,
            firm: self.firm,
            head: self.head,
            les: self.les,
            partial: self.partial,
        })
    }

    /// The geometry that the shard was made with.
    pub fn geometry(&self) -> Geometry
        ensures k { result.k ≡ self.now.geometry.k }
        ensures unit { result.unit ≡ self.now.geometry.unit }
    {
        self.geometry
    }

    /// The object with this name. `None` exactly if it is not there.
    pub fn object(&self, name: &Name) -> Option<&Held>
        ensures { option_copied result ≡ map.get self.now.state.objects name.now }
    {
        self.places.get(name)
    }

    /// The least name of an object, or the least above `after`. `None` exactly if there is no such name.
    pub fn next_name(&self, after: Option<&Name>) -> Option<&Name>
        ensures { option_copied result ≡ next_name self.now.state.objects (option_copied after.entry) }
    {
        self.places.next_name(after)
    }

    /// The number of objects.
    pub fn count(&self) -> usize
        ensures { result ≡ map.len self.now.state.objects }
    {
        self.places.count()
    }

    /// The sum of the objects' sizes and of the lengths of all their attributes' names and values, or `u64::MAX` if it is
    /// greater.
    pub fn usage(&self) -> u64
        ensures { result ≡ min (usage self.now.state.objects) (2 ^ 64 - 1) }
    {
        self.places.usage()
    }

    /// The version of the last entry.
    pub fn head(&self) -> Version
        ensures { result ≡ self.now.state.head }
    {
        self.head
    }

    /// The last epoch started.
    pub fn les(&self) -> u32
        ensures { result ≡ self.now.state.les }
    {
        self.les
    }

    /// No entry up to this version can be taken back.
    pub fn firm(&self) -> Version
        ensures { result ≡ self.now.state.firm }
    {
        self.firm
    }

    /// The version before the log's first entry.
    pub fn tail(&self) -> Version
        ensures { result ≡ self.now.state.tail }
    {
        self.tail
    }

    /// Whether the shard is being filled.
    pub fn partial(&self) -> bool
        ensures { result ≡ self.now.state.partial }
    {
        self.partial
    }

    /// The number of the log's entries.
    pub fn log_len(&self) -> usize
        ensures { result ≡ length self.now.state.log }
    {
        self.log.len()
    }

    /// What the log says of the entry with this index, oldest first. `None` exactly if the log has no more than `i`.
    pub fn logged(&self, i: usize) -> Option<&Logged>
        ensures none { IsNone result ↔ (length self.now.state.log ≤ i) }
        ensures value { IfSome result (λ what. (d : Meant) → logged_of what.now (get_or self.now.state.log i d).undo ≡ get_or self.now.state.log i d) }
    {
        if i < self.log.len() {
            Some(&self.log[i].entry.what)
        } else {
            None
        }
    }

    /// What takes the entry with this index, oldest first, back.
    pub fn undo_of(&self, i: usize) -> &Undo
        requires { i < length self.now.state.log }
        ensures { (d : Meant) → undo_of result.now ≡ (get_or self.now.state.log i d).undo }
    {
        &self.log[i].entry.undo
    }

    /// Whether the shard can go back to a version: exactly if it is the tail or a logged version, and not below `firm`.
    pub fn holds(&self, version: Version) -> bool
        ensures { result ≡ holds self.now.state version }
    {
        if !self.firm.is_up_to(&version) {
            return false;
        }
        if self.tail.is_same(&version) {
            return true;
        }
        self.tail.is_up_to(&version) && is_logged(&self.log, &version)
    }

    /// Goes back to a version that is held: the newest entry is taken back first. It takes no memory, and `NoMemory` does not
    /// come.
    pub fn undo_to(&mut self, version: Version) -> Result<(), UndoFault>
        requires { self.old.state.partial ≡ false }
        ensures ok { OnOk result (self.new ≡ stepped self.old (Control (Back version))) }
        ensures past { OnOk result (GivesThePast self.old self.new version) }
        ensures no_undo { IsErr result ↔ (holds self.old.state version ≡ false) }
        ensures fault { IfErr result (λ fault. fault ≡ UndoFault.NoUndo version) }
        ensures unchanged { OnErr result (self.new ≡ self.old) }
    {
        if !self.holds(version) {
            return Err(UndoFault::NoUndo { at: version });
        }
        self.back(&version);
        Ok(())
    }

    /// Takes the entries after a version back, the newest first.
    fn back(&mut self, version: &Version)
        requires { fits self.old.geometry self.old.state (Control (Back version.now)) ≡ true }
        ensures value { self.new ≡ stepped self.old (Control (Back version.now)) }
        ensures stripes { 0 < self.old.geometry.k * self.old.geometry.unit }
    {
        let cut = front_len(&self.log, version);
        while self.log.len() > cut {
            self.undo_newest();
        }
        self.head = *version;
        self.phase = Phase::Running;
    }

    /// An object is brought.
    fn put(&mut self, name: &Name, size: u32, bytes: &Bytes, attrs: &Pairs) -> Result<(), NoMemory>
        requires { fits self.old.geometry self.old.state (Recover (Put name.now size bytes.now attrs.now)) ≡ true }
        ensures ok { OnOk result (self.new ≡ stepped self.old (Recover (Put name.now size bytes.now attrs.now))) }
        ensures unchanged { OnErr result (self.new ≡ self.old) }
    {
        let held = brought(self.alloc, size, bytes, attrs)?;
        make_place(&mut self.places, self.alloc, name)?;
        self.places.set(name, Some(held));
        self.phase = Phase::Running;
        Ok(())
    }

    /// Does a step, or leaves the state as it was.
    pub fn apply(&mut self, step: &Step) -> Result<(), StepFault>
        ensures ok { OnOk result (self.new ≡ stepped self.old (step_of step.now)) }
        ensures misfit { (result ≡ Err StepFault.Misfit) ↔ (fits self.old.geometry self.old.state (step_of step.now) ≡ false) }
        ensures unchanged { OnErr result (self.new ≡ self.old) }
    {
        if !self.fits(step) {
            return Err(StepFault::Misfit);
        }
        match self.perform(step) {
            Ok(()) => Ok(()),
            Err(_) => Err(StepFault::NoMemory),
        }
    }

    /// Whether a step may come now.
    pub fn fits(&self, step: &Step) -> bool
        ensures { result ≡ fits self.now.geometry self.now.state (step_of step.now) }
    {
        match head_of(step) {
            Some(head) => {
                self.follows(head.version, head.prior)
                    && fits_entry(self.geometry, step, self.object(head.name))
            }
            None => self.fits_other(step),
        }
    }

    /// Whether a step that is no entry may come now.
    fn fits_other(&self, step: &Step) -> bool
        requires { is_entry (step_of step.now) ≡ false }
        ensures { result ≡ fits self.now.geometry self.now.state (step_of step.now) }
    {
        match step {
            Step::Back(version) => !self.partial && self.holds(*version),
            Step::Started(epoch) => !self.partial && self.les < *epoch,
            Step::Firm(version) => !self.partial && self.holds(*version),
            Step::Trim(version) => {
                !self.partial && (self.knows(version) && version.is_up_to(&self.firm))
            }
            Step::Partial => true,
            Step::Put {
                size,
                bytes,
                attrs,
                ..
            } => {
                self.partial && fits_put(self.geometry, *size, bytes.as_slice(), attrs.as_slice())
            }
            Step::Drop(_) => self.partial,
            Step::Clear => self.partial,
            Step::Reset(version, _) => self.partial && version.seq < SEQ_LIMIT,
            _ => unreachable!(),
        }
    }

    /// Whether an entry's version follows the head.
    fn follows(&self, version: &Version, prior: &Version) -> bool
        ensures { (name : List ℕ) (change : Change) → result ≡ follows self.now.state (record { version = version.now; prior = prior.now; name = name; change = change }) }
    {
        !self.partial && (prior.is_same(&self.head) && is_next(version, prior))
    }

    /// Whether a version is the tail or a logged one.
    fn knows(&self, version: &Version) -> bool
        ensures { result ≡ is_known self.now.state version.now }
    {
        if self.tail.is_same(version) {
            return true;
        }
        self.tail.is_up_to(version) && is_logged(&self.log, version)
    }

    /// Does a step that fits.
    fn perform(&mut self, step: &Step) -> Result<(), NoMemory>
        requires { fits self.old.geometry self.old.state (step_of step.now) ≡ true }
        ensures ok { OnOk result (self.new ≡ stepped self.old (step_of step.now)) }
        ensures unchanged { OnErr result (self.new ≡ self.old) }
    {
        match head_of(step) {
            Some(head) => self.enter(step, head.version, head.prior, head.name, head.kind),
            None => self.perform_other(step),
        }
    }

    /// Does a step that fits and is no entry.
    fn perform_other(&mut self, step: &Step) -> Result<(), NoMemory>
        requires other { is_entry (step_of step.now) ≡ false }
        requires fits { fits self.old.geometry self.old.state (step_of step.now) ≡ true }
        ensures ok { OnOk result (self.new ≡ stepped self.old (step_of step.now)) }
        ensures unchanged { OnErr result (self.new ≡ self.old) }
    {
        match step {
            Step::Put {
                name,
                size,
                bytes,
                attrs,
            } => self.put(name, *size, bytes, attrs),
            _ => {
                self.rule(step);
                Ok(())
            }
        }
    }

    /// Does a step that fits and takes no memory.
    fn rule(&mut self, step: &Step)
        requires plain { takes_none (step_of step.now) ≡ true }
        requires fits { fits self.old.geometry self.old.state (step_of step.now) ≡ true }
        ensures { self.new ≡ stepped self.old (step_of step.now) }
    {
        match step {
            Step::Back(version) => self.back(version),
            Step::Started(epoch) => self.start_epoch(*epoch),
            Step::Firm(version) => self.settle(version),
            Step::Trim(version) => self.trim(version),
            Step::Partial => self.begin_copy(),
            Step::Drop(name) => self.forget(name),
            Step::Clear => self.clear(),
            Step::Reset(version, epoch) => self.end_copy(version, *epoch),
            _ => unreachable!(),
        }
    }

    /// An epoch is started.
    fn start_epoch(&mut self, epoch: u32)
        requires { fits self.old.geometry self.old.state (Control (Started epoch)) ≡ true }
        ensures { self.new ≡ stepped self.old (Control (Started epoch)) }
    {
        self.les = epoch;
        self.phase = Phase::Running;
    }

    /// Nothing takes the entries up to a version back any more.
    fn settle(&mut self, version: &Version)
        requires { fits self.old.geometry self.old.state (Control (Firm version.now)) ≡ true }
        ensures { self.new ≡ stepped self.old (Control (Firm version.now)) }
    {
        settle_to(&mut self.log, version);
        self.firm = *version;
        self.phase = Phase::Running;
    }

    /// The log begins after a version.
    fn trim(&mut self, version: &Version)
        requires { fits self.old.geometry self.old.state (Control (Trim version.now)) ≡ true }
        ensures { self.new ≡ stepped self.old (Control (Trim version.now)) }
    {
        let cut = front_len(&self.log, version);
        sweep_front(&mut self.places, &self.log, cut);
        take_off(&mut self.log, cut);
        self.tail = *version;
        self.phase = Phase::Running;
    }

    /// From now on the shard is filled anew.
    fn begin_copy(&mut self)
        ensures { self.new ≡ stepped self.old (Control Partial) }
    {
        self.log.clear();
        self.partial = true;
        self.phase = Phase::Running;
    }

    /// There is no object with this name.
    fn forget(&mut self, name: &Name)
        requires { fits self.old.geometry self.old.state (Recover (DropName name.now)) ≡ true }
        ensures { self.new ≡ stepped self.old (Recover (DropName name.now)) }
    {
        empty_place(&mut self.places, name);
        self.phase = Phase::Running;
    }

    /// There are no objects.
    fn clear(&mut self)
        requires { fits self.old.geometry self.old.state (Recover Clear) ≡ true }
        ensures { self.new ≡ stepped self.old (Recover Clear) }
    {
        self.places = Places::new(self.alloc);
        self.phase = Phase::Running;
    }

    /// The shard is whole, at a version and an epoch.
    fn end_copy(&mut self, version: &Version, epoch: u32)
        requires { fits self.old.geometry self.old.state (Recover (Reset version.now epoch)) ≡ true }
        ensures { self.new ≡ stepped self.old (Recover (Reset version.now epoch)) }
    {
        let version = *version;
        self.tail = version;
        self.firm = version;
        self.head = version;
        self.les = epoch;
        self.partial = false;
        self.phase = Phase::Running;
    }

    /// Does an entry's step that fits.
    fn enter(
        &mut self,
        step: &Step,
        version: &Version,
        prior: &Version,
        name: &Name,
        kind: Kind,
    ) -> Result<(), NoMemory>
        requires entry { step_of step.now ≡ Log (record { version = version.now; prior = prior.now; name = name.now; change = change_in (step_of step.now) }) }
        requires kind { kind_of kind ≡ kind_of_change (change_in (step_of step.now)) }
        requires fits { fits self.old.geometry self.old.state (step_of step.now) ≡ true }
        ensures ok { OnOk result (self.new ≡ stepped self.old (step_of step.now)) }
        ensures unchanged { OnErr result (self.new ≡ self.old) }
    {
        self.log.reserve(1)?;
        let logged_name = name.copy(self.alloc)?;
        make_place(&mut self.places, self.alloc, name)?;
        let (undo, spare) = change_place(&mut self.places, self.alloc, self.geometry, step, name)?;
        let what = Logged {
            version: *version,
            prior: *prior,
            name: logged_name,
            kind,
        };
        let entry = Entry { what, undo };
        match self.log.push(Record { entry, spare }) {
            Ok(()) => {}
            Err(_) => unreachable!(),
        }
        self.head = *version;
        self.phase = Phase::Running;
        Ok(())
    }

    /// Takes the newest entry back. It takes no memory.
    fn undo_newest(&mut self)
        requires { 0 < length self.old.state.log }
        ensures { UndoesNewest self.old self.new }
    {
        match self.log.pop() {
            None => unreachable!(),
            Some(record) => {
                let Record { entry, spare } = record;
                restore_place(
                    &mut self.places,
                    self.geometry,
                    entry.what.name,
                    entry.undo,
                    spare,
                );
            }
        }
    }
}

/// Whether a version comes right after another.
fn is_next(version: &Version, prior: &Version) -> bool
    ensures { result ≡ (version.now.seq == prior.now.seq + 1
        && (nat_lt version.now.seq seq_limit && (nat_le 1 version.now.epoch && nat_le prior.now.epoch version.now.epoch))) }
{
    prior.seq < version.seq
        && (version.seq - prior.seq == 1
            && (version.seq < SEQ_LIMIT && (1 <= version.epoch && prior.epoch <= version.epoch)))
}

/// The object that a `Put` brings.
fn brought(alloc: Global, size: u32, bytes: &Bytes, attrs: &Pairs) -> Result<Held, NoMemory>
    requires { map.is_sorted (slice_cmp nat_cmp) attrs.now ≡ true }
    ensures { IfOk result (λ held. held ≡ brought size bytes.now attrs.now) }
{
    let bytes = Bytes::from_slice(alloc, bytes.as_slice())?;
    let attrs = Attrs::from_pairs(alloc, attrs)?;
    Ok(Held { bytes, size, attrs })
}
