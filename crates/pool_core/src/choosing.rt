//! What the shards of a pool's stores say, and what the pool comes to by it.
ghost use Rattle.std.specs.Prelude.{◌≡◌, ◌↔◌, ◌<◌, ℕ, Some, IsTrue, is_some};
ghost use Rattle.std.specs.Option.{option_map};
ghost use Rattle.ec_model.specs.Codes.{HasPosition};
ghost use Rattle.auth_log.specs.Choice.{said_in};
ghost use Rattle.auth_log.specs.Meanings.{state_of};
ghost use Rattle.map_model.specs.States.{kept};
ghost use Rattle.pool_map.specs.Pool.{map_of};
ghost use Rattle.shard_store.specs.Shelves.{store_at};
ghost use Rattle.shard_store.specs.Stored.{told_in};
ghost use Rattle.shard_store.specs.Told.{IsAccepted};
ghost use Rattle.shard_store.specs.declared.store.Store.{Store as Stored};
ghost use Rattle.pool_moves.specs.Choosing.{AreUp, ComeTo, StoreHolds, store_info};
ghost use Rattle.pool_moves.specs.Ready.{AreOwn};
ghost use Rattle.pool_core.specs.Pools.{layout_of};

use crate::pool::Pool;
use auth_log::{Info, State, Survey};
use ec_code::Code;
use ec_words::{Mask, Version};
use shard_store::{Shelf, Store};

/// What the slots that are up come to: the version that they give, and the state of the pool.
#[derive(Clone, Copy)]
pub(crate) struct Found {
    pub(crate) version: Version,
    pub(crate) state: State,
}

/// What the shard of a store says of itself.
fn info_of(store: &Store) -> Info
    requires { IsAccepted (told_in store.now) }
    ensures { result ≡ store_info store.now }
{
    let state = store.state();
    Info {
        les: state.les(),
        head: state.head(),
        partial: state.partial(),
    }
}

/// What the shard of a slot says, if the slot has a store.
fn info_at(shelf: &Shelf, p: u8) -> Option<Info>
    requires p { p < 16 }
    requires accepted { (q : ℕ) (store : Stored) → store_at shelf.now q ≡ Some store → IsAccepted (told_in store) }
    ensures { result ≡ option_map store_info (store_at shelf.now p) }
{
    match shelf.get(p) {
        Some(store) => Some(info_of(store)),
        None => None,
    }
}

/// What the shards of a shelf say.
fn infos_of(shelf: &Shelf) -> [Option<Info>; 16]
    requires { (p : ℕ) (store : Stored) → store_at shelf.now p ≡ Some store → IsAccepted (told_in store) }
    ensures { (p : ℕ) → p < 16 → said_in result p ≡ option_map store_info (store_at shelf.now p) }
{
    let mut infos = [None; 16];
    for p in 0..16u8 {
        infos[p as usize] = info_at(shelf, p);
    }
    infos
}

/// Whether a slot has a store.
fn is_stored(shelf: &Shelf, p: u8) -> bool
    requires { p < 16 }
    ensures { result ≡ is_some (store_at shelf.now p) }
{
    shelf.get(p).is_some()
}

/// The slots that have a store.
fn stored_slots(shelf: &Shelf) -> Mask
    ensures { AreUp shelf.now result.0 }
{
    let mut up = 0u16;
    for p in 0..16u8 {
        if is_stored(shelf, p) {
            up |= 1u16 << p;
        }
    }
    Mask(up)
}

/// Whether the shard of a slot's store holds a version.
fn holds_version(shelf: &Shelf, p: u8, version: &Version) -> bool
    requires p { p < 16 }
    requires accepted { (q : ℕ) (store : Stored) → store_at shelf.now q ≡ Some store → IsAccepted (told_in store) }
    ensures { IsTrue result ↔ StoreHolds shelf.now p version.now }
{
    match shelf.get(p) {
        Some(store) => store.state().holds(*version),
        None => false,
    }
}

/// The slots whose shard holds a version.
fn holders(shelf: &Shelf, version: &Version) -> Mask
    requires { (p : ℕ) (store : Stored) → store_at shelf.now p ≡ Some store → IsAccepted (told_in store) }
    ensures { (p : ℕ) → HasPosition result.0 p ↔ StoreHolds shelf.now p version.now }
{
    let mut holding = 0u16;
    for p in 0..16u8 {
        if holds_version(shelf, p, version) {
            holding |= 1u16 << p;
        }
    }
    Mask(holding)
}

impl Pool {
    /// The slots that are up.
    pub(crate) fn up(&self) -> Mask
        ensures { AreUp self.now.shelf result.0 }
    {
        stored_slots(&self.shelf)
    }

    /// What the slots that are up come to, by the intervals of the map.
    pub(crate) fn found(&self, code: &dyn Code, up: Mask) -> Found
        requires code { (meaning code.now).n ≡ self.now.n }
        requires same_n { (map_of self.now.map).n ≡ self.now.n }
        requires up { AreUp self.now.shelf up.0 }
        requires own { AreOwn (layout_of self.now) self.now.shelf }
        requires accepted { (p : ℕ) (store : Stored) → store_at self.now.shelf p ≡ Some store → IsAccepted (told_in store) }
        ensures { (holding : ℕ) × ComeTo (meaning code.now) (kept (map_of self.now.map).state) self.now.shelf up.0 self.now.min_size
            result.version holding (state_of result.state) }
    {
        let infos = infos_of(&self.shelf);
        let survey = Survey::of(self.map.intervals(), &infos, up);
        let holding = holders(&self.shelf, &survey.version);
        Found {
            version: survey.version,
            state: survey.state(self.map.intervals(), code, holding, self.min_size),
        }
    }
}
