//! The stores of a pool's slots, and the bytes of their objects.
ghost use Rattle.std.specs.Prelude.{◌≡◌, ◌⊎◌, ◌≤◌, ◌<◌, ◌↔◌, ◌+◌, ℕ, length, min, Some, None, Err, IfErr, IfSome, OnOk, OnErr};
ghost use Rattle.std.specs.Borrow.{sem};
ghost use Rattle.std.specs.Option.{option_copied, option_copied_mut};
ghost use Rattle.rig_disk.specs.Faults.{count_limit};
ghost use Rattle.rig_disk.specs.Frame.{Adds};
ghost use Rattle.slot_journal.specs.Reading.{OnlyReads};
ghost use Rattle.shard_store.specs.Told.{IsAccepted};
ghost use Rattle.shard_store.specs.Faults.{HasFetchCause};
ghost use Rattle.shard_store.specs.Ranges.{IsRange, IsToldRange, LacksRange, object_bytes};
ghost use Rattle.shard_store.specs.Stored.{told_in, is_stuck, IsAtRest};

use crate::Store;
use arrayvec::ArrayVec;
use ec_words::Name;
use rig_disk::Rig;
use std::marker::Model;
use thiserror::Error;

/// Why bytes are not fetched.
#[derive(Clone, Copy, Debug, PartialEq, Eq, Error)]
pub enum FetchFault {
    /// There is no such shard, name or range.
    #[error("no such bytes")]
    NoSuch,
    /// A call of the rig failed, and the slot's count of faults rose.
    #[error("failed")]
    Failed,
}

/// For each slot below 16 its store, if it has one, and how many bytes were fetched on it.
#[derive(Drop)]
pub struct Shelf {
    stores: ArrayVec<Option<Store>, 16>,
    fetched: [u64; 16],
}

impl Model for Shelf {
    ghost use Rattle.std.specs.Prelude.{◌≡◌, length};
    ghost use Rattle.shard_store.specs.Shelved.{Shelved};

    ghost Value = { Shelved };

    ghost use Rattle.shard_store.specs.ShelfCode.{shelved_code};

    ghost coded = { shelved_code };

    ghost view = { λ s. record { stores = s.stores.items; fetched = s.fetched } };

    ghost invariant = { λ s. length s.stores.items ≡ 16 };
}

impl Shelf {
    ghost use Rattle.shard_store.specs.Lending.{LendsStore};
    ghost use Rattle.shard_store.specs.OnSlot.{AreOwn};
    ghost use Rattle.shard_store.specs.Shelves.{store_at, fetched_on, KeepsStores, Counts};
    ghost use Rattle.shard_store.specs.Stored.{slot_in};
    ghost use Rattle.shard_store.specs.Ranges.{range_of};
    ghost use Rattle.shard_store.specs.declared.shelf.FetchFault.TheVariants.{NoSuch, Failed as FetchFailed};

    /// A shelf without stores.
    pub fn new() -> Shelf
        ensures stores { (slot : ℕ) → store_at result slot ≡ None }
        ensures fetched { (slot : ℕ) → fetched_on result slot ≡ 0 }
        ensures own { AreOwn result }
    {
        Shelf {
            stores: ArrayVec::from_array_in(
                (),
                [
                    None, None, None, None, None, None, None, None, None, None, None, None, None,
                    None, None, None,
                ],
            ),
            fetched: [0; 16],
        }
    }

    /// A slot gets a store, in the place of one that it may have.
    pub fn put(&mut self, slot: u8, store: Store)
        requires slot { slot < 16 }
        requires own { slot_in store ≡ slot }
        ensures value { store_at self.new slot ≡ Some store }
        ensures others { KeepsStores self.old self.new slot }
        ensures own { AreOwn self.old → AreOwn self.new }
    {
        self.set(slot, Some(store));
    }

    /// Drops a slot's store.
    pub fn drop_slot(&mut self, slot: u8)
        requires { slot < 16 }
        ensures value { store_at self.new slot ≡ None }
        ensures others { KeepsStores self.old self.new slot }
        ensures own { AreOwn self.old → AreOwn self.new }
    {
        self.set(slot, None);
    }

    fn set(&mut self, slot: u8, store: Option<Store>)
        requires { slot < 16 }
        ensures value { store_at self.new slot ≡ store }
        ensures others { KeepsStores self.old self.new slot }
    {
        self.stores[slot as usize] = store;
    }

    /// A slot's store: `None` exactly if no store was put there since it was last dropped. From slot 16 on no slot has one.
    pub fn get(&self, slot: u8) -> Option<&Store>
        requires { slot < 16 }
        ensures value { option_copied result ≡ store_at self.now slot }
        ensures none { (s : ℕ) → 16 ≤ s → store_at self.now s ≡ None }
    {
        self.stores[slot as usize].as_ref()
    }

    /// A slot's store, to be changed: `None` exactly if no store was put there since it was last dropped. The shelf has at the
    /// slot what the store ends as, and all else is as it was.
    pub fn get_mut(&mut self, slot: u8) -> Option<&mut Store>
        requires { slot < 16 }
        ensures* writes_back { sem 𝓛 (LendsStore self.entry slot result) }
        ensures value { option_copied_mut result ≡ store_at self.old slot }
    {
        match self.stores.get_mut(slot as usize) {
            None => None,
            Some(place) => place.as_mut(),
        }
    }

    /// How many bytes were fetched on a slot; the count stands still at the largest number of a word.
    pub fn fetched(&self, slot: u8) -> u64
        requires { slot < 16 }
        ensures { result ≡ fetched_on self.now slot }
    {
        self.fetched[slot as usize]
    }

    /// Fills `into` with the bytes of an object of a slot's shard from `at` on, and counts them.
    pub fn fetch<R: Rig>(
        &mut self,
        _rig: &mut R,
        slot: u8,
        name: &Name,
        at: u32,
        into: &mut [u8],
    ) -> Result<(), FetchFault>
        requires slot { slot < 16 }
        requires accepted { IfSome (store_at self.old slot) (λ store. IsAccepted (told_in store)) }
        requires here { IfSome (store_at self.old slot) (λ store. R.is_here _rig.old (slot_in store)) }
        requires settled { IfSome (store_at self.old slot) (λ store. (is_stuck store → ⊥)
            → IsAtRest (R.reads _rig.old) (R.images _rig.old (R.clock _rig.old)) store) }

        // The bytes are those of the shard that the told steps lead to.
        ensures ok { OnOk result (IsToldRange (R.reads _rig.old) (R.images _rig.old (R.clock _rig.old)) (store_at self.old slot)
            name.now at (length into.old) into.new) }
        ensures no_such { (result ≡ Err FetchFault.NoSuch)
            ↔ LacksRange (object_bytes (store_at self.old slot) name.now) at (length into.old) }
        ensures faults { IfErr result (λ fault. (fault ≡ NoSuch) ⊎ (fault ≡ FetchFailed)) }
        ensures only_if_fault { HasFetchCause (R.faults _rig.old slot) (R.faults _rig.new slot) result }
        ensures unchanged { OnErr result ((self.new ≡ self.old) × (into.new ≡ into.old)) }

        ensures counted { OnOk result (fetched_on self.new slot ≡ min (fetched_on self.old slot + length into.old) count_limit) }
        ensures others { Counts self.old self.new slot }
        ensures read { Adds (length into.old) (R.bytes_read _rig.old slot) (R.bytes_read _rig.new slot) }
        ensures kept { OnlyReads R.is_here R.reads R.said R.clock R.images R.faults R.syncs R.bytes_written R.bytes_read
            slot _rig.old _rig.new }
    {
        self.fetch_known(slot, name, at, into)
    }

    /// The same from the bytes that the store has at hand. It has all of them.
    fn fetch_known(
        &mut self,
        slot: u8,
        name: &Name,
        at: u32,
        into: &mut [u8],
    ) -> Result<(), FetchFault>
        requires slot { slot < 16 }
        requires accepted { IfSome (store_at self.old slot) (λ store. IsAccepted (told_in store)) }
        ensures ok { OnOk result (range_of (object_bytes (store_at self.old slot) name.now) at (length into.old) ≡ Some into.new) }
        ensures no_such { OnErr result (range_of (object_bytes (store_at self.old slot) name.now) at (length into.old) ≡ None) }
        ensures faults { IfErr result (λ fault. fault ≡ NoSuch) }
        ensures counted { OnOk result (fetched_on self.new slot ≡ min (fetched_on self.old slot + length into.old) count_limit) }
        ensures others { Counts self.old self.new slot }
        ensures unchanged { OnErr result ((self.new ≡ self.old) × (into.new ≡ into.old)) }
    {
        match &self.stores[slot as usize] {
            None => return Err(FetchFault::NoSuch),
            Some(store) => {
                if !copy_object(store, name, at, into) {
                    return Err(FetchFault::NoSuch);
                }
            }
        }
        let at = slot as usize;
        self.fetched[at] = self.fetched[at].saturating_add(into.len() as u64);
        Ok(())
    }
}

/// Fills `into` with the bytes of an object from `at` on, or leaves it if the object has too few.
fn copy_object(store: &Store, name: &Name, at: u32, into: &mut [u8]) -> bool
    requires { IsAccepted (told_in store.now) }
    ensures { IsRange (object_bytes (Some store.now) name.now) at into.old into.new result }
{
    match store.state().object(name) {
        None => false,
        Some(held) => copy_range(held.bytes.as_slice(), at as usize, into),
    }
}

/// Fills `into` with the bytes from `at` on, or leaves it if they are too few.
fn copy_range(bytes: &[u8], at: usize, into: &mut [u8]) -> bool
    ensures { IsRange (Some bytes.now) at into.old into.new result }
{
    if at > bytes.len() || into.len() > bytes.len() - at {
        return false;
    }
    into.copy_from_slice(&bytes[at..at + into.len()]);
    true
}
