//! The bytes of each slot's two areas.
ghost use Rattle.std.specs.Prelude.{◌≡◌, ◌≤◌, [], ℕ, List, length, replicate, set, take, IfOk, OnOk, OnErr};
ghost use Rattle.rig_disk.specs.Disk.{IsOther, written};
ghost use Rattle.rig_disk.specs.SlotAreas.{Pair, image_of};

use crate::limits::SLOTS;
use ec_words::{Bytes, NoMemory};
use std::alloc::Global;
use std::marker::Model;
use std::mem;

/// The bytes of each slot's two areas. A contract sees the first areas in the order of the slots, and the second ones.
#[derive(Drop)]
pub struct Areas {
    firsts: Vec<Bytes>,
    seconds: Vec<Bytes>,
}

impl Model for Areas {
    ghost Value = { Pair };

    ghost view = { λ r. (r.firsts.items, r.seconds.items) };

    ghost invariant = { λ r. (length r.firsts.items ≡ 17) × (length r.seconds.items ≡ 17) };
}

impl Areas {
    /// All areas are empty.
    pub fn new(alloc: Global) -> Result<Areas, NoMemory>
        ensures { IfOk result (λ areas. (s a : ℕ) → image_of areas s a ≡ []) }
    {
        Ok(Areas {
            firsts: empty_areas(alloc)?,
            seconds: empty_areas(alloc)?,
        })
    }

    /// The bytes of an area.
    pub fn bytes(&self, slot: u8, area: u8) -> &[u8]
        requires slot { slot ≤ 16 }
        requires area { area ≤ 1 }
        ensures { result.now ≡ image_of self.now slot area }
    {
        if area == 0 {
            self.firsts[usize::from(slot)].as_slice()
        } else {
            self.seconds[usize::from(slot)].as_slice()
        }
    }

    /// Puts other bytes into an area, and hands out those that were there.
    pub fn replace(&mut self, slot: u8, area: u8, bytes: Bytes) -> Bytes
        requires slot { slot ≤ 16 }
        requires area { area ≤ 1 }
        ensures value { result ≡ image_of self.old slot area }
        ensures put { image_of self.new slot area ≡ bytes }
        ensures others { (s a : ℕ) → IsOther slot area s a
            → image_of self.new s a ≡ image_of self.old s a }
    {
        if area == 0 {
            mem::replace(&mut self.firsts[usize::from(slot)], bytes)
        } else {
            mem::replace(&mut self.seconds[usize::from(slot)], bytes)
        }
    }

    /// A copy of all areas.
    pub fn copy(&self, alloc: Global) -> Result<Areas, NoMemory>
        ensures { IfOk result (λ copy. copy ≡ self.now) }
    {
        Ok(Areas {
            firsts: copy_areas(alloc, &self.firsts)?,
            seconds: copy_areas(alloc, &self.seconds)?,
        })
    }

    /// Writes bytes into an area from `at` on, over what is there and behind it.
    pub fn write(
        &mut self,
        alloc: Global,
        slot: u8,
        area: u8,
        at: u64,
        bytes: &[u8],
    ) -> Result<(), NoMemory>
        requires slot { slot ≤ 16 }
        requires area { area ≤ 1 }
        requires at { at ≤ length (image_of self.old slot area) }
        ensures ok { OnOk result (image_of self.new slot area
            ≡ written at bytes.now (image_of self.old slot area)) }
        ensures unchanged { OnErr result (image_of self.new slot area ≡ image_of self.old slot area) }
        ensures others { (s a : ℕ) → IsOther slot area s a
            → image_of self.new s a ≡ image_of self.old s a }
    {
        let mut there = self.replace(slot, area, Bytes::new(alloc)).into_vec();
        let done = overwrite(&mut there, at, bytes);
        self.replace(slot, area, Bytes::of(there));
        done
    }

    /// Leaves the first `len` bytes of an area.
    pub fn shorten(&mut self, alloc: Global, slot: u8, area: u8, len: u64)
        requires slot { slot ≤ 16 }
        requires area { area ≤ 1 }
        ensures cut { image_of self.new slot area ≡ take len (image_of self.old slot area) }
        ensures others { (s a : ℕ) → IsOther slot area s a
            → image_of self.new s a ≡ image_of self.old s a }
    {
        let mut there = self.replace(slot, area, Bytes::new(alloc)).into_vec();
        there.truncate(len as usize);
        self.replace(slot, area, Bytes::of(there));
    }

    /// Changes one byte of an area, if it is there.
    pub fn set(&mut self, alloc: Global, slot: u8, area: u8, at: u64, byte: u8)
        requires slot { slot ≤ 16 }
        requires area { area ≤ 1 }
        ensures set { image_of self.new slot area ≡ set (image_of self.old slot area) at byte }
        ensures others { (s a : ℕ) → IsOther slot area s a
            → image_of self.new s a ≡ image_of self.old s a }
    {
        let there = self.replace(slot, area, Bytes::new(alloc));
        self.replace(slot, area, with_byte(there, at, byte));
    }
}

/// Changes one byte, if it is there.
pub fn with_byte(bytes: Bytes, at: u64, byte: u8) -> Bytes
    ensures { result ≡ set bytes at byte }
{
    let mut list = bytes.into_vec();
    if at < list.len() as u64 {
        list[at as usize] = byte;
    }
    Bytes::of(list)
}

// Writes over what is there and behind it.
fn overwrite(there: &mut Vec<u8>, at: u64, bytes: &[u8]) -> Result<(), NoMemory>
    requires { at ≤ length there.old.items }
    ensures ok { OnOk result (there.new.items ≡ written at bytes.now there.old.items) }
    ensures unchanged { OnErr result (there.new.items ≡ there.old.items) }
{
    let at = at as usize;
    let inside = bytes.len().min(there.len() - at);
    there.extend_from_slice(&bytes[inside..])?;
    there[at..at + inside].copy_from_slice(&bytes[..inside]);
    Ok(())
}

fn copy_areas(alloc: Global, areas: &Vec<Bytes>) -> Result<Vec<Bytes>, NoMemory>
    ensures { IfOk result (λ copy. copy.items ≡ areas.now.items) }
{
    let mut copy = Vec::new(alloc);
    for area in 0..areas.len() {
        copy.push(Bytes::from_slice(alloc, areas[area].as_slice())?)?;
    }
    Ok(copy)
}

fn empty_areas(alloc: Global) -> Result<Vec<Bytes>, NoMemory>
    ensures { IfOk result (λ areas. areas.items ≡ replicate 17 []) }
{
    let mut areas = Vec::new(alloc);
    for _ in 0..SLOTS {
        areas.push(Bytes::new(alloc))?;
    }
    Ok(areas)
}
