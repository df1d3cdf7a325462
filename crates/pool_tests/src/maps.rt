//! What the tests of a pool's map share.
ghost use Rattle.std.specs.Prelude.{◌≡◌, IfOk, OnOk};
ghost use Rattle.ec_model.specs.Codes.{CodeRows};
ghost use Rattle.ec_code.specs.Refusals.{IsAccepted, IsCodeOf};
ghost use Rattle.ec_code.specs.Shapes.{HasShape};
ghost use Rattle.plugin_reg.specs.Canonical.{IsWritable};
ghost use Rattle.plugin_reg.specs.Boxes.{HaveEachPlugin};
ghost use Rattle.pool_tests.specs.Ready.{HasThree};

use ec_code::{Code, Profile, Shape};
use ec_words::{Mask, Version};
use lrc_layers::Lrc;
use plugin_reg::{has_each_plugin, open_profile, read_profiles_are_writable};
use pool_map::{MapFault, PoolMap};
use rig_disk::Rig;
use rs_van::RsVan;
use shec_matrix::Shec;
use std::alloc::Global;
use std::test::Fail;

// The text of a new pool of k=2, m=1 with chunks of 32 bytes, by the tables of docs/FORMAT.md: the header, a record of 108 bytes
// and a closed gate.
pub(crate) const FIRST_TEXT: &[u8; 138] =
    b"\x4fECPOOLM\x01\x10\x02\x03\0\0\0\x20\0\0\0\0\0\0\0\0\x4f\0\0\0\x6c\x01\0\0\0\x4d\
k=2\nm=1\nmin_size=2\nplugin=jerasure\nstripe_unit=32\ntechnique=reed_sol_van\nw=8\n\
\x02\0\0\0\x01\0\x07\x03\0\0\0\x01\0\x07\0\0\0\0\0\0\0\0\0\0\0\0\0";

/// A box of each plugin.
pub(crate) fn boxes(alloc: Global) -> Result<Vec<Box<dyn Code>>, Fail> {
    let mut codes: Vec<Box<dyn Code>> = Vec::new(alloc);
    codes.push(Box::new(alloc, RsVan::new())?)?;
    codes.push(Box::new(alloc, Lrc::new())?)?;
    codes.push(Box::new(alloc, Shec::new())?)?;
    Ok(codes)
}

/// A new pool's map, with a profile and the shape of its code.
fn made_of<R: Rig>(
    alloc: Global,
    rig: &mut R,
    profile: &Profile,
    shape: Shape,
) -> Result<PoolMap, MapFault>
    requires here { R.is_here rig.old 16 }
    requires accepted { IsAccepted profile.now }
    requires writable { IsWritable profile.now }
    requires shape { (code : CodeRows) × IsCodeOf profile.now code × HasShape code shape.k shape.n shape.lead }
    requires three { shape.n ≡ 3 }
    ensures { IfOk result (λ map. HasThree (R.is_here rig.new) (R.reads rig.new) (R.images rig.new (R.clock rig.new)) map) }
{
    let map = PoolMap::make(alloc, rig, profile, shape)?;
    Ok(map)
}

/// A new pool's map by these boxes.
fn made_with<R: Rig>(
    alloc: Global,
    rig: &mut R,
    codes: &mut [Box<dyn Code>],
) -> Result<PoolMap, MapFault>
    requires here { R.is_here rig.old 16 }
    requires boxes { HaveEachPlugin (λ box. plugin_name box) codes.old }
    ensures { IfOk result (λ map. HasThree (R.is_here rig.new) (R.reads rig.new) (R.images rig.new (R.clock rig.new)) map) }
{
    read_profiles_are_writable();
    match open_profile(alloc, b"k=2,m=1,stripe_unit=32", codes) {
        Ok(opened) => {
            let shape = codes[opened.index].shape();
            if shape.n != 3 {
                return Err(MapFault::BadMap);
            }
            made_of(alloc, rig, &opened.profile, shape)
        }
        Err(_) => Err(MapFault::BadMap),
    }
}

/// A new pool's map.
pub(crate) fn made<R: Rig>(alloc: Global, rig: &mut R) -> Result<Result<PoolMap, MapFault>, Fail>
    requires { R.is_here rig.old 16 }
    ensures { IfOk result (λ made. IfOk made (λ map.
        HasThree (R.is_here rig.new) (R.reads rig.new) (R.images rig.new (R.clock rig.new)) map)) }
{
    let mut codes = boxes(alloc)?;
    if !has_each_plugin(&codes) {
        return Err(Fail::from(MapFault::BadMap));
    }
    Ok(made_with(alloc, rig, &mut codes))
}

/// What a test looks at: the last epoch, the slots that joined it, and the marks.
pub(crate) type Seen = (u32, u16, u16);

/// What is seen of a map.
pub(crate) fn seen_of(map: &PoolMap) -> Seen {
    match map.intervals().as_slice().last() {
        Some(last) => match last.alive {
            Some((joined, _)) => (last.epoch, joined.0, map.marked().0),
            None => (last.epoch, 0, map.marked().0),
        },
        None => (0, 0, map.marked().0),
    }
}

/// What is seen of the map that a slot holds, or why it holds none.
pub(crate) fn loaded<R: Rig>(alloc: Global, rig: &mut R) -> Result<Result<Seen, MapFault>, Fail> {
    let mut codes = boxes(alloc)?;
    if !has_each_plugin(&codes) {
        return Err(Fail::from(MapFault::Worn));
    }
    match PoolMap::load(alloc, rig, &mut codes) {
        Ok((map, _)) => Ok(Ok(seen_of(&map))),
        Err(fault) => Ok(Err(fault)),
    }
}

/// Begins an interval with slots 0 and 1 up.
pub(crate) fn begun<R: Rig>(rig: &mut R, map: &mut PoolMap) -> Result<(), MapFault>
    requires { HasThree (R.is_here rig.old) (R.reads rig.old) (R.images rig.old (R.clock rig.old)) map.old }
    ensures { OnOk result (HasThree (R.is_here rig.new) (R.reads rig.new) (R.images rig.new (R.clock rig.new)) map.new) }
{
    map.begin(rig, Mask(3))?;
    Ok(())
}

/// The same, and it goes alive with slot 0.
pub(crate) fn gone_alive<R: Rig>(rig: &mut R, map: &mut PoolMap) -> Result<(), MapFault>
    requires { HasThree (R.is_here rig.old) (R.reads rig.old) (R.images rig.old (R.clock rig.old)) map.old }
{
    map.begin(rig, Mask(3))?;
    map.alive(rig, Mask(1), Version { epoch: 1, seq: 5 })
}

/// Marks slot 2 as down, or takes the mark away.
pub(crate) fn marked<R: Rig>(rig: &mut R, map: &mut PoolMap, down: bool) -> Result<(), MapFault>
    requires { HasThree (R.is_here rig.old) (R.reads rig.old) (R.images rig.old (R.clock rig.old)) map.old }
    ensures { OnOk result (HasThree (R.is_here rig.new) (R.reads rig.new) (R.images rig.new (R.clock rig.new)) map.new) }
{
    map.mark(rig, 2, down)?;
    Ok(())
}
