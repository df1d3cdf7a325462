//! What a new map's slot holds, in memory and in files, and which profiles are not read back.
use crate::maps::{FIRST_TEXT, loaded, made, marked};
use ec_code::{Code, Layer, Layers, Mapping, Plugin, Profile};
use lrc_layers::Lrc;
use plugin_reg::{RegFault, print_profile, read_any};
use pool_map::{MAP_SLOT, MapFault, PoolMap};
use rig_disk::{FileRig, MemRig, Rig};
use std::alloc::Global;
use std::fs;
use std::rt::Runtime;
use std::test::Fail;

/// How many intervals and which marks a new map has.
fn new_map<R: Rig>(alloc: Global, rig: &mut R) -> Result<(usize, u16), Fail> {
    rig.place(MAP_SLOT)?;
    let map = made(alloc, rig)??;
    Ok((map.intervals().as_slice().len(), map.marked().0))
}

#[test]
fn a_new_map_has_the_bytes_of_the_format(rt: HostRuntime) -> Result<(), Fail> {
    let mut rig = MemRig::new(rt.alloc())?;
    let made = new_map(rt.alloc(), &mut rig)?;
    assert!(rt; made == (1, 0) && rig.bytes(MAP_SLOT, 0) == FIRST_TEXT.as_slice());
    Ok(())
}

/// Whether the file of a new map's slot has the bytes of the format.
fn is_in_its_file(rt: HostRuntime) -> Result<bool, Fail> {
    let mut rig = FileRig::open(rt, rt.alloc(), "map_test")?;
    let made = new_map(rt.alloc(), &mut rig)?;
    let text = fs::read(&rt, "map_test/slot.16/area.0")?;
    Ok(made == (1, 0) && text.as_slice() == FIRST_TEXT.as_slice())
}

/// Makes a map, and marks slot 2 as down.
fn marked_map<R: Rig>(alloc: Global, rig: &mut R) -> Result<(), Fail> {
    rig.place(MAP_SLOT)?;
    let mut map = made(alloc, rig)??;
    marked(rig, &mut map, true)?;
    Ok(())
}

/// Whether the map of a rig that was opened again is the one that was marked.
fn is_marked<R: Rig>(alloc: Global, rig: &mut R) -> Result<bool, Fail> {
    rig.place(MAP_SLOT)?;
    Ok(PoolMap::there(rig) == Ok(true) && loaded(alloc, rig)? == Ok((1, 7, 4)))
}

/// Whether a map that is marked is so where its files are opened again.
fn stays_marked(rt: HostRuntime) -> Result<bool, Fail> {
    let mut rig = FileRig::open(rt, rt.alloc(), "map_test")?;
    marked_map(rt.alloc(), &mut rig)?;
    let mut again = FileRig::open(rt, rt.alloc(), "map_test")?;
    is_marked(rt.alloc(), &mut again)
}

#[test]
fn a_map_lives_in_a_real_file(rt: HostRuntime) -> Result<(), Fail> {
    assert!(rt; is_in_its_file(rt)?);
    assert!(rt; stays_marked(rt)?);
    fs::remove_dir_all(&rt, "map_test")?;
    Ok(())
}

// The profile of the plugin lrc with the mapping `DDx` and the layer `DDc`. No text gives it, since a mapping has `D` and `_`
// alone.
fn odd_profile() -> Profile {
    let none = Layer {
        first: [0; 16],
        len: 0,
    };
    let mut mapping = [0; 16];
    mapping[..3].copy_from_slice(b"DDx");
    let mut layer = none;
    layer.first[..3].copy_from_slice(b"DDc");
    layer.len = 3;
    let mut each = [none; 16];
    each[0] = layer;
    Profile {
        plugin: Plugin::Lrc,
        k: None,
        m: None,
        c: None,
        l: None,
        w: None,
        technique: None,
        mapping: Some(Mapping {
            first: mapping,
            len: 3,
            data_chunks: 2,
        }),
        layers: Some(Layers { count: 1, each }),
        stripe_unit: 32,
        min_size: None,
    }
}

#[test]
fn a_profile_with_another_mark_is_accepted_and_not_read_back(rt: HostRuntime) -> Result<(), Fail> {
    let profile = odd_profile();
    let mut code = Lrc::new();
    if profile.plugin != Plugin::Lrc || !code.named("lrc") {
        return Err(Fail::from(MapFault::BadMap));
    }
    code.init(&profile)?;
    let lines = print_profile(rt.alloc(), &profile, code.shape())?;
    assert!(rt;
        matches!(
            read_any(rt.alloc(), lines.as_slice()),
            Err(RegFault::Profile(_))
        )
    );
    Ok(())
}
