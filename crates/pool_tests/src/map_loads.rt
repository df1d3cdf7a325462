//! What is loaded from a map's text.
use crate::maps::{FIRST_TEXT, Seen, loaded};
use ec_words::{Bytes, NoMemory, put_bytes, put_u32};
use pool_map::{MAP_SLOT, MapFault, PoolMap};
use rig_disk::{MemRig, Rig};
use std::alloc::Global;
use std::test::Fail;

/// Writes a text to the map's slot.
fn hold(rig: &mut MemRig, text: &[u8]) -> Result<(), Fail> {
    rig.place(MAP_SLOT)?;
    if text.len() > 1000 || rig.bytes(MAP_SLOT, 0).len() > 0 {
        return Err(Fail::from(MapFault::Worn));
    }
    rig.write_at(MAP_SLOT, 0, 0, text)?;
    Ok(())
}

/// Whether there is a pool, and the last epoch of the map that is loaded.
type Found = (Result<bool, MapFault>, Result<u32, MapFault>);

/// What is found in a slot.
fn found_in(alloc: Global, rig: &mut MemRig) -> Result<Found, Fail> {
    let there = PoolMap::there(rig);
    Ok((there, loaded(alloc, rig)?.map(|seen| seen.0)))
}

/// What is found where the slot holds a text.
fn found(alloc: Global, text: &[u8]) -> Result<Found, Fail> {
    let mut rig = MemRig::new(alloc)?;
    hold(&mut rig, text)?;
    found_in(alloc, &mut rig)
}

/// Whether this is found where one byte of a new map's text is another, and only these first bytes are there.
fn is_found(alloc: Global, len: usize, at: usize, byte: u8, wanted: Found) -> Result<bool, Fail> {
    let mut text = *FIRST_TEXT;
    if len > text.len() || at >= text.len() {
        return Ok(false);
    }
    text[at] = byte;
    Ok(found(alloc, &text[..len])? == wanted)
}

#[test]
fn there_is_a_pool_where_a_text_is_as_long_as_a_header(rt: HostRuntime) -> Result<(), Fail> {
    let mut none = MemRig::new(rt.alloc())?;
    let no_pool = (Ok(false), Err(MapFault::NoPool));
    assert!(rt; found_in(rt.alloc(), &mut none)? == no_pool);
    let rows = [
        // No text, one that is cut off, a closed gate, a header alone, and a map.
        (0, 0, 0x4f, no_pool),
        (23, 0, 0x4f, no_pool),
        (138, 0, 0, no_pool),
        (24, 0, 0x4f, (Ok(true), Err(MapFault::BadMap))),
        (138, 0, 0x4f, (Ok(true), Ok(1))),
    ];
    for (len, at, byte, wanted) in rows {
        assert!(rt; is_found(rt.alloc(), len, at, byte, wanted)?, "{len}, {at}");
    }
    Ok(())
}

#[test]
fn a_header_that_does_not_agree_is_a_bad_map(rt: HostRuntime) -> Result<(), Fail> {
    let bad = (Ok(true), Err(MapFault::BadMap));
    // The letters, the format, the slot, k, n, the unit and the serial; then the profile's k.
    for at in [1, 8, 9, 10, 11, 15, 23, 36] {
        assert!(rt; is_found(rt.alloc(), 138, at, 9, bad)?, "at {at}");
    }
    Ok(())
}

/// What is found where a call of the slot fails.
fn found_failing(alloc: Global, nth: u64) -> Result<Found, Fail> {
    let mut one = MemRig::new(alloc)?;
    hold(&mut one, FIRST_TEXT)?;
    one.fail_at(MAP_SLOT, nth)?;
    let there = PoolMap::there(&mut one);
    Ok((there, loaded_failing(alloc, nth)?))
}

fn loaded_failing(alloc: Global, nth: u64) -> Result<Result<u32, MapFault>, Fail> {
    let mut rig = MemRig::new(alloc)?;
    hold(&mut rig, FIRST_TEXT)?;
    rig.fail_at(MAP_SLOT, nth)?;
    Ok(loaded(alloc, &mut rig)?.map(|seen| seen.0))
}

#[test]
fn a_slot_that_fails_is_neither_there_nor_loaded(rt: HostRuntime) -> Result<(), Fail> {
    let failed = Err(MapFault::Failed);
    // The sync, the length and the read of a header; then those of the text.
    for nth in 1..=6 {
        let found = found_failing(rt.alloc(), nth)?;
        assert!(rt;
            found.0.is_err() == (nth <= 3) && found.1 == failed,
            "at {nth}"
        );
    }
    Ok(())
}

/// Adds a record to a text, and the closed gate behind it.
fn add_record(text: &mut Bytes, body: &[u8]) -> Result<(), NoMemory> {
    let len = u32::try_from(body.len()).unwrap_or(0);
    put_bytes(text, &[0x4f])?;
    put_u32(text, len)?;
    put_bytes(text, body)?;
    put_bytes(text, &[0])
}

/// The text of a new map with one more record.
fn text_with(alloc: Global, body: &[u8]) -> Result<Bytes, NoMemory> {
    let mut text = Bytes::from_slice(alloc, &FIRST_TEXT[..137])?;
    add_record(&mut text, body)?;
    Ok(text)
}

/// What is loaded from it.
fn loaded_with(alloc: Global, body: &[u8]) -> Result<Result<Seen, MapFault>, Fail> {
    let text = text_with(alloc, body)?;
    let mut rig = MemRig::new(alloc)?;
    hold(&mut rig, text.as_slice())?;
    loaded(alloc, &mut rig)
}

// Whether a map with these steps is loaded so.
fn is_loaded_as(alloc: Global, body: &str, wanted: Result<Seen, MapFault>) -> Result<bool, Fail> {
    Ok(loaded_with(alloc, body.as_bytes())? == wanted)
}

#[test]
fn steps_are_loaded_where_they_fit(rt: HostRuntime) -> Result<(), Fail> {
    let bad = Err(MapFault::BadMap);
    let rows: [(&str, Result<Seen, MapFault>); 16] = [
        // An interval that begins, and goes alive; a mark, and one that is taken away.
        ("\x02\0\0\0\x02\0\x03", Ok((2, 0, 0))),
        (
            "\x02\0\0\0\x02\0\x03\x03\0\0\0\x02\0\x01\0\0\0\x01\0\0\0\0\0\0\0\x05",
            Ok((2, 1, 0)),
        ),
        ("\x04\x02\x01", Ok((1, 7, 4))),
        ("\x04\x02\x01\x04\x02\0", Ok((1, 7, 0))),
        // A second profile, a kind that is none, and a step that is cut off.
        ("\x01\0\0\0\x01a", bad),
        ("\x05\0\0\0\x01", bad),
        ("\x02\0\0\0\x02\0", bad),
        // An epoch that was, one that skips one, and a slot that is no position.
        ("\x02\0\0\0\x01\0\x07", bad),
        ("\x02\0\0\0\x03\0\x07", bad),
        ("\x02\0\0\0\x02\0\x08", bad),
        // An interval that is alive, one that did not begin, a joined slot that is not up, and none.
        ("\x03\0\0\0\x01\0\x07\0\0\0\0\0\0\0\0\0\0\0\0", bad),
        (
            "\x02\0\0\0\x02\0\x03\x03\0\0\0\x03\0\x01\0\0\0\0\0\0\0\0\0\0\0\0",
            bad,
        ),
        (
            "\x02\0\0\0\x02\0\x03\x03\0\0\0\x02\0\x04\0\0\0\0\0\0\0\0\0\0\0\0",
            bad,
        ),
        (
            "\x02\0\0\0\x02\0\x03\x03\0\0\0\x02\0\0\0\0\0\0\0\0\0\0\0\0\0\0",
            bad,
        ),
        // A mark of a slot that is no position, and one that is neither down nor up.
        ("\x04\x03\x01", bad),
        ("\x04\x02\x02", bad),
    ];
    for (body, wanted) in rows {
        assert!(rt; is_loaded_as(rt.alloc(), body, wanted)?, "{body:?}");
    }
    Ok(())
}
