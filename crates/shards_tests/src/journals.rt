//! A journal's text, its crashes, and where a text is refused.
ghost use Rattle.std.specs.Prelude.{◌≤◌, length, OnOk};

use rig_disk::{FileRig, MemRig, Rig};
use slot_journal::{Header, Journal, JournalFault, Owner, read_body_len, record_prefix};
use std::alloc::Global;
use std::fs;
use std::rt::Runtime;
use std::test::Fail;

// The example of docs/FORMAT.md: slot 0 of a pool of k=2, m=1 with chunks of 32 bytes, and one record.
const TEXT: [u8; 35] = [
    0x4f, 0x45, 0x43, 0x53, 0x48, 0x41, 0x52, 0x44, 0x01, 0x00, 0x02, 0x03, 0x00, 0x00, 0x00, 0x20,
    0x00, 0x00, 0x00, 0x00, 0x00, 0x00, 0x00, 0x00, 0x4f, 0x00, 0x00, 0x00, 0x05, 0x07, 0x00, 0x00,
    0x00, 0x01, 0x00,
];

const BODY: [u8; 5] = [7, 0, 0, 0, 1];

const NEXT_BODY: [u8; 5] = [7, 0, 0, 0, 2];

// From the format: on an empty area `make` has twelve calls, which are a sync, the length, the gate and a sync, then a cut,
// four writes and a sync, and then the gate and a sync. `place` comes before them.
const MADE: u64 = 13;

// A commit's calls: three writes and a sync, then the gate and a sync.
const COMMITTED: u64 = 6;

// The same calls, and a read of the gate, are those of a `make` over an open text.
const MADE_AGAIN: u64 = 13;

fn head() -> [u8; 23] {
    let header = Header {
        owner: Owner::Shard,
        format: 1,
        slot: 0,
        k: 2,
        n: 3,
        unit: 32,
        serial: 0,
    };
    header.encode()
}

/// Whether a head is that of slot 16 in a pool of k=4, n=6.
fn is_read(head: &[u8; 23]) -> bool {
    match Header::decode(head) {
        Some(
            Header {
                owner: Owner::Map,
                format: 1,
                slot: 16,
                k: 4,
                n: 6,
                unit: 0x0102_0304,
                serial: 0x0506_0708_090a_0b0c,
            },
        ) => true,
        _ => false,
    }
}

// From the format: the letters, then one byte each, then four and eight.
#[test]
fn a_head_is_read_back(rt: HostRuntime) {
    let header = Header {
        owner: Owner::Map,
        format: 1,
        slot: 16,
        k: 4,
        n: 6,
        unit: 0x0102_0304,
        serial: 0x0506_0708_090a_0b0c,
    };
    let mut head = header.encode();
    let letters = *b"ECPOOLM\x01\x10\x04\x06\x01\x02\x03\x04\x05\x06\x07\x08\x09\x0a\x0b\x0c";
    assert!(rt; head == letters && is_read(&head));
    head[7] = 2;
    assert!(rt; Header::decode(&head).is_none() && Header::decode(&[b'E'; 23]).is_none());
}

// From the format: four bytes, the highest first, from 1 to 2^26, and a body that is there.
#[test]
fn a_length_is_read_where_it_is_one(rt: HostRuntime) {
    let rows: [([u8; 4], u64, usize); 5] = [
        ([0, 0, 1, 2], 262, 258),
        ([0, 0, 1, 2], 261, 0),
        ([0, 0, 0, 0], 100, 0),
        ([4, 0, 0, 0], 1 << 40, 1 << 26),
        ([4, 0, 0, 1], 1 << 40, 0),
    ];
    for (bytes, rest_len, len) in rows {
        assert!(rt;
            read_body_len(&bytes, rest_len).unwrap_or(0) == len,
            "at {bytes:?}"
        );
    }
    assert!(rt; read_body_len(&[0, 0, 1], 100).is_none());
    assert!(rt; record_prefix(0x0102_0304) == [0x4f, 1, 2, 3, 4]);
}

/// Makes a journal in slot 0. Whether its text is that of the format, and its room what that leaves.
fn is_made(rig: &mut MemRig) -> Result<bool, Fail>
    requires { ⟦<MemRig as Rig>⟧.is_here rig.old 0 }
    ensures { OnOk result (⟦<MemRig as Rig>⟧.is_here rig.new 0) }
{
    let journal = Journal::make(rig, 0, &head(), &BODY)?;
    Ok(rig.bytes(0, 0) == TEXT.as_slice() && journal.room() == (1 << 40) - 35)
}

#[test]
fn a_new_journal_has_the_bytes_of_the_format(rt: HostRuntime) -> Result<(), Fail> {
    let mut rig = MemRig::new(rt.alloc())?;
    rig.place(0)?;
    assert!(rt; is_made(&mut rig)? && rig.syncs(0) == 4);
    assert!(rt; is_made(&mut rig)?);
    Ok(())
}

#[test]
fn a_journal_is_made_over_another_text(rt: HostRuntime) -> Result<(), Fail> {
    let mut rig = MemRig::new(rt.alloc())?;
    rig.place(0)?;
    rig.write_at(0, 0, 0, &[0x4f; 100])?;
    assert!(rt; is_made(&mut rig)?);
    Ok(())
}

/// Makes a journal in slot 0, and commits a second body. Whether that was done; where it was not, a second try is refused.
fn is_committed(rig: &mut MemRig) -> Result<bool, Fail>
    ensures { OnOk result (⟦<MemRig as Rig>⟧.is_here rig.new 0) }
{
    rig.place(0)?;
    let mut journal = Journal::make(rig, 0, &head(), &BODY)?;
    if journal.commit(rig, &NEXT_BODY).is_ok() {
        return Ok(journal.room() == (1 << 40) - 45);
    }
    match journal.commit(rig, &NEXT_BODY) {
        Err(JournalFault::Spent) => Ok(false),
        _ => Err(Fail::from(JournalFault::Failed)),
    }
}

/// What a slot's bodies are, as a number of two digits: the last byte of the last one, and how many there are. 0 where the slot
/// holds no text.
fn found(alloc: Global, rig: &mut MemRig) -> Result<u64, Fail>
    requires { ⟦<MemRig as Rig>⟧.is_here rig.old 0 }
{
    match Journal::load(alloc, rig, 0, &head()) {
        Ok((_, bodies)) => match bodies.as_slice() {
            [.., last] => {
                let byte = last.as_slice().last().unwrap_or(&0);
                Ok(*byte as u64 * 10 + bodies.as_slice().len() as u64)
            }
            [] => Ok(0),
        },
        Err(JournalFault::BadSlot { .. }) => Ok(0),
        Err(fault) => Err(Fail::from(fault)),
    }
}

/// Whether each crash leaves `new`, or before that was done one of `old`.
fn leaves(alloc: Global, rig: &MemRig, done: bool, new: u64, old: &[u64]) -> Result<bool, Fail>
    requires { ⟦<MemRig as Rig>⟧.is_here rig.now 0 }
{
    for pick in 0..4 {
        let mut left = rig.crash(alloc, pick)?;
        let found = found(alloc, &mut left)?;
        if found != new && (done || !old.contains(&found)) {
            return Ok(false);
        }
    }
    Ok(true)
}

#[test]
fn a_crash_in_a_commit_leaves_its_body_whole_or_not_at_all(rt: HostRuntime) -> Result<(), Fail> {
    for done in 0..=COMMITTED {
        let mut rig = MemRig::new(rt.alloc())?;
        rig.stop_after(MADE + done);
        let committed = is_committed(&mut rig)?;
        let is_one = leaves(rt.alloc(), &rig, committed, 22, &[11])?;
        assert!(rt; is_one && committed == (done == COMMITTED), "at {done}");
    }
    Ok(())
}

/// Makes a journal in slot 0 over another. Whether the second was made.
fn is_made_again(rig: &mut MemRig) -> Result<bool, Fail>
    ensures { OnOk result (⟦<MemRig as Rig>⟧.is_here rig.new 0) }
{
    rig.place(0)?;
    let _journal = Journal::make(rig, 0, &head(), &BODY)?;
    Ok(Journal::make(rig, 0, &head(), &NEXT_BODY).is_ok())
}

#[test]
fn a_crash_in_a_make_leaves_the_old_text_or_none_or_the_new_one(
    rt: HostRuntime,
) -> Result<(), Fail> {
    for done in 0..=MADE_AGAIN {
        let mut rig = MemRig::new(rt.alloc())?;
        rig.stop_after(MADE + done);
        let made = is_made_again(&mut rig)?;
        let is_one = leaves(rt.alloc(), &rig, made, 21, &[0, 11])?;
        assert!(rt; is_one && made == (done == MADE_AGAIN), "at {done}");
    }
    Ok(())
}

/// Where slot 0 is refused with these bytes, or 1000 where it is not.
fn refused_at(alloc: Global, bytes: &[u8]) -> Result<u64, Fail>
    requires { length bytes.now ≤ 1000 }
{
    let mut rig = MemRig::new(alloc)?;
    rig.place(0)?;
    rig.write_at(0, 0, 0, bytes)?;
    match Journal::load(alloc, &mut rig, 0, &head()) {
        Ok(_) => Ok(1000),
        Err(JournalFault::BadSlot { at }) => Ok(at),
        Err(fault) => Err(Fail::from(fault)),
    }
}

#[test]
fn a_header_is_refused_at_its_first_other_byte(rt: HostRuntime) -> Result<(), Fail> {
    for place in 0..24 {
        let mut text = TEXT;
        text[place] ^= 0x10;
        let changed = refused_at(rt.alloc(), &text)? == place as u64;
        let short = refused_at(rt.alloc(), &TEXT[..place])? == place as u64;
        assert!(rt; changed && short, "at {place}");
    }
    Ok(())
}

// From the format: a length's first byte where it is no length, and the end where a gate is missing.
#[test]
fn a_text_is_refused_where_its_records_fail(rt: HostRuntime) -> Result<(), Fail> {
    let lengths: [([u8; 4], u64); 5] = [
        ([0, 0, 0, 0], 25),
        ([4, 0, 0, 1], 25),
        ([0, 0, 0, 7], 25),
        ([0, 0, 0, 6], 35),
        ([0, 0, 0, 5], 1000),
    ];
    for (len, at) in lengths {
        let mut text = TEXT;
        text[25..29].copy_from_slice(&len);
        assert!(rt; refused_at(rt.alloc(), &text)? == at, "at {len:?}");
    }
    for (end, at) in [(24, 24), (25, 25), (28, 25), (29, 25), (31, 25), (34, 34)] {
        assert!(rt;
            refused_at(rt.alloc(), &TEXT[..end % 35])? == at,
            "up to {end}"
        );
    }
    let mut closed = TEXT;
    closed[24] = 0x4e;
    assert!(rt; refused_at(rt.alloc(), &closed)? == 1000);
    Ok(())
}

/// Makes a journal in a folder.
fn make_in_files(rt: HostRuntime) -> Result<(), Fail> {
    let mut rig = FileRig::open(rt, rt.alloc(), "journal_test")?;
    rig.place(0)?;
    Journal::make(&mut rig, 0, &head(), &BODY)?;
    Ok(())
}

/// Loads that journal, and commits a second body. How many bodies it had before.
fn commit_in_files(rt: HostRuntime) -> Result<usize, Fail> {
    let mut rig = FileRig::open(rt, rt.alloc(), "journal_test")?;
    rig.place(0)?;
    let (mut journal, bodies) = Journal::load(rt.alloc(), &mut rig, 0, &head())?;
    if journal.room() >= 10 {
        journal.commit(&mut rig, &NEXT_BODY)?;
    }
    Ok(bodies.as_slice().len())
}

#[test]
fn a_journal_lives_in_real_files(rt: HostRuntime) -> Result<(), Fail> {
    make_in_files(rt)?;
    let text = fs::read(&rt, "journal_test/slot.00/area.0")?;
    assert!(rt; text.as_slice() == TEXT.as_slice());
    let one = commit_in_files(rt)?;
    let two = commit_in_files(rt)?;
    assert!(rt; one == 1 && two == 2);
    fs::remove_dir_all(&rt, "journal_test")?;
    Ok(())
}
