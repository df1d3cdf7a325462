//! Words: what takes memory is made, and what is printed.
use ec_words::{
    Bytes, Interval, Intervals, Mask, Name, Version, put_bytes, put_u32, put_u64, read_hex,
    take_bytes, take_u32, take_u64,
};
use std::alloc::Global;
use std::test::Fail;

/// Whether bytes that are copied and grown are there.
fn comes_back(alloc: Global) -> Result<bool, Fail> {
    let mut copy = Bytes::from_slice(alloc, b"a")?;
    copy.extend(b"b")?;
    Ok(copy.as_slice() == b"ab".as_slice() && copy.into_vec().as_slice() == b"ab".as_slice())
}

/// Whether a text spells these bytes.
fn spells(alloc: Global, text: &str, bytes: &[u8]) -> Result<bool, Fail> {
    Ok(read_hex(alloc, text.as_bytes())?.as_slice() == bytes)
}

/// Whether a text is a name with an equal copy.
fn is_name(alloc: Global, text: &[u8]) -> Result<bool, Fail> {
    let name = Name::read(alloc, text)?;
    let copy = name.copy(alloc)?;
    Ok(name.as_slice() == text && copy == name)
}

#[test]
fn bytes_and_names_come_back(rt: HostRuntime) -> Result<(), Fail> {
    let alloc = rt.alloc();
    assert!(rt; comes_back(alloc)?);
    assert!(rt; spells(alloc, "0102", &[1, 2])? && spells(alloc, "fF9a", &[255, 154])?);
    assert!(rt; is_name(alloc, b"!~")? && is_name(alloc, &[b'n'; 255])?);
    Ok(())
}

/// Whether a name comes before another.
fn ascends(alloc: Global, low: &str, high: &str) -> Result<bool, Fail> {
    let low = Name::read(alloc, low.as_bytes())?;
    Ok(low < Name::read(alloc, high.as_bytes())?)
}

#[test]
fn names_are_ordered_by_bytes(rt: HostRuntime) -> Result<(), Fail> {
    for (low, high) in [("!", "A"), ("A", "a"), ("a", "aa"), ("aa", "b")] {
        assert!(rt; ascends(rt.alloc(), low, high)?, "at {low}");
    }
    Ok(())
}

fn interval(epoch: u32) -> Interval {
    Interval {
        epoch,
        up: Mask(7),
        alive: None,
    }
}

/// Whether the last of two intervals goes alive.
fn last_goes_alive(alloc: Global) -> Result<bool, Fail> {
    let mut intervals = Intervals::new(alloc);
    intervals.push(interval(1))?;
    intervals.push(interval(2))?;
    let base = Version { epoch: 1, seq: 4 };
    intervals.set_last_alive(Mask(3), base);
    let last = intervals.pop();
    Ok(
        last.is_some_and(|last| last.epoch == 2 && last.alive == Some((Mask(3), base)))
            && intervals.as_slice().len() == 1,
    )
}

#[test]
fn the_last_interval_goes_alive(rt: HostRuntime) -> Result<(), Fail> {
    assert!(rt; last_goes_alive(rt.alloc())?);
    Ok(())
}

/// Whether a mask is printed as this text.
fn prints(alloc: Global, bits: u16, text: &str) -> Result<bool, Fail> {
    Ok(format!(in alloc; "{}", Mask(bits))?.as_str() == text)
}

// By hand: the weights of the bits that are set.
#[test]
fn a_mask_is_printed_as_its_positions(rt: HostRuntime) -> Result<(), Fail> {
    let rows = [
        (0, "-"),
        (1, "0"),
        (0b1011, "0,1,3"),
        (0x8400, "10,15"),
        (0x3, "0,1"),
    ];
    for (bits, text) in rows {
        assert!(rt; prints(rt.alloc(), bits, text)?, "at {bits}");
    }
    Ok(())
}

fn put_all(out: &mut Bytes) -> Result<(), Fail> {
    put_u32(out, 0x0102_0304)?;
    put_u64(out, 5)?;
    put_bytes(out, b"ab")?;
    Ok(())
}

/// Whether the values that were put are taken from their places.
fn are_taken(text: &[u8]) -> bool {
    take_u32(text, 0) == Ok(0x0102_0304)
        && take_u64(text, 4) == Ok(5)
        && take_bytes(text, 12, 2) == Ok(b"ab".as_slice())
}

// By hand: 0x01020304 and 0x05 in eight bytes.
#[test]
fn what_is_put_is_taken(rt: HostRuntime) -> Result<(), Fail> {
    let mut out = Bytes::new(rt.alloc());
    put_all(&mut out)?;
    let text: [u8; 14] = [1, 2, 3, 4, 0, 0, 0, 0, 0, 0, 0, 5, b'a', b'b'];
    assert!(rt; out.as_slice() == text.as_slice() && are_taken(out.as_slice()));
    Ok(())
}

/// Whether a version is below another, by its order and by its calls.
fn is_below(low: &Version, high: &Version) -> bool {
    *low < *high
        && low.is_up_to(high)
        && !high.is_up_to(low)
        && !low.is_same(high)
        && low.is_same(low)
}

// From the rule: the epoch counts first.
#[test]
fn versions_are_ordered_by_epoch_and_then_by_number(rt: HostRuntime) {
    let rows: [(u32, u64, u32, u64); 3] = [(0, 0, 0, 1), (1, u64::MAX, 2, 0), (2, 3, 2, 4)];
    for (epoch, seq, next_epoch, next_seq) in rows {
        let low = Version { epoch, seq };
        let high = Version {
            epoch: next_epoch,
            seq: next_seq,
        };
        assert!(rt; is_below(&low, &high), "at {epoch} {seq}");
    }
}
