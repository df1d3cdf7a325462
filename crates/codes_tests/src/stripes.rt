//! Sizes of chunks, touched stripes, the chunks of positions, and objects from them.
ghost use Rattle.std.specs.Prelude.{◌≤◌};

use crate::given_codes::{four_and_two, layered};
use ec_code::Code;
use ec_words::{Bytes, Geometry, Mask, NoMemory};
use std::alloc::Global;
use std::test::Fail;
use stripe_map::{
    Chunks, DecodeFault, MAX_OBJECT, add_position, chunk_size, decode_object, encode_object,
    touched,
};

// By hand: four chunks of 32 bytes are 128. 4,000 bytes are 31 times 128 and 32 more, so 32 times 32 in each chunk.
#[test]
fn a_chunk_is_rounded_up(rt: HostRuntime) {
    assert!(rt;
        chunk_size(4, 4000) == 1024
            && chunk_size(4, 1) == 32
            && chunk_size(4, 128) == 32
            && chunk_size(4, 129) == 64
            && chunk_size(4, 0) == 0
    );
}

// Whether the stripes of 64 bytes that a range touches are these.
fn touches(off: u32, len: u32, first: u32, count: u32) -> bool {
    touched(Geometry { k: 2, unit: 32 }, off, len) == (first, count)
}

// By hand: (2^32 - 1) / 64 is 67,108,863, and (2^33 - 3) / 64 is 134,217,727.
#[test]
fn a_byte_past_the_stripe_touches_the_next(rt: HostRuntime) {
    assert!(rt; touches(0, 0, 0, 0) && touches(70, 0, 0, 0));
    assert!(rt; touches(0, 64, 0, 1) && touches(0, 65, 0, 2));
    assert!(rt; touches(63, 1, 0, 1) && touches(63, 2, 0, 2) && touches(64, 64, 1, 1));
    assert!(rt; touches(u32::MAX, u32::MAX, 67_108_863, 67_108_865));
}

// Gives position `p` a chunk: whether it then has it, and the positions with a chunk are these.
fn is_set(chunks: &mut Chunks, p: u8, chunk: Bytes, first: u8, mask: u16) -> bool {
    if p > 15 {
        return false;
    }
    chunks.set(p, chunk);
    match chunks.get(p) {
        Some(bytes) => bytes == [first].as_slice() && chunks.mask() == Mask(mask),
        None => false,
    }
}

fn set_four(alloc: Global, chunks: &mut Chunks) -> Result<bool, NoMemory> {
    Ok(
        is_set(chunks, 0, Bytes::from_slice(alloc, b"a")?, b'a', 1)
            && is_set(chunks, 15, Bytes::from_slice(alloc, b"b")?, b'b', 0x8001)
            && is_set(chunks, 3, Bytes::from_slice(alloc, b"c")?, b'c', 0x8009)
            && is_set(chunks, 15, Bytes::from_slice(alloc, b"d")?, b'd', 0x8009),
    )
}

// From the rule: bit p is set if position p has a chunk.
#[test]
fn a_chunk_is_kept_at_its_position(rt: HostRuntime) -> Result<(), Fail> {
    let mut chunks = Chunks::new();
    assert!(rt; chunks.mask() == Mask(0) && set_four(rt.alloc(), &mut chunks)?);
    assert!(rt; chunks.get(0) == Some(b"a") && chunks.get(1).is_none());
    assert!(rt; chunks.have_length(1) && !chunks.have_length(2));
    assert!(rt; chunks.take(15).is_some() && chunks.take(15).is_none());
    assert!(rt; chunks.mask() == Mask(0x0009));
    Ok(())
}

// By hand: the object is 1, 2, .., 8 in two stripes of two units of 2 bytes. Data position 0 is the sum of the positions 1
// and 2, and data position 1 is there.
#[test]
fn positions_add_up_to_the_object(rt: HostRuntime) {
    let mut rows = [[0u8; 16]; 16];
    rows[0] = [0, 1, 1, 0, 0, 0, 0, 0, 0, 0, 0, 0, 0, 0, 0, 0];
    rows[1] = [0, 1, 0, 0, 0, 0, 0, 0, 0, 0, 0, 0, 0, 0, 0, 0];
    let g = Geometry { k: 2, unit: 2 };
    let mut object = [0u8; 8];
    add_position(&rows, g, 2, 2, &[1 ^ 3, 2 ^ 4, 5 ^ 7, 6 ^ 8], &mut object);
    assert!(rt; object == [2u8, 6, 0, 0, 2, 14, 0, 0]);
    add_position(&rows, g, 1, 2, &[3, 4, 7, 8], &mut object);
    assert!(rt; object == [1u8, 2, 3, 4, 5, 6, 7, 8]);
}

// 32 bytes each of 1, 2, 3 and 4.
fn quarters() -> [u8; 128] {
    let mut bytes = [0u8; 128];
    for i in 0..128u8 {
        bytes[i as usize] = 1 + i / 32;
    }
    bytes
}

// The list of a position at a unit of 32 bytes.
fn list_of(alloc: Global, code: &dyn Code, bytes: &[u8], p: u8) -> Result<Bytes, NoMemory> {
    let shape = code.shape();
    let g = Geometry {
        k: shape.k,
        unit: 32,
    };
    if bytes.len() > MAX_OBJECT || shape.n <= p {
        return Ok(Bytes::new(alloc));
    }
    encode_object(alloc, code, g, bytes, p)
}

// Whether a list is this number of times one byte, then this number of zeros, and no more.
fn is_run(list: &[u8], count: usize, byte: u8, zeros: usize) -> bool {
    for i in 0..list.len() {
        let expected = if i < count { byte } else { 0 };
        if list[i] != expected {
            return false;
        }
    }
    count < 1000 && zeros < 1000 && list.len() == count + zeros
}

// Whether the list of a position is such a run.
fn has_run(
    alloc: Global,
    code: &dyn Code,
    bytes: &[u8],
    p: u8,
    count: usize,
    byte: u8,
    zeros: usize,
) -> Result<bool, NoMemory> {
    Ok(is_run(
        list_of(alloc, code, bytes, p)?.as_slice(),
        count,
        byte,
        zeros,
    ))
}

// By hand: 1 + 2 + 3 + 4 is 4, and 1 + 70 * 2 + 143 * 3 + 200 * 4 is 1 + 140 + 140 + 7, which is 6.
#[test]
fn each_position_has_its_chunks(rt: HostRuntime) -> Result<(), Fail> {
    let alloc = rt.alloc();
    let code = four_and_two().expect(&rt, "a code");
    let bytes = quarters();
    for (p, byte) in [(0u8, 1u8), (1, 2), (2, 3), (3, 4), (4, 4), (5, 6)] {
        assert!(rt; has_run(alloc, &code, &bytes, p, 32, byte, 0)?);
    }
    Ok(())
}

// By hand: a stripe is 128 bytes. The last stripe of 129 bytes has one of them, at data position 0.
#[test]
fn the_last_stripe_is_padded_with_zeros(rt: HostRuntime) -> Result<(), Fail> {
    let alloc = rt.alloc();
    let code = four_and_two().expect(&rt, "a code");
    let sevens = [7u8; 129];
    for (size, p, count, zeros) in [
        (0usize, 0u8, 0usize, 0usize),
        (1, 0, 1, 31),
        (1, 1, 0, 32),
        (1, 4, 1, 31),
        (128, 3, 32, 0),
        (129, 0, 33, 31),
        (129, 3, 32, 32),
    ] {
        let bytes = &sevens[..usize::min(size, 129)];
        assert!(rt; has_run(alloc, &code, bytes, p, count, 7, zeros)?);
    }
    Ok(())
}

/// Which chunks are there, and the position of one that lacks its last unit.
#[derive(Clone, Copy)]
struct Given {
    from: u16,
    short: u8,
}

// The chunk of a position, a unit short if that is asked for.
fn given_chunk(
    alloc: Global,
    code: &dyn Code,
    g: Geometry,
    bytes: &[u8],
    p: u8,
    is_short: bool,
) -> Result<Bytes, NoMemory> {
    let shape = code.shape();
    if g.k != shape.k || shape.n <= p || bytes.len() > MAX_OBJECT {
        return Ok(Bytes::new(alloc));
    }
    let mut list = encode_object(alloc, code, g, bytes, p)?.into_vec();
    if is_short {
        list.truncate(list.len().saturating_sub(g.unit as usize));
    }
    Ok(Bytes::of(list))
}

fn give(
    alloc: Global,
    code: &dyn Code,
    g: Geometry,
    bytes: &[u8],
    given: Given,
    chunks: &mut Chunks,
) -> Result<(), NoMemory> {
    for p in 0..16u8 {
        if Mask(given.from).has(p) {
            chunks.set(p, given_chunk(alloc, code, g, bytes, p, p == given.short)?);
        }
    }
    Ok(())
}

// The object; want of memory if it may not be asked for.
fn decoded(
    alloc: Global,
    code: &dyn Code,
    g: Geometry,
    chunks: &Chunks,
    size: usize,
) -> Result<Bytes, DecodeFault> {
    let shape = code.shape();
    if g.k != shape.k || size > MAX_OBJECT || !chunks.mask().lies_below(shape.n) {
        return Err(DecodeFault::NoMemory);
    }
    decode_object(alloc, code, g, chunks, size as u32)
}

// Whether the chunks of an object give it at a unit of bytes, or this fault.
fn is_given(
    alloc: Global,
    code: &dyn Code,
    unit: u32,
    bytes: &[u8],
    given: Given,
    fault: Option<DecodeFault>,
) -> Result<bool, NoMemory>
    requires some { 1 ≤ unit }
    requires few { unit ≤ 65536 }
{
    let k = code.shape().k;
    let g = Geometry { k, unit };
    let mut chunks = Chunks::new();
    give(alloc, code, g, bytes, given, &mut chunks)?;
    Ok(match decoded(alloc, code, g, &chunks, bytes.len()) {
        Ok(found) => fault.is_none() && found.as_slice() == bytes,
        Err(why) => fault == Some(why),
    })
}

// By the code: any four positions decide all, and no three do.
#[test]
fn four_chunks_of_six_give_the_object(rt: HostRuntime) -> Result<(), Fail> {
    let alloc = rt.alloc();
    let code = four_and_two().expect(&rt, "a code");
    let bytes = quarters();
    for from in 0..64u16 {
        let fault = if from.count_ones() < 4 {
            Some(DecodeFault::NotDecided)
        } else {
            None
        };
        assert!(rt; is_given(alloc, &code, 32, &bytes, Given { from, short: 16 }, fault)?);
    }
    Ok(())
}

// By the order: the positions are looked at first, and then each chunk that is there.
#[test]
fn a_chunk_that_is_a_unit_short_is_refused(rt: HostRuntime) -> Result<(), Fail> {
    let alloc = rt.alloc();
    let code = four_and_two().expect(&rt, "a code");
    let bytes = quarters();
    for (from, short, fault) in [
        (0b001111u16, 2u8, DecodeFault::Lengths),
        (0b110011, 4, DecodeFault::Lengths),
        (0b101111, 5, DecodeFault::Lengths),
        (0b000111, 2, DecodeFault::NotDecided),
    ] {
        assert!(rt; is_given(alloc, &code, 32, &bytes, Given { from, short }, Some(fault))?);
    }
    Ok(())
}

// Whether an object of this size comes back from each of three sets.
fn comes_back(alloc: Global, code: &dyn Code, size: usize) -> Result<bool, NoMemory> {
    let bytes = vec![in alloc; 7u8; size]?;
    for from in [0b001111u16, 0b111100, 0b111010] {
        if !is_given(alloc, code, 4096, &bytes, Given { from, short: 16 }, None)? {
            return Ok(false);
        }
    }
    Ok(true)
}

// By hand: 100,000 bytes are 7 stripes of 16,384, the last of them with 1,696 bytes.
#[test]
fn objects_of_each_size_come_back(rt: HostRuntime) -> Result<(), Fail> {
    let alloc = rt.alloc();
    let code = four_and_two().expect(&rt, "a code");
    assert!(rt; comes_back(alloc, &code, 0)? && comes_back(alloc, &code, 1)?);
    assert!(rt; comes_back(alloc, &code, 100_000)?);
    Ok(())
}

// By the rows: without position 2 its row is the sum of the rows of 0, 1 and 3.
#[test]
fn a_data_position_is_not_its_number(rt: HostRuntime) -> Result<(), Fail> {
    let alloc = rt.alloc();
    let code = layered().expect(&rt, "a code");
    let bytes = quarters();
    for (from, fault) in [
        (0b11001100u16, None),
        (0b11111011, None),
        (0b00001011, Some(DecodeFault::NotDecided)),
        (0b11001011, None),
        (0b11110000, Some(DecodeFault::NotDecided)),
    ] {
        assert!(rt; is_given(alloc, &code, 32, &bytes, Given { from, short: 16 }, fault)?);
    }
    Ok(())
}
