//! Numbers and bytes in records. A number stands in four or eight bytes, the most significant first.
ghost use Rattle.std.specs.Prelude.{◌≡◌, ◌↔◌, ◌<◌, ◌+◌, ◌++◌, length, take, drop, IfOk, IfErr, OnOk, OnErr};
ghost use Rattle.std.specs.Result.{IsErr};
ghost use Rattle.std.specs.Int.{bytes_high_first};
ghost use Rattle.ec_words.specs.Records.{HasAt, HasNumberAt};

use crate::{Bytes, NoMemory};
use byteorder::{BigEndian, ByteOrder};
use thiserror::Error;

/// A text ends before the end of what was asked for. That begins at `at`.
#[derive(Clone, Copy, Debug, PartialEq, Eq, Error)]
#[error("the text ends in what begins at {at}")]
pub struct Cut {
    pub at: usize,
}

/// Appends the four bytes of a number.
pub fn put_u32(out: &mut Bytes, v: u32) -> Result<(), NoMemory>
    ensures ok { OnOk result (out.new ≡ out.old ++ bytes_high_first 4 v) }
    ensures unchanged { OnErr result (out.new ≡ out.old) }
{
    let mut bytes = [0; 4];
    BigEndian::write_u32(&mut bytes, v);
    out.extend(&bytes)
}

/// Appends the eight bytes of a number.
pub fn put_u64(out: &mut Bytes, v: u64) -> Result<(), NoMemory>
    ensures ok { OnOk result (out.new ≡ out.old ++ bytes_high_first 8 v) }
    ensures unchanged { OnErr result (out.new ≡ out.old) }
{
    let mut bytes = [0; 8];
    BigEndian::write_u64(&mut bytes, v);
    out.extend(&bytes)
}

/// Appends bytes as they are.
pub fn put_bytes(out: &mut Bytes, v: &[u8]) -> Result<(), NoMemory>
    ensures ok { OnOk result (out.new ≡ out.old ++ v.now) }
    ensures unchanged { OnErr result (out.new ≡ out.old) }
{
    out.extend(v)
}

/// The number in the four bytes from `at` on.
pub fn take_u32(text: &[u8], at: usize) -> Result<u32, Cut>
    ensures value { IfOk result (HasNumberAt text.now at 4) }
    ensures cut { IsErr result ↔ (length text.now < at + 4) }
    ensures place { IfErr result (λ cut. cut.at ≡ at) }
{
    let bytes = take_bytes(text, at, 4)?;
    Ok(BigEndian::read_u32(bytes))
}

/// The number in the eight bytes from `at` on.
pub fn take_u64(text: &[u8], at: usize) -> Result<u64, Cut>
    ensures value { IfOk result (HasNumberAt text.now at 8) }
    ensures cut { IsErr result ↔ (length text.now < at + 8) }
    ensures place { IfErr result (λ cut. cut.at ≡ at) }
{
    let bytes = take_bytes(text, at, 8)?;
    Ok(BigEndian::read_u64(bytes))
}

/// The `n` bytes from `at` on.
pub fn take_bytes(text: &[u8], at: usize, n: usize) -> Result<&[u8], Cut>
    ensures value { IfOk result (λ bytes. (length bytes.now ≡ n) × HasAt text.now at bytes.now) }
    ensures cut { IsErr result ↔ (length text.now < at + n) }
    ensures place { IfErr result (λ cut. cut.at ≡ at) }
{
    if at > text.len() || n > text.len() - at {
        return Err(Cut { at });
    }
    Ok(&text[at..at + n])
}
