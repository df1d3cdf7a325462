//! A record: an open gate, the length of its body in four bytes, and the body.
ghost use Rattle.std.specs.Prelude.{◌≡◌, ◌≤◌, ◌+◌, ◌++◌, ◌∷◌, [], length, MatchOption};
ghost use Rattle.byteorder.specs.Endian.{big_bytes, big_number};
ghost use Rattle.slot_journal.specs.Header.{open_gate};
ghost use Rattle.slot_journal.specs.Text.{max_body, IsBadLength, IsBodyLength};

use crate::{MAX_BODY, OPEN_GATE};
use byteorder::{BigEndian, ByteOrder};

/// The bytes of a record in front of its body.
pub fn record_prefix(body_len: u32) -> [u8; 5]
    ensures { result ≡ open_gate ∷ big_bytes 4 body_len }
{
    let mut prefix = [OPEN_GATE; 5];
    BigEndian::write_u32(&mut prefix[1..], body_len);
    prefix
}

/// The length that the first four bytes say, if a body may have that length and the body is all there. `rest_len` is the
/// number of bytes from the length on, those in `rest` included.
pub fn read_body_len(rest: &[u8], rest_len: u64) -> Option<usize>
    ensures { MatchOption result (IsBadLength rest.now rest_len) (IsBodyLength rest.now rest_len) }
{
    if rest.len() < 4 {
        return None;
    }
    let len = BigEndian::read_u32(rest) as usize;
    if len < 1 || len > MAX_BODY || rest_len < len as u64 + 4 {
        return None;
    }
    Some(len)
}
