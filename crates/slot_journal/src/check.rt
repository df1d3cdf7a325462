//! Whether a text begins with a header for a head.
ghost use Rattle.std.specs.Prelude.{◌≡◌, ◌<◌, ◌↔◌, ℕ, IsTrue, MatchOption};
ghost use Rattle.slot_journal.specs.Text.{Serves, FitsAt, IsBadHeader};

use crate::limits::FORMAT_PLACE;
use crate::{HEADER_LEN, KNOWN_FORMATS, OPEN_GATE};

/// The first place where a header is out of form for a head. `front` is the text's first 24 bytes, or all of a shorter
/// text.
pub fn bad_header(front: &[u8], head: &[u8; 23]) -> Option<usize>
    ensures { MatchOption result ((place : ℕ) → place < 24
        → FitsAt head.now front.now place) (IsBadHeader head.now front.now) }
{
    for place in 0..HEADER_LEN {
        if !fits(front, head, place) {
            return Some(place);
        }
    }
    None
}

/// Whether a text has a byte at this place of its header that serves for the head.
fn fits(front: &[u8], head: &[u8; 23], place: usize) -> bool
    requires { place < 24 }
    ensures { IsTrue result ↔ FitsAt head.now front.now place }
{
    let wanted = if place == 0 {
        OPEN_GATE
    } else {
        head[place - 1]
    };
    place < front.len() && serves(place, wanted, front[place])
}

/// Whether a byte of a header serves for the one that is asked for.
fn serves(place: usize, wanted: u8, byte: u8) -> bool
    ensures { IsTrue result ↔ Serves place wanted byte }
{
    byte == wanted
        || place == FORMAT_PLACE && KNOWN_FORMATS.contains(&wanted) && KNOWN_FORMATS.contains(&byte)
}
