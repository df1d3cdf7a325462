//! The numbers of this crate.

/// The byte of a gate that is open.
pub const OPEN_GATE: u8 = 0x4f;

/// The byte that is written where a gate is to be closed. Any byte but [`OPEN_GATE`] is a closed gate.
pub const CLOSED_GATE: u8 = 0;

/// The bytes of a header's head. It stands behind the header's gate.
pub const HEAD_LEN: usize = 23;

/// The bytes of a header.
pub const HEADER_LEN: usize = 24;

/// The formats of texts that this crate reads.
pub const KNOWN_FORMATS: [u8; 1] = [1];

/// The bytes of the longest body of a record.
pub const MAX_BODY: usize = 1 << 26;

/// The bytes that an area may be filled up to.
pub const AREA_LIMIT: u64 = 1 << 40;

/// The area that a text stands in. So far there is one.
pub const AREA: u8 = 0;

/// The bytes of a record in front of its body.
pub const PREFIX_LEN: usize = 5;

/// The bytes that are read at once.
pub const PIECE_LEN: usize = 1 << 18;

/// The place of the format in a header.
pub const FORMAT_PLACE: usize = 8;
