//! What is kept of a call on a rig in memory.
use ec_words::Bytes;

/// A call that changed what a crash may leave, or what was said.
#[derive(Drop)]
pub enum Call {
    Write {
        slot: u8,
        area: u8,
        at: u64,
        bytes: Bytes,
    },
    Shorten {
        slot: u8,
        area: u8,
        len: u64,
    },
    Sync {
        slot: u8,
        area: u8,
    },
    Say {
        bytes: Bytes,
    },
}
