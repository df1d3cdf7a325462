//! The length of a chunk.
ghost use Rattle.std.specs.Prelude.{◌↔◌, IsTrue};
ghost use Rattle.std.specs.Option.{option_copied};
ghost use Rattle.stripe_map.specs.Decoding.{HasLength};

/// Whether a chunk has this length, if it is there.
pub fn has_length(chunk: Option<&[u8]>, long: usize) -> bool
    ensures { IsTrue result ↔ HasLength (option_copied chunk.entry) long }
{
    match chunk {
        Some(bytes) => bytes.len() == long,
        None => true,
    }
}
