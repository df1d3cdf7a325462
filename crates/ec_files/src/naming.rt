//! Files of chunks: the chunks of position P of a file are in the file whose name is the file's name, a point and P.
ghost use Rattle.std.specs.Prelude.{◌≡◌, IfOk, string_bytes};
ghost use Rattle.ec_files.specs.Chunks.{chunk_name};

use ec_words::NoMemory;
use std::alloc::Global;

/// The name of the file of a position's chunks.
pub fn chunk_name(alloc: Global, name: &str, p: u8) -> Result<String, NoMemory>
    ensures { IfOk result (λ file. string_bytes file ≡ chunk_name name.now p) }
{
    let file = format!(in alloc; "{name}.{p}")?;
    Ok(file)
}
