//! Laws about the definitions of this crate.
ghost use Rattle.shec_matrix.specs.Laws.{EachDataChunkIsInC};

/// Each data chunk is in exactly `c` of the coding chunks.
pub fn each_data_chunk_is_in_c_coding_chunks()
    ensures { EachDataChunkIsInC }
{}
