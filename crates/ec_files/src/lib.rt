//! Files of chunks: the chunks of a file's positions, each position's in a file of its own, and the file that they make.
//!
//! Headline: `encode_file` writes for each wanted position exactly its chunks, and `decode_file` writes the file to which the
//! chunks of the least deciding set among the listed positions belong; or the first fault stops them, in one order. If the
//! implementor of [`Files`] tells its files, a read gives all of a file, a refusal has its cause, and a write changes no other
//! file. A call fails only if the count of faults rose. [`MemFiles`] tells everything and fails when a test plans it.
//! [`DiskFiles`] is the real one, and tells no files.
#![tactic(auto)]

mod access;
mod decoding;
mod edge;
mod encoding;
mod fault;
mod files;
mod geometry;
mod job;
mod joining;
mod laws;
mod limits;
mod mem_files;
mod naming;
mod positions;
mod stop;
mod stop_lines;
mod texts;

pub use decoding::decode_file;
pub use edge::{DiskFiles, read_pieces};
pub use encoding::encode_file;
pub use fault::FileFault;
pub use files::Files;
pub use job::Coding;
pub use laws::{
    answers_are_exact, decoded_files_are_one, encoded_files_are_one, encoded_files_come_back,
    written_files_are_found,
};
pub use limits::MAX_FILE;
pub use mem_files::MemFiles;
pub use stop::Stop;
pub use texts::USAGE;
