//! Linear codes over the field of 256 elements: what a code is, the profiles that it is made from, the chunks of a stripe,
//! and which positions decide which.
//!
//! Headline: `decides` is true exactly if any two columns that agree on a set of positions agree on another, and
//! `combine` gives the coefficients by which a set makes a chunk if it decides it.
//!
//! In the code with the rows 1 0, 0 1 and 1 1, each two positions decide the third, with the coefficients 1 and 1.
#![tactic(auto)]

mod checks;
mod code;
mod deciding;
mod encode;
mod fault;
mod layouts;
mod mapping;
mod profile;
mod shape;
mod tables;

pub use checks::{is_other_width, is_out_of_range, is_unit};
pub use code::Code;
pub use deciding::{combine, decides, row_of};
pub use encode::{encode_chunk, encode_rows};
pub use fault::{Key, ProfileFault};
pub use mapping::{Layer, Layers, Mapping};
pub use profile::{Plugin, Profile, Technique};
pub use shape::{Shape, default_min};
pub use tables::read_rows;
