//! How an object lies in stripes: sizes of chunks, the stripes that a range of bytes touches, the chunks of each position, and
//! the object that chunks give.
//!
//! Headline: the chunks that [`encode_object`] gives are those of the position, by `IsPositionList` of ec_model's
//! specs/Codes.antt. [`decode_object`] gives the object of such chunks exactly if their positions decide the data positions.
//!
//! With two data chunks and a unit of 4 bytes the object 1, 2, .., 9 has two stripes: 1 to 8, and 9 with seven zeros. Its
//! chunks at data position 1 are 5, 6, 7, 8, 0, 0, 0, 0, and the bytes 7 and 8 and the next touch both stripes.
#![tactic(auto)]

mod assembling;
mod chunks;
mod combining;
mod data;
mod decoding;
mod encoding;
mod joining;
mod laws;
mod lengths;
mod limits;
mod sizes;
mod touch;

pub use assembling::add_position;
pub use chunks::Chunks;
pub use combining::{data_rows, make_piece};
pub use data::data_set;
pub use decoding::{DecodeFault, decode_object};
pub use encoding::encode_object;
pub use laws::{
    data_mask_lies_below, data_positions_are_a_mask, sum_of_lists_is_the_list,
    what_is_made_is_the_object,
};
pub use limits::{ALIGNMENT, MAX_BUFFER, MAX_OBJECT};
pub use sizes::chunk_size;
pub use touch::touched;
