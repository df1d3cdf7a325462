//! The code of Ceph's plugin shec with its technique single: the rows of reed_sol_van, but each coding row leaves some data
//! chunks out.
//!
//! The columns that a coding row leaves out are a window. It moves on from row to row and goes round from the last column to
//! the first ([`shec_entry`]). With c = m no row leaves a column out. Each data chunk is in exactly c coding chunks, by the law
//! [`each_data_chunk_is_in_c_coding_chunks`].
//!
//! Headline: after `Shec::init` with Ok the coding rows are those of reed_sol_van for the profile's k and m, with zeros in the
//! windows of k, m and c. A profile that has a fault is refused with the first one in the order.
//!
//! For k = 4, m = 3 and c = 2 the coding rows are 1 1 0 0, 0 217 92 172 and 1 0 143 200.
#![tactic(auto)]

mod code;
mod counts;
mod laws;
mod rows;
mod windows;

pub use code::Shec;
pub use laws::each_data_chunk_is_in_c_coding_chunks;
pub use rows::shec_entry;
