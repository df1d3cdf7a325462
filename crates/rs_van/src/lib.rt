//! The code reed_sol_van of Ceph's plugin jerasure, with w = 8.
//!
//! The rows are those of the extended Vandermonde matrix, made systematic. They stand here in closed form
//! ([`coding_entry`]): the first coding row is ones, and each further row has a first entry of one.
//!
//! Headline: after `RsVan::init` with Ok the rows are the closed form for the profile's k and m, and any k positions
//! decide all. A profile that has a fault is refused with the first one in the order.
//!
//! For k = 4 and m = 2 the coding rows are 1 1 1 1 and 1 70 143 200.
#![tactic(auto)]

mod code;
mod counts;
mod rows;

pub use code::RsVan;
pub use rows::{coding_entry, unit_row, unit_rows};
