//! The field of 256 elements, and sums and multiples of slices of its elements.
//!
//! An element is a byte: the polynomial over the two elements 0 and 1 whose coefficients are its bits. The sum of two
//! elements is their xor, and their product is the carry-less product reduced by the polynomial 0x11d.
//!
//! Headline: `mul`, `inv`, `div`, `add_into` and `mul_add_into` are the field's, for slices of every length. For
//! example, the product of 2 and 0x8e is 1.
#![tactic(auto)]

mod field;
mod inverses;
mod kernels;
mod lanes;
mod laws;

pub use field::{div, inv, mul};
pub use kernels::{add_into, mul_add_into};
pub use laws::bytes_are_a_field;
