//! Matrices over the field of 256 elements, and the answer to whether some rows make another.
//!
//! A [`Mat`] has up to 16 rows of up to 16 bytes, and takes no memory. [`solve`] takes the rows of a matrix and a wanted
//! row, and answers how the rows make it, or a column that shows that they do not.
//!
//! Headline: each answer of `solve` has its own clause, `combines` or `tells_apart`, and nothing is asked of the caller.
//! The two answers exclude each other (`answers_exclude_each_other`). For example, the rows 1 1 and 0 1 make the row 1 0
//! with the coefficients 1 and 1. The row 1 1 alone does not make it: the column of 1 and 1 is 0 on 1 1, and not on 1 0.
#![tactic(auto)]

mod columns;
mod laws;
mod lines;
mod matrix;
mod solution;

pub use laws::answers_exclude_each_other;
pub use matrix::Mat;
pub use solution::{Solved, solve};
