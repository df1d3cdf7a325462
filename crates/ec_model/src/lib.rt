//! The definitions that every layer shares. They speak of numbers, lists and finite maps alone, and not of the code.
//!
//! `specs/Stripes.antt` says how an object's bytes lie in the lists of chunks of its positions, and `specs/Codes.antt` what a code
//! makes of them.
//!
//! Headline: the chunks of the data positions, joined stripe by stripe, are the object (`data_lists_join_back`).
#![tactic(auto)]

mod laws;

pub use laws::{
    alike_codes_decide_the_same, alike_codes_have_the_same_lists, data_lists_join_back,
    three_bytes_in_three_lists,
};
