//! What each program begins with: the words that it was called with.
#![tactic(auto)]

mod edge;

pub use edge::words;
