//! Codes of given rows: for tests, and for tables that no plugin makes.
//!
//! A table goes by the name of the plugin shec, and `init` makes it that plugin's code of a profile. So it meets everything that
//! is asked of a code, and its rows are free until then.
//!
//! Headline: `TableCode::of` has the code of exactly these rows, and refuses them only if they are no code.
//!
//! The rows 1 0, 0 1 and 1 1 with the data chunks at the positions 0 and 1 are a code. With data chunks at 1 and 2 they are not.
#![tactic(auto)]

mod code;
mod table;

pub use code::TableCode;
