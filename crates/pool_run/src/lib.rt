//! The script language of a pool, and the one call that the program `ecpool` makes.
//!
//! What `ecpool try` promises: what `ecpool try` says is a prefix of the replies of a map of objects, in the order of the script's
//! lines, and then the line of its status; with status 0 or 1 it is all of them ([`ecpool`], `specs/Tries.antt`).
//!
//! The script `full a 0102` and `get a` is answered `ok` and `ok 0102`, with status 0.
#![tactic(auto)]

mod commands;
mod creating;
mod limits;
mod line;
mod object;
mod objects;
mod overlay;
mod profiles;
mod program;
mod reply;
mod script;
mod session;
mod status;
mod texts;

pub use line::{Line, LineFault, read_line};
pub use program::ecpool;
pub use reply::{Reply, print_reply};
pub use status::Status;
