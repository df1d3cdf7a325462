//! Definitions of what a pool's calls do to what stands on its slots. A crash image comes to contents: the map, and the shard of
//! each slot that has one (`Contents`). A call moves contents step by step (`Moves`), and at each of its instants the image is
//! made by such steps from an image of its start (`MovedFrom`). A new pool's contents are those of `Creating`.
//!
//! Headline: calls that move contents go on ([`moves_go_on`]).
//!
//! A pool of three slots starts: an interval begins (`Begins`), goes alive (`GoesAlive`), and each of the slots that joined it
//! starts its epoch (`Starts`). These are five steps, and a crash at any instant leaves the contents that some first ones of
//! them make.
#![tactic(auto)]

mod laws;

pub use laws::moves_go_on;
