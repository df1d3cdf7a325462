//! The code of Ceph's plugin lrc: layers of reed_sol_van over parts of the positions.
//!
//! A mapping marks each position that holds a data chunk. Each layer makes the chunks at its outputs from those at its inputs.
//! Inputs are data chunks of the mapping or outputs of earlier layers. Three numbers k, m and l stand for a global layer and a
//! local one for each l positions ([`layers_of_kml`]).
//!
//! Headline: after `Lrc::init` with Ok the row at each output of each layer is the sum of the rows at the layer's inputs by
//! the coefficients of reed_sol_van. A profile that has a fault is refused with the first one in the order. A mapping and layers
//! without a fault have one code (`layers_have_one_code`).
//!
//! For k = 4, m = 2 and l = 3 the mapping is `DD__DD__` and the layers are `DDc_DDc_`, `DDDc____` and `____DDDc`.
#![tactic(auto)]

mod checks;
mod code;
mod laws;
mod layout;
mod marks;
mod numbers;
mod places;
mod rows;

pub use code::Lrc;
pub use laws::{layers_have_one_code, texts_are_kept};
pub use numbers::layers_of_kml;
