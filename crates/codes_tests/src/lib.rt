//! Tests of the public calls of the codes: words, the field, codes, reading plans and stripes. The crate has only tests, with one
//! module for each crate that is tested.
#![tactic(auto)]

#[cfg(test)]
mod boxes;
#[cfg(test)]
mod deciding;
#[cfg(test)]
mod field;
#[cfg(test)]
mod given_codes;
#[cfg(test)]
mod layered;
#[cfg(test)]
mod layouts;
#[cfg(test)]
mod plans;
#[cfg(test)]
mod reed_sol_van;
#[cfg(test)]
mod settings;
#[cfg(test)]
mod shingled;
#[cfg(test)]
mod stripes;
#[cfg(test)]
mod tables;
#[cfg(test)]
mod words;
