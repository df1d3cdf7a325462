//! Tests of the crates of the pool, by what is public of them. It has tests alone.
#![tactic(auto)]

#[cfg(test)]
mod choices;
#[cfg(test)]
mod map_loads;
#[cfg(test)]
mod map_makes;
#[cfg(test)]
mod map_steps;
#[cfg(test)]
mod maps;
#[cfg(test)]
mod pool_starts;
#[cfg(test)]
mod pools;
#[cfg(test)]
mod starts;
