//! Tests of the tools through their public calls. The crate has only tests.
#![tactic(auto)]

#[cfg(test)]
mod disk_files;
