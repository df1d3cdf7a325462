//! The lines that are the same in every run. docs/TOOL.md has them too.

/// It is said if a plugin is there.
pub const EXISTS: &[u8] = b"exists\n";

/// It is said if a plugin is not there, with status 1.
pub const UNKNOWN_PLUGIN: &[u8] = b"unknown plugin\n";
