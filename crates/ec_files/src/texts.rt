//! The lines that are the same in every run. docs/TOOL.md has them too.

/// It is said if the words are no command, with status 2.
pub const USAGE: &[u8] =
    b"usage: ceph_ec_tool test-plugin-exists, validate-profile, calc-chunk-size, encode, decode\n";

/// It is said if the listed positions do not decide the data, with status 6.
pub const NOT_DECIDED: &[u8] = b"not decided\n";

/// It is said if files of chunks differ in length or their length is not that of whole chunks, with status 7.
pub const LENGTHS: &[u8] = b"lengths\n";
