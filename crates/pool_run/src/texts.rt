//! Every text that is printed beside the bytes of objects. docs/SCRIPT.md has them too.

/// Said if the words are no command, with status 2.
pub const USAGE: &[u8] =
    b"usage: ecpool try PROFILE, create DIR PROFILE, run DIR [depth=N], profile PROFILE, mill DIR SEED COUNT\n";

/// Said if there is a pool, with status 4.
pub const POOL_EXISTS: &[u8] = b"pool exists\n";

/// Said if the input is longer than its limit, with status 12.
pub const TOO_LONG: &[u8] = b"too long\n";
