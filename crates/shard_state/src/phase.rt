//! How far the steps of a shard have come.

/// There was no step yet; there is a base alone; the shard is under way.
#[derive(Clone, Copy)]
pub(crate) enum Phase {
    Unbegun,
    Based,
    Running,
}
