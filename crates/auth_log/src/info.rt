//! What a shard says of itself.
use ec_words::Version;
use std::marker::Model;

/// What a shard says of itself: the last epoch that it started, its newest version, and whether it is being filled.
#[derive(Clone, Copy, Debug, PartialEq, Eq)]
pub struct Info {
    /// The last epoch started.
    pub les: u32,
    pub head: Version,
    pub partial: bool,
}

impl Model for Info {
    ghost use Rattle.auth_log.specs.Choice.{Info as Meant};

    ghost Value = { Meant };

    ghost view = { λ i. record { les = i.les; head = i.head; partial = i.partial } };

    ghost inverse = { λ i. record { les = i.les; head = i.head; partial = i.partial } };
}
