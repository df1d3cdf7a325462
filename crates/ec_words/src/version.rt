//! Versions of a pool's objects.
ghost use Rattle.std.specs.Prelude.{◌≡◌};
ghost use Rattle.ec_model.specs.Versions.{is_up_to, is_same};

use std::marker::Model;

/// A version of a pool's objects: the epoch of the interval in which a change was made, and the change's number. Versions are
/// ordered by epoch, and then by number; (0, 0) stands before any change.
#[derive(Clone, Copy, Debug, PartialEq, Eq, PartialOrd, Ord)]
pub struct Version {
    pub epoch: u32,
    pub seq: u64,
}

impl Model for Version {
    ghost use Rattle.ec_model.specs.Versions.{Version as Meant, version_code};

    ghost Value = { Meant };

    ghost coded = { version_code };

    ghost view = { λ v. record { epoch = v.epoch; seq = v.seq } };

    ghost inverse = { λ v. record { epoch = v.epoch; seq = v.seq } };
}

impl Version {
    /// Whether this version is not above `other`.
    pub fn is_up_to(&self, other: &Version) -> bool
        ensures { result ≡ is_up_to self.now other.now }
    {
        self.epoch < other.epoch || (self.epoch == other.epoch && self.seq <= other.seq)
    }

    /// Whether both are the same version.
    pub fn is_same(&self, other: &Version) -> bool
        ensures { result ≡ is_same self.now other.now }
    {
        self.epoch == other.epoch && self.seq == other.seq
    }
}
