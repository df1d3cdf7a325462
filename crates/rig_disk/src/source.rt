//! The input of a program, taken piece by piece.
ghost use Rattle.std.specs.Prelude.{◌<◌, ◌≤◌, ℕ, List, Option, length, IfOk};
ghost use Rattle.std.specs.Io.KnownBytes.{ReadConsumes};
ghost use Rattle.rig_disk.specs.Faults.{HasCause};

use crate::Failed;

/// Input, taken piece by piece.
pub trait Source {
    /// What is left, if the source tells it.
    ghost left: { Self → Option (List ℕ) };

    /// How often it has failed. It is always told.
    ghost faults: { Self → ℕ };

    /// Fills the front of `into`, and answers how many bytes it filled. 0 means the end. After `Failed` all that was left is left.
    fn take(&mut self, into: &mut [u8]) -> Result<usize, Failed>
        requires { 0 < length into.old }
        ensures bound { IfOk result (λ count. count ≤ length into.new) }
        ensures bytes { ReadConsumes (left self.old) (left self.new) result into.new }
        ensures cause { HasCause (faults self.old) (faults self.new) result };
}
