//! How many objects there are, and what they take.
ghost use Rattle.std.specs.Prelude.{◌≡◌, ◌≤◌, ◌<◌, ◌+◌, ◌^◌};
ghost use Rattle.shard_state.specs.Totals.{one, load};

use crate::held::Held;

/// A number of objects, and the sum of what they take. What is more than a `u64` for one object counts as `u64::MAX`.
#[derive(Clone, Copy)]
pub(crate) struct ObjectTotals {
    pub count: usize,
    pub used: u128,
}

impl ObjectTotals {
    /// The totals of no objects.
    pub fn none() -> ObjectTotals
        ensures count { result.count ≡ 0 }
        ensures used { result.used ≡ 0 }
    {
        ObjectTotals { count: 0, used: 0 }
    }

    /// An object comes, if there is one.
    pub fn add(&mut self, held: &Option<Held>)
        requires few { self.old.count < 2 ^ 63 }
        requires fits { self.old.used < 2 ^ 127 }
        ensures count { self.new.count ≡ self.old.count + one held.now }
        ensures used { self.new.used ≡ self.old.used + load held.now }
    {
        match held {
            None => {}
            Some(held) => {
                self.count += 1;
                self.used += u128::from(held.usage());
            }
        }
    }

    /// An object goes, if there is one.
    pub fn take(&mut self, held: &Option<Held>)
        requires count { one held.now ≤ self.old.count }
        requires used { load held.now ≤ self.old.used }
        ensures count { self.new.count + one held.now ≡ self.old.count }
        ensures used { self.new.used + load held.now ≡ self.old.used }
    {
        match held {
            None => {}
            Some(held) => {
                self.count -= 1;
                self.used -= u128::from(held.usage());
            }
        }
    }
}
