//! The map of a pool, as it is worked with.
ghost use Rattle.std.specs.Prelude.{◌≡◌, ◌≤◌, true};
ghost use Rattle.slot_journal.specs.Journal.{slot_of, room_of};
ghost use Rattle.pool_map.specs.Meanings.{state_of};
ghost use Rattle.map_model.specs.Sound.{IsSound};
ghost use Rattle.map_model.specs.States.{last_of, awaits_alive};

use crate::state::State;
use ec_code::Profile;
use slot_journal::Journal;

/// The map of a pool: its profile, the intervals so far, and which slots are marked as down. It is used with the rig over
/// which it was made or loaded, and after [`MapFault::Failed`](crate::MapFault::Failed) no more.
#[derive(Drop)]
pub struct PoolMap {
    pub(crate) journal: Journal,
    pub(crate) profile: Profile,
    pub(crate) state: State,
    /// This value has begun an interval.
    pub(crate) began: bool,
    ghost own_slot: { slot_of journal ≡ 16 },
    ghost has_room: { began ≡ true → awaits_alive (last_of state.intervals) ≡ true → 64 ≤ room_of journal },
    ghost sound: { IsSound state.n (state_of state) },
}
