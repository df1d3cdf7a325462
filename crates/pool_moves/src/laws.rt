//! Laws of the instants of calls on a pool, for every caller: functions that do nothing and whose contract is the law.
ghost use Rattle.pool_moves.specs.Laws.{MovesGoOn, StillCallsMove};

use rig_disk::Rig;

/// If two calls move the contents of a pool's slots, so do both, one after the other; a call that changes no image moves them by
/// no step.
pub fn moves_go_on<R: Rig>()
    ensures on { MovesGoOn R.clock R.images }
    ensures over { StillCallsMove R.clock R.images }
{}
