//! Laws about maps, for every caller: functions that do nothing and whose contract is the law.
ghost use Rattle.pool_map.specs.Laws.{TextsHaveOneMap, MapsAreSound, JoinedSetsLieBelow, MapsStayHeld, MapsStayElsewhere, MapsStayOver};

use rig_disk::Rig;
use slot_journal::texts_have_one_reading;

/// A text has one map.
pub fn texts_have_one_map()
    ensures { TextsHaveOneMap }
{
    texts_have_one_reading();
}

/// The intervals of a map name slots of the pool alone, and their epochs ascend by one from 1; a choice may be made among them.
pub fn maps_are_sound()
    ensures sound { MapsAreSound }
    ensures joined { JoinedSetsLieBelow }
{}

/// A map that was held stays so while other slots are worked on.
pub fn maps_stay_held<R: Rig>()
    ensures held { MapsStayHeld R.reads R.clock R.images }
    ensures elsewhere { MapsStayElsewhere R.reads R.clock R.images }
    ensures over { MapsStayOver R.reads R.clock R.images }
{}
