//! Laws about the definitions alone. Each is the contract of a function with an empty body.
ghost use Rattle.map_model.specs.Laws.{LastIsTheAdded, LastEpochIsTheCount, TheNewestGoesAlive, AliveComesOnce, AliveAreOlder, NewStatesAreSound, StepsKeepSound, ReplaysKeepSound, KeptAreByPlaces, JoinedSetsLieBelow, InsideByPositions, MarksAreByPositions};

/// The last of some intervals with one more is that one.
pub fn last_is_the_added()
    ensures { LastIsTheAdded }
{}

/// The last epoch is the number of the intervals.
pub fn last_epoch_is_the_count()
    ensures { LastEpochIsTheCount }
{}

/// An interval that goes alive is the last one, and the newest of all that are alive.
pub fn the_newest_goes_alive()
    ensures { TheNewestGoesAlive }
{}

/// Right behind an Alive step no other one fits.
pub fn alive_comes_once()
    ensures { AliveComesOnce }
{}

/// An interval that went alive is older than the last one, if that one did not.
pub fn alive_are_older()
    ensures { AliveAreOlder }
{}

/// States begin sound, and steps that fit keep them so.
pub fn steps_keep_sound()
    ensures new { NewStatesAreSound }
    ensures one { StepsKeepSound }
    ensures all { ReplaysKeepSound }
{}

/// Which intervals are kept.
pub fn kept_are_by_places()
    ensures { KeptAreByPlaces }
{}

/// The joined sets of a sound state lie below n.
pub fn sound_states_join_below()
    ensures { JoinedSetsLieBelow }
{}

/// What lies inside a mask, and what a mark does to one, by positions.
pub fn masks_are_by_positions()
    ensures inside { InsideByPositions }
    ensures marks { MarksAreByPositions }
{}
