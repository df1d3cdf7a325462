//! Laws about the definitions alone. Each is the contract of a function with an empty body.
ghost use Rattle.shard_model.specs.Laws.{UndoingIsReplaying, ReplayGoesOn, FirstStepFits, StepsKeepWhole, ReplaysAreWhole, HeadIsPresent, HeadIsHeld, GoingBackGivesThePast, EntriesKeepHeld, GoingBackKeepsThePast, StepsAreRead, BytesAreReadOneWay, StepLengths, HeldObjectsMayBeBrought, WorkedBytes, WorkedWrites};

/// A state that undoes comes to what replaying from the base gives.
pub fn undoing_is_replaying()
    ensures { UndoingIsReplaying }
{}

/// Steps that go on after others are replayed from the state that those led to.
pub fn replay_goes_on()
    ensures { ReplayGoesOn }
{}

/// Of steps that lead on, the first fits, and the others lead on from the state that it leads to.
pub fn first_step_fits()
    ensures { FirstStepFits }
{}

/// A whole replay stays whole with each step that fits.
pub fn steps_keep_whole()
    ensures { StepsKeepWhole }
{}

/// What each step keeps holds of every replay.
pub fn replays_are_whole()
    ensures { ReplaysAreWhole }
{}

/// The objects at the head are the present ones.
pub fn head_is_present()
    ensures { HeadIsPresent }
{}

/// A shard that is not being filled can be rolled back to its head.
pub fn head_is_held()
    ensures { HeadIsHeld }
{}

/// Rolling back to a version gives the objects at it.
pub fn going_back_gives_the_past()
    ensures { GoingBackGivesThePast }
{}

/// An entry keeps the versions that were held, and their objects.
pub fn entries_keep_held()
    ensures { EntriesKeepHeld }
{}

/// Rolling back keeps the objects of the versions that are held after it.
pub fn going_back_keeps_the_past()
    ensures { GoingBackKeepsThePast }
{}

/// A step is read off its bytes, and off no others.
pub fn steps_are_read()
    ensures { StepsAreRead }
{}

/// Bytes are one list of steps, or have one first place at which no step is spelled.
pub fn bytes_are_read_one_way()
    ensures { BytesAreReadOneWay }
{}

/// How many bytes a step has.
pub fn step_lengths()
    ensures { StepLengths }
{}

/// An object of any shard fits if it is brought to one that is being filled.
pub fn held_objects_may_be_brought()
    ensures { HeldObjectsMayBeBrought }
{}

/// Worked examples of steps as bytes.
pub fn worked_bytes()
    ensures { WorkedBytes }
{}

/// A worked example of two writes over each other, taken back one after the other.
pub fn worked_writes()
    ensures { WorkedWrites }
{}
