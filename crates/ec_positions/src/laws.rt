//! Laws about the definitions alone. Each is the contract of a function with an empty body.
ghost use Rattle.ec_positions.specs.Laws.{ChangesKeepPositions, ListsAreOne, RefusalChangesNothing};

/// A command whose reply is a refusal leaves the objects as they were.
pub fn refusal_changes_nothing()
    ensures { RefusalChangesNothing }
{}

/// What a position gets of an update that is not refused fits what it holds, and makes what it holds of the objects after it.
pub fn changes_keep_positions()
    ensures { ChangesKeepPositions }
{}

/// A position has one list of an object.
pub fn lists_are_one()
    ensures { ListsAreOne }
{}
