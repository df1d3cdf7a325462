//! Laws about the definitions alone. Each is the contract of a function with an empty body.
ghost use Rattle.auth_log.specs.Laws.{GreaterSetIsSufficient, GreaterSetChoosesNoOlderEpoch, SurveyIsThere, SurveyIsOne, BlockedIsOne, StateIsOne, StateIsThere, OnlyUpSlotsCount, AliveAmongKept};

/// A greater set of a sufficient set of slots is sufficient.
pub fn greater_set_is_sufficient()
    ensures { GreaterSetIsSufficient }
{}

/// A greater set never chooses from an older epoch.
pub fn greater_set_chooses_no_older_epoch()
    ensures { GreaterSetChoosesNoOlderEpoch }
{}

/// There is a survey of any slots.
pub fn survey_is_there()
    ensures { SurveyIsThere }
{}

/// There is no more than one survey.
pub fn survey_is_one()
    ensures { SurveyIsOne }
{}

/// No set of slots is both sufficient and blocked, and it is blocked at one epoch.
pub fn blocked_is_one()
    ensures { BlockedIsOne }
{}

/// A pool has no more than one state.
pub fn state_is_one()
    ensures { StateIsOne }
{}

/// If each set of positions decides all or does not, a pool has a state.
pub fn state_is_there()
    ensures { StateIsThere }
{}

/// What the shards of slots that are not up say does not count.
pub fn only_up_slots_count()
    ensures { OnlyUpSlotsCount }
{}

/// Which of the intervals that are kept went alive.
pub fn alive_among_kept()
    ensures { AliveAmongKept }
{}
