//! Laws about the definitions alone. Each is the contract of a function with an empty body.
ghost use Rattle.pool_history.specs.Laws.{SufficientSetsShowCommitted, TransitionsKeepAgreement, EpochsAreChains, NewPoolsAgree, AllSlotsAreSufficient, LastAcceptedIsChosen, EntriesLeadOn, PathsGrow, ReachedImagesAgree, GrownHistoriesAreShown};

/// Whatever sufficient slots choose, no committed change is lost: its version has the committed one on its path, and the slots
/// that join hold, and decide, the objects of that version.
pub fn sufficient_sets_show_committed()
    ensures { SufficientSetsShowCommitted }
{}

/// If the devices agree with the history, they still do after any step of the pool, and a crash before its write finds them so
/// too.
pub fn transitions_keep_agreement()
    ensures { TransitionsKeepAgreement }
{}

/// So the devices agree with the history after any number of steps.
pub fn reached_images_agree()
    ensures { ReachedImagesAgree }
{}

/// A new pool agrees with the history that has no change yet.
pub fn new_pools_agree()
    ensures { NewPoolsAgree }
{}

/// If no slot is missing, there is always a version to choose.
pub fn all_slots_are_sufficient()
    ensures { AllSlotsAreSufficient }
{}

/// If each shard that is up and last started the active epoch has one head, and each later interval began with it, sufficient
/// slots choose it: a change at that head is not lost, whether it is committed or not.
pub fn last_accepted_is_chosen()
    ensures { LastAcceptedIsChosen }
{}

/// The tree of versions branches at the bases of intervals alone: the versions of one epoch are one chain.
pub fn epochs_are_chains()
    ensures { EpochsAreChains }
{}

/// If each position takes the entry that it gets of a change, all of them come to the objects after that change.
pub fn entries_lead_on()
    ensures { EntriesLeadOn }
{}

/// A run changes no path that was there before it. Each version that it adds has all updates up to the head that the run
/// began at, and then the first ones that the run accepted.
pub fn paths_grow()
    ensures { PathsGrow }
{}

/// After a crash, sufficient slots show the objects of a version from before the run, or the head that the run began at with
/// the first updates that it accepted; and the committed ones are among them.
pub fn grown_histories_are_shown()
    ensures { GrownHistoriesAreShown }
{}
