//! Laws about texts and stores, for every caller: functions that do nothing and whose contract is the law.
ghost use Rattle.shard_store.specs.Laws.{ShardsAreReplays, TextsHaveOneStory, BadTextsHaveNoStory, StoresStayElsewhere, OthersMayFlush, StoresStayOver, StoresStaySaying, StagingKeepsStored, TellingKeepsStored, TellingKeepsRest, ImagesHaveFlushed};

use rig_disk::Rig;
use slot_journal::{bad_texts_have_one_place, texts_have_one_reading};

/// The shard that steps lead to is what a replay of them comes to.
pub fn shards_are_replays()
    ensures { ShardsAreReplays }
{}

/// A text has one list of steps at most.
pub fn texts_have_one_story()
    ensures { TextsHaveOneStory }
{
    texts_have_one_reading();
}

/// What is no shard's text has no list of steps.
pub fn bad_texts_have_no_story()
    ensures { BadTextsHaveNoStory }
{
    texts_have_one_reading();
    bad_texts_have_one_place();
}

/// What a store has stored stays so while other slots are worked on, and its journal at rest.
pub fn stores_stay_stored<R: Rig>()
    ensures elsewhere { StoresStayElsewhere R.reads R.clock R.images }
    ensures over { StoresStayOver R.reads R.clock R.images }
    ensures saying { StoresStaySaying R.reads R.clock R.images }
{}

/// What a store has stored goes on while steps are staged, forgotten and accepted, and each image of now has it.
pub fn stored_goes_on<R: Rig>()
    ensures staging { StagingKeepsStored R.reads R.clock R.images }
    ensures telling { TellingKeepsStored R.reads R.clock R.images }
    ensures rest { TellingKeepsRest R.reads R.clock R.images }
    ensures images { ImagesHaveFlushed R.reads R.clock R.images }
{}

/// A store that may be flushed may be so after a call on another slot, such as the flush of another store, and has stored what
/// it had.
pub fn others_may_flush<R: Rig>()
    ensures { OthersMayFlush R.is_here R.reads R.clock R.images }
{}
