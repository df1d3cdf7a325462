//! Laws about the definitions alone. Each is the contract of a function that does nothing.
ghost use Rattle.run_model.specs.Laws.{EntriesAddItems, LinesAddEntries, TurnsAddEntries, ActivationsAddEntries, FailuresComeLater, ItemsGrowHistory, AgreementIsEnough, AnswersTellUpdates, LinesAreAnsweredInOrder, ServingPoolsAnswerAsMemory, FrontsAreWholePieces, AnswersAreTold, SaidIsReadOnce, LinesAreSpelled};

use pool_history::sufficient_sets_show_committed;

/// Further entries of a record add items and change none.
pub fn entries_add_items()
    ensures { EntriesAddItems }
{}

/// A line more adds its entry at the record's end.
pub fn lines_add_entries()
    ensures { LinesAddEntries }
{}

/// A turn more adds its entry at the record's end.
pub fn turns_add_entries()
    ensures { TurnsAddEntries }
{}

/// An activation adds its entry at the record's end.
pub fn activations_add_entries()
    ensures { ActivationsAddEntries }
{}

/// A slot that fails later changes no item so far.
pub fn failures_come_later()
    ensures { FailuresComeLater }
{}

/// The history of a run is what its items make of it.
pub fn items_grow_history()
    ensures { ItemsGrowHistory }
{}

/// If an image agrees with the history that has grown, what sufficient slots show follows.
pub fn agreement_is_enough()
    ensures { AgreementIsEnough }
{
    sufficient_sets_show_committed();
}

/// The objects after a line are those with the update that its answer says.
pub fn answers_tell_updates()
    ensures { AnswersTellUpdates }
{}

/// Lines between which no interval begins are answered by one fold, from the objects that the pool has.
pub fn lines_are_answered_in_order()
    ensures { LinesAreAnsweredInOrder }
{}

/// A pool that serves answers clients as objects in memory do.
pub fn serving_pools_answer_as_memory()
    ensures { ServingPoolsAnswerAsMemory }
{}

/// What was said of a run's pieces is whole ones, and perhaps a part of the next.
pub fn fronts_are_whole_pieces()
    ensures { FrontsAreWholePieces }
{}

/// No answer of a run is `unsure`: that is said of queued changes alone, in place of their answers.
pub fn answers_are_told()
    ensures { AnswersAreTold }
{}

/// What a run has said is read as one list of whole pieces, so the number of acknowledged changes is one of its bytes.
pub fn said_is_read_once()
    ensures { SaidIsReadOnce }
{}

/// A text spells a line, by its words, names, numbers and digits, exactly if its fields are read as that line.
pub fn lines_are_spelled()
    ensures { LinesAreSpelled }
{}
