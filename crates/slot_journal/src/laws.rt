//! Laws about texts, for every caller. Each is the contract of a function that does nothing.
ghost use Rattle.slot_journal.specs.Laws.{TextsHaveOneReading, BadTextsHaveOnePlace};

/// A text has one reading.
pub fn texts_have_one_reading()
    ensures { TextsHaveOneReading }
{}

/// What is no text fails at one first place.
pub fn bad_texts_have_one_place()
    ensures { BadTextsHaveOnePlace }
{}
