//! Laws about the definitions alone. Each is the contract of a function with an empty body.
ghost use Rattle.ec_words.specs.Laws.{FieldsAreBetweenSpaces, HexTextSpellsSomeBytes, HexHasOneReading, HexIsReadBack};

/// The fields of a line are the pieces without a space that, joined by spaces, are the line.
pub fn fields_are_between_spaces()
    ensures { FieldsAreBetweenSpaces }
{}

/// A text spells some bytes exactly if it is an even number of digits.
pub fn hex_text_spells_some_bytes()
    ensures { HexTextSpellsSomeBytes }
{}

/// A text spells no two lists of bytes.
pub fn hex_has_one_reading()
    ensures { HexHasOneReading }
{}

/// Bytes that are printed in lower case digits are read back.
pub fn hex_is_read_back()
    ensures { HexIsReadBack }
{}
