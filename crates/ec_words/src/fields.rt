//! The fields of a line stand one space apart.
ghost use Rattle.std.specs.Prelude.{◌≡◌, length, slice_get};
ghost use Rattle.std.specs.Option.{option_map};
ghost use Rattle.ec_words.specs.Fields.{fields};

/// The number of fields: one more than there are spaces, so 1 for an empty line.
pub fn field_count(line: &[u8]) -> usize
    ensures { result ≡ length (fields line.now) }
{
    line.split(|b| *b == b' ').count()
}

/// The field with this index, from 0. `None` exactly if the line has at most `i` fields.
pub fn field(line: &[u8], i: usize) -> Option<&[u8]>
    ensures { option_map (λ piece. piece.now) result ≡ slice_get (fields line.now) i }
{
    line.split(|b| *b == b' ').nth(i)
}
