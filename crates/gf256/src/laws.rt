//! Laws about the field alone, as the contract of a function with an empty body.
ghost use Rattle.gf256.specs.Laws.{IsField};

/// The bytes with their sum and product are a field.
pub fn bytes_are_a_field()
    ensures { IsField }
{}
