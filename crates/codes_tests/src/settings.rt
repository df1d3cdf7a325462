//! Settings of profiles, as the rows of the tables of tests have them.
use ec_code::Technique;

/// A number in a row of a table that stands for a setting that is left out.
pub(crate) const NONE: u32 = 99;

/// The setting of a number.
pub(crate) fn given(n: u32) -> Option<u32> {
    if n == NONE { None } else { Some(n) }
}

/// The technique of a number: 0 for none, 1 for `reed_sol_van`, 2 for `single`, else another text.
pub(crate) fn technique(which: u32) -> Option<Technique> {
    match which {
        0 => None,
        1 => Some(Technique::ReedSolVan),
        2 => Some(Technique::Single),
        _ => Some(Technique::Other),
    }
}
