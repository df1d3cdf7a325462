//! Laws about the definitions of this crate.
ghost use Rattle.lrc_layers.specs.Laws.{LayersHaveOneCode, ShortTextsAreKept, DataChunksAreCounted};

/// A mapping and layers without a fault have one code.
pub fn layers_have_one_code()
    ensures { LayersHaveOneCode }
{}

/// The kept parts of a mapping and of a layer determine their texts.
pub fn texts_are_kept()
    ensures short { ShortTextsAreKept }
    ensures counted { DataChunksAreCounted }
{}
