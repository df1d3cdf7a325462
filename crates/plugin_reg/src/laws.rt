//! Laws about the definitions alone. Each is the contract of a function with an empty body.
ghost use Rattle.plugin_reg.specs.Laws.{LinesAreReadBack, ReadProfilesAreWritable};

/// The canonical lines of a profile of the plugin jerasure are read as that profile.
pub fn lines_are_read_back()
    ensures { LinesAreReadBack }
{}

/// The canonical lines of each profile that was read are read back: its mapping and its layers have their marks alone.
pub fn read_profiles_are_writable()
    ensures { ReadProfilesAreWritable }
{}
