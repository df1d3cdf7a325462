//! What holds of the definitions.
ghost use Rattle.stripe_map.specs.DecodingLaws.{DataIsItsMask, DataMaskLiesBelow, SumIsTheList};
ghost use Rattle.stripe_map.specs.AssemblingLaws.{MadeIsTheObject};

/// A set decides all data positions exactly if it decides their mask.
pub fn data_positions_are_a_mask()
    ensures { DataIsItsMask }
{}

/// The mask of the data positions lies below n.
pub fn data_mask_lies_below()
    ensures { DataMaskLiesBelow }
{}

/// The chunks of a set that decides the data positions make the object to which they belong.
pub fn what_is_made_is_the_object()
    ensures { MadeIsTheObject }
{}

/// The list of a position follows from the lists of a set that decides it, whatever else the set decides.
pub fn sum_of_lists_is_the_list()
    ensures { SumIsTheList }
{}
