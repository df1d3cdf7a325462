//! Laws about the definitions alone. Each is the contract of a function with an empty body.
ghost use Rattle.ec_model.specs.Laws.{DataListsJoinBack, ThreeBytesInThreeLists};
ghost use Rattle.ec_model.specs.Laws.{AlikeCodesHaveTheSameLists, AlikeCodesDecideTheSame};

/// The data chunks, joined stripe by stripe and cut to the size, are the bytes.
pub fn data_lists_join_back()
    ensures { DataListsJoinBack }
{}

/// A worked example: three bytes in two data chunks, the second padded with a zero, and their sum.
pub fn three_bytes_in_three_lists()
    ensures { ThreeBytesInThreeLists }
{}

/// Codes that are alike have the same list at each position of an object.
pub fn alike_codes_have_the_same_lists()
    ensures { AlikeCodesHaveTheSameLists }
{}

/// Each set of positions decides the same in codes that are alike.
pub fn alike_codes_decide_the_same()
    ensures { AlikeCodesDecideTheSame }
{}
