//! Laws about files, for every caller. Each is the contract of a function that does nothing.
ghost use Rattle.ec_files.specs.Laws.{AnswersAreExact, WrittenFilesAreFound, EncodedFilesComeBack, EncodedFilesAreOne, DecodedFilesAreOne};

use read_plan::least_plan_is_one;

/// An answer that is neither `Failed` nor `NoMemory` comes exactly if the file is as the answer says.
pub fn answers_are_exact()
    ensures { AnswersAreExact }
{}

/// After a write that succeeds, the file has its bytes, and each other file stays.
pub fn written_files_are_found()
    ensures { WrittenFilesAreFound }
{}

/// The chunk files that `encode` wrote of a file are decoded to that file, padded with zeros, from each list of positions that
/// decides the data.
pub fn encoded_files_come_back()
    ensures { EncodedFilesComeBack }
{}

/// The outcome of `encode` over told files is determined.
pub fn encoded_files_are_one()
    ensures { EncodedFilesAreOne }
{}

/// The outcome of `decode` over told files is determined.
pub fn decoded_files_are_one()
    ensures { DecodedFilesAreOne }
{
    least_plan_is_one()
}
