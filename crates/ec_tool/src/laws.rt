//! Laws about runs, for every caller. Each is the contract of a function that does nothing.
ghost use Rattle.std.specs.Prelude.{◌≡◌, ◌<◌, ℕ, length, slice_index_or};
ghost use Rattle.plugin_reg.specs.Boxes.{HaveBox};
ghost use Rattle.ec_tool.specs.Laws.{EncodedRunsComeBack, WordsAskForOneThing, ProfilesAreOne, CodesAreOne, OutcomesAreOne};

use ec_code::Code;
use lrc_layers::layers_have_one_code;
use read_plan::least_plan_is_one;

/// A run of `decode` over the files that a run of `encode` left gives the file back, by boxes of these names.
pub fn encoded_runs_come_back(codes: &[Box<dyn Code>])
    ensures { EncodedRunsComeBack (HaveBox (λ box. plugin_name box) codes.now) }
{
    layers_have_one_code()
}

/// The same words ask for one thing: two requests that they ask for are of one kind, with the same texts and numbers.
pub fn words_ask_for_one_thing()
    ensures { WordsAskForOneThing }
{}

/// A text is refused with one fault, or gives one profile.
pub fn profiles_are_one()
    ensures { ProfilesAreOne }
{}

/// An accepted profile has one code.
pub fn codes_are_one()
    ensures { CodesAreOne }
{
    layers_have_one_code()
}

/// Two runs of the same words, by boxes of these names and over the same told files, end alike, except for failures and want of
/// memory.
pub fn outcomes_are_one(codes: &[Box<dyn Code>])
    ensures { OutcomesAreOne (HaveBox (λ box. plugin_name box) codes.now) }
{
    layers_have_one_code();
    least_plan_is_one()
}
