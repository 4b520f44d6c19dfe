// The tree of the prelude, computed from its text: it is accepted, its names are bound, and written-out forms call it.

ghost use Rattle.jq_tree.specs.Prelude.{IsPrelude};
ghost use Rattle.jq_syntax.specs.laws.Computed.{prelude};
ghost use Rattle.jq_syntax.specs.laws.OfThePrelude.{OneTree, StandsBefore, OnlyDefinitions, AllNamesBound, CallsNoInputs, DefinesNoInputs, RecurseIsThePreludes, AssignIsThePreludes, ModifyIsThePreludes, OnlyHaltErrorHalts};

use jq_parser::laws::{computed_tree, one_tree};
use jq_tree::lexing::{computed_tokens, one_reading};

/// The prelude's text is accepted, with this tree only.
pub fn prelude_is_accepted()
    ensures accepted { IsPrelude prelude }
    ensures one { OneTree }
{
    computed_tokens();
    computed_tree();
    one_reading();
    one_tree();
}

/// A filter is read as if the prelude's text came before it.
pub fn prelude_stands_before_a_filter()
    ensures { StandsBefore }
{
    computed_tokens();
    computed_tree();
    one_reading();
}

/// The text consists of definitions only, and each name in them is bound.
pub fn prelude_is_definitions()
    ensures alone { OnlyDefinitions }
    ensures bound { AllNamesBound }
{}

/// The prelude neither calls `inputs` nor defines a function of that name.
pub fn prelude_leaves_inputs_alone()
    ensures calls { CallsNoInputs }
    ensures names { DefinesNoInputs }
{}

/// The functions that written-out forms call are the prelude's, for any bindings of the filter and the command.
pub fn written_out_forms_call_the_prelude()
    ensures recurse { RecurseIsThePreludes }
    ensures assign { AssignIsThePreludes }
    ensures modify { ModifyIsThePreludes }
{}

/// No function of the prelude calls one that halts, except `halt_error`.
#[tactic(auto, using(crate::proofs::Halting::only_halt_error_halts))]
pub fn only_halt_error_halts()
    ensures { OnlyHaltErrorHalts }
{}
