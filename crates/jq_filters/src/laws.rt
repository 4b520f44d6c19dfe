// Laws of a filter in the bindings of its program, of runs up to a halt, and of filters that never halt.
ghost use Rattle.std.specs.Prelude.{◌≡◌, ◌≤◌, List, None, length};
ghost use Rattle.jv_text.specs.Stream.{Values};
ghost use Rattle.jq_meaning.specs.Runs.{Run, Item};
ghost use Rattle.jq_filters.specs.Outcomes.{Job, Mode, first_halt, runs_in, up_to_halt};
ghost use Rattle.jq_filters.specs.Unhalted.{NeverHalts};
ghost use Rattle.jq_filters.specs.laws.Bindings.{BindingsStandForThePrelude, FunctionsComeAfterTheVariables};
ghost use Rattle.jq_filters.specs.laws.Updates.{FunctionsAreThePreludes, ModifyIsKnown};
ghost use Rattle.jq_filters.specs.laws.Unhalted.{NeverHaltsAfterThePrelude, NeverHaltsInItsBindings};

use jq_syntax::prelude_laws::{only_halt_error_halts, prelude_is_accepted};

/// A filter in the bindings of its program has the meaning of the filter after the prelude, in the variables.
#[tactic(auto, using(crate::proofs::Around::runs_as_whole))]
pub fn bindings_stand_for_the_prelude()
    ensures { BindingsStandForThePrelude }
{}

/// The functions of a program are those that the prelude's text defines.
pub fn functions_are_the_preludes()
    ensures { FunctionsAreThePreludes }
{
    prelude_is_accepted();
}

/// Among the bindings of a program is the prelude's `_modify`.
pub fn the_prelude_has_modify()
    ensures { ModifyIsKnown }
{}

/// The bindings of a program are those of its functions, around which are the variables.
#[tactic(auto, using(crate::proofs::Around::around))]
pub fn functions_come_after_the_variables()
    ensures { FunctionsComeAfterTheVariables }
{}

/// If no run halts, all are made. If one halts, no more runs are made than there are.
#[tactic(auto, using(crate::proofs::shared::Halting::none_halts, crate::proofs::shared::Halting::no_more_runs))]
pub fn all_runs_are_made_unless_one_halts()
    ensures all { (runs : List (Run Item)) → first_halt runs ≡ None → up_to_halt runs ≡ runs }
    ensures at_most { (runs : List (Run Item)) → length (up_to_halt runs) ≤ length runs }
{}

/// A filter that calls no function that halts never halts after the prelude, nor in the bindings of its program.
pub fn filters_without_a_call_of_halt_never_halt()
    ensures after_the_prelude { NeverHaltsAfterThePrelude }
    ensures in_its_bindings { NeverHaltsInItsBindings }
{
    prelude_is_accepted();
    only_halt_error_halts();
}

/// All runs of a filter that never halts are made.
#[tactic(auto, using(crate::proofs::NeverHalting::no_run_halts, crate::proofs::NeverHalting::all_runs_made))]
pub fn all_runs_are_made_of_a_filter_that_never_halts()
    ensures none { (mode : Mode) (job : Job) (found : Values) → NeverHalts job.run → first_halt (runs_in mode job found) ≡ None }
    ensures all { (mode : Mode) (job : Job) (found : Values) → NeverHalts job.run → up_to_halt (runs_in mode job found) ≡ runs_in mode job found }
{}
