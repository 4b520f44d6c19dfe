// Laws of folds over the inputs.
ghost use Rattle.jq_fold_steps.specs.laws.Compiled.{CompiledFoldsAreFoldable, CompiledFoldsWriteOutcomes, FoldsComeAfterThePrelude};
ghost use Rattle.jq_fold_steps.specs.laws.Outcomes.{FoldsWriteOutcomes};

use jq_filters::laws::functions_come_after_the_variables;
use jq_folds::laws::{
    a_fold_is_its_pieces, definitions_leave_inputs_alone, states_and_endings_of_pieces,
};
use jq_syntax::prelude_laws::{prelude_is_accepted, prelude_leaves_inputs_alone};

/// The pieces of a fold, one after the other, are the output, the errors and the status of the one run of its filter.
pub fn a_fold_writes_what_its_filter_writes()
    ensures { FoldsWriteOutcomes }
{
    a_fold_is_its_pieces();
    states_and_endings_of_pieces();
}

/// A compiled filter with the plan of a fold is one, in the bindings of its program.
pub fn a_compiled_fold_is_foldable()
    ensures { CompiledFoldsAreFoldable }
{
    prelude_is_accepted();
    prelude_leaves_inputs_alone();
    definitions_leave_inputs_alone();
    functions_come_after_the_variables();
}

/// The pieces of such a filter, one after the other, are the output, the errors and the status of its one run on null.
pub fn a_compiled_fold_writes_what_its_run_writes()
    ensures { CompiledFoldsWriteOutcomes }
{
    a_fold_writes_what_its_filter_writes();
    a_compiled_fold_is_foldable();
}

/// The fold of a compiled filter is that of its tree after the prelude.
pub fn a_compiled_fold_comes_after_the_prelude()
    ensures { FoldsComeAfterThePrelude }
{
    functions_come_after_the_variables();
}
