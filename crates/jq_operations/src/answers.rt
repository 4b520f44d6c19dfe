// The outputs of an answer.
ghost use Rattle.std.specs.Prelude.{◌≡◌, IfOk};
ghost use Rattle.jv_data.specs.Fails.{AnswersAs};
ghost use Rattle.jv_data.specs.View.{view};
ghost use Rattle.jq_meaning.specs.Runs.{plain};
ghost use Rattle.jq_meaning.specs.Runs as runs;
ghost use Rattle.jq_meaning.specs.Steps.{guarded_fail};
ghost use Rattle.jq_natives.specs.Answers.{Answer};
ghost use Rattle.jq_operations.specs.Outputs.{outputs_of};

use crate::outputs::Outputs;
use jq_state::items::Item;
use jv_data::{Fail, NoMemory, Val};

/// The value of an answer without a path, or its error.
pub(crate) fn answered(answer: Result<Val, Fail>) -> Result<Outputs, NoMemory>
    ensures { (expected : Answer) → AnswersAs answer expected → IfOk result (λ o. outputs_of o ≡ runs.answered plain expected) }
{
    match answer {
        Ok(value) => Ok(Outputs::One(Item::plain(value))),
        Err(Fail::Raised(error)) => Ok(Outputs::Error(error)),
        Err(Fail::NoMemory) => Err(NoMemory),
    }
}

/// The error of a step. With a `?` it is no output.
pub(crate) fn refused(guarded: bool, error: Val) -> Outputs
    ensures { outputs_of result ≡ guarded_fail guarded (view error) }
{
    if guarded {
        Outputs::Nothing
    } else {
        Outputs::Error(error)
    }
}
