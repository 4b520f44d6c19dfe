// Why a filter that was run at once has no output.
ghost use Rattle.std.specs.Prelude.{◌≡◌};
ghost use Rattle.jv_data.specs.Fails.{AnswersAs};
ghost use Rattle.jv_data.specs.Value.{Value};
ghost use Rattle.jv_data.specs.View.{view};
ghost use Rattle.jq_meaning.specs.Runs.{answered, plain};
ghost use Rattle.jq_meaning.specs.Steps.{guarded_fail};
ghost use Rattle.jq_natives.specs.Answers.{Answer};
ghost use Rattle.jq_single.specs.Single.{Ends, Keeps};
ghost use Rattle.jq_single.specs.private.Parts.{Answers};

use jv_data::{Fail, NoMemory, Val};
use std::alloc::AllocError;

/// Why a filter that was run at once has no output.
#[derive(Drop)]
pub enum Stop {
    /// It has none.
    Nothing,
    /// It raises this error.
    Raised(Val),
    /// Out of memory.
    NoMemory,
    /// It has a form that is not run at once, and nothing is claimed of its run.
    Unknown,
}

impl From<NoMemory> for Stop {
    ghost use Rattle.jq_single.specs.declared.stops.Stop.TheVariants.{NoMemory};

    ghost from_gives = { λ _ s. s ≡ NoMemory };

    fn from(_error: NoMemory) -> Stop {
        Stop::NoMemory
    }
}

impl From<AllocError> for Stop {
    ghost use Rattle.jq_single.specs.declared.stops.Stop.TheVariants.{NoMemory};

    ghost from_gives = { λ _ s. s ≡ NoMemory };

    fn from(_error: AllocError) -> Stop {
        Stop::NoMemory
    }
}

/// The value of an answer, or its error. An answer is never unknown.
#[inline(always)]
pub(crate) fn answer(answer: Result<Val, Fail>) -> Result<Val, Stop>
    ensures runs { (expected : Answer) → AnswersAs answer expected → Answers result (answered plain expected) }
    ensures known { (before later : Value) → Keeps result before later }
{
    match answer {
        Ok(value) => Ok(value),
        Err(Fail::Raised(error)) => Err(Stop::Raised(error)),
        Err(Fail::NoMemory) => Err(Stop::NoMemory),
    }
}

/// The error of a step. With a `?` it is no output.
pub(crate) fn refused(guarded: bool, error: Val) -> Stop
    ensures { Ends result (guarded_fail guarded (view error)) }
{
    if guarded {
        Stop::Nothing
    } else {
        Stop::Raised(error)
    }
}
