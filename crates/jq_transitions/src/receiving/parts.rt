// The part of a value at a key.
ghost use Rattle.std.specs.Prelude.{◌≡◌, IfOk};
ghost use Rattle.jv_data.specs.View.{view};
ghost use Rattle.jv_value.specs.Index.{index_of};
ghost use Rattle.jq_transitions.specs.private.Found.{answer_of};

use jv_data::{Fail, NoMemory, Val};
use jv_value::index;
use std::alloc::Global;

/// The part of a value at a key, or the error of that step.
#[derive(Drop)]
pub(crate) enum Part {
    Value(Val),
    Error(Val),
}

pub(crate) fn part_at(alloc: Global, value: &Val, key: &Val) -> Result<Part, NoMemory>
    ensures { IfOk result (λ r. answer_of r ≡ index_of (view value.now) (view key.now)) }
{
    match index(alloc, value, key) {
        Ok(part) => Ok(Part::Value(part)),
        Err(Fail::Raised(error)) => Ok(Part::Error(error)),
        Err(Fail::NoMemory) => Err(NoMemory),
    }
}
