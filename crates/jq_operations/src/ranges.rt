// `range`, whose outputs are numbers.
ghost use Rattle.std.specs.Prelude.{◌≡◌, IfOk, map};
ghost use Rattle.jv_data.specs.View.{view};
ghost use Rattle.jq_meaning.specs.Builtins.{not_numeric, numbers_between, range_of};
ghost use Rattle.jq_operations.specs.Outputs.{outputs_of};
ghost use Rattle.jq_operations.specs.private.Ranges.{range_by};

use crate::outputs::Outputs;
use jv_data::{NoMemory, Val};
use std::alloc::Global;

/// `range(start; end)` and `range(start; end; step)`.
pub(crate) fn range(alloc: Global, bounds: &[Val]) -> Result<Outputs, NoMemory>
    ensures { IfOk result (λ o. outputs_of o ≡ range_of (map view bounds.now)) }
{
    match bounds {
        [start, end] => range_by(alloc, start, end, &Val::Num(1)),
        [start, end, step] => range_by(alloc, start, end, step),
        _ => not_numeric(alloc),
    }
}

fn range_by(alloc: Global, start: &Val, end: &Val, step: &Val) -> Result<Outputs, NoMemory>
    ensures { IfOk result (λ o. outputs_of o ≡ range_by (view start.now) (view end.now) (view step.now)) }
{
    match (start, end, step) {
        (Val::Num(start), Val::Num(end), Val::Num(step)) => numbers(alloc, *start, *end, *step),
        _ => not_numeric(alloc),
    }
}

fn not_numeric(alloc: Global) -> Result<Outputs, NoMemory>
    ensures { IfOk result (λ o. outputs_of o ≡ not_numeric) }
{
    Ok(Outputs::Error(Val::from_text(alloc, "Range bounds must be numeric")?))
}

fn numbers(alloc: Global, start: i64, end: i64, step: i64) -> Result<Outputs, NoMemory>
    ensures { IfOk result (λ o. outputs_of o ≡ numbers_between start end step) }
{
    if step == 0 {
        return Ok(Outputs::Error(Val::from_text(alloc, "Range step is 0")?));
    }
    Ok(Outputs::Numbers(start, end, step))
}
