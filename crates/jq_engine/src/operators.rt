// Operators on the input and a constant, as in `. + 1`.
ghost use Rattle.std.specs.Prelude.{◌≡◌, IfSome};
ghost use Rattle.jv_data.specs.Value.{Value};
ghost use Rattle.jv_data.specs.View.{view};
ghost use Rattle.jq_ast.specs.Leaves.{literal_of, operator_of};
ghost use Rattle.jq_ast.specs.Named.{named};
ghost use Rattle.jq_tree.specs.Tree as form;
ghost use Rattle.jq_meaning.specs.Continuations.{value_of_literal};
ghost use Rattle.jq_meaning.specs.Runs.{answered, plain};
ghost use Rattle.jq_meaning.specs.Steps as meaning;
ghost use Rattle.jq_single.specs.Single.{Changed, Keeps};

use jq_ast::{Literal, Operator, Tree};
use jq_operations::operated;
use jq_single::Stop;
use jv_data::{Fail, Val};
use std::alloc::Global;
use std::mem::replace;

/// The operator and the constant, if a filter is an operator on its input and a constant.
#[inline(always)]
pub(crate) fn on_constant(tree: &Tree) -> Option<(Operator, &Literal)>
    ensures { IfSome result (λ r. named tree.now ≡ form.binary (operator_of r.0) form.identity (form.literal (literal_of r.1.now))) }
{
    let Tree::Binary(operator, left, right) = tree else {
        return None;
    };
    let Tree::Identity = &**left else {
        return None;
    };
    match &**right {
        Tree::Literal(constant) => Some((*operator, constant)),
        _ => None,
    }
}

/// The answer of an operator on a value and a constant takes the value's place.
#[inline(always)]
pub(crate) fn operate(
    alloc: Global,
    operator: Operator,
    constant: &Literal,
    value: &mut Val,
) -> Result<(), Stop>
    ensures runs { Changed result (view value.new) (answered plain (meaning.operator_of (operator_of operator) (view value.old) (value_of_literal (literal_of constant.now)))) }
    ensures keeps { (v : Value) → Keeps result v (view value.new) }
{
    let left = replace(value, Val::Null);
    match operated(alloc, operator, left, value_of(constant)) {
        Ok(found) => {
            *value = found;
            Ok(())
        }
        Err(Fail::Raised(error)) => Err(Stop::Raised(error)),
        Err(Fail::NoMemory) => Err(Stop::NoMemory),
    }
}

// The value of a constant.
#[inline(always)]
fn value_of(constant: &Literal) -> &Val
    ensures { view result.now ≡ value_of_literal (literal_of constant.now) }
{
    constant.value()
}
