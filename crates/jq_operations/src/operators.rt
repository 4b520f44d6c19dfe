// Operators on two values.
ghost use Rattle.std.specs.Prelude.{◌≡◌, IfOk};
ghost use Rattle.jv_data.specs.Fails.{AnswersAs};
ghost use Rattle.jv_data.specs.View.{view};
ghost use Rattle.jq_ast.specs.Leaves as leaves;
ghost use Rattle.jq_meaning.specs.Continuations.{on_left};
ghost use Rattle.jq_meaning.specs.Steps.{operator_of};
ghost use Rattle.jq_state.specs.Items.{item_of};
ghost use Rattle.jq_operations.specs.Outputs.{outputs_of};

use crate::answers::answered;
use crate::outputs::Outputs;
use jq_ast::Operator;
use jq_state::items::Item;
use jv_arith::{add_to, div, mul, rem, sub};
use jv_data::{Fail, NoMemory, Val, order};
use std::alloc::Global;

/// The outputs of an operator for a left item and a right value.
pub(crate) fn operate(
    alloc: Global,
    operator: Operator,
    left: Item,
    right: &Val,
) -> Result<Outputs, NoMemory>
    ensures { IfOk result (λ o. outputs_of o ≡ on_left (leaves.operator_of operator) (view right.now) (item_of left)) }
{
    answered(operated(alloc, operator, left.value, right))
}

/// The answer of an operator. `+` changes a left value that is not shared in place.
pub fn operated(alloc: Global, operator: Operator, left: Val, right: &Val) -> Result<Val, Fail>
    ensures { AnswersAs result (operator_of (leaves.operator_of operator) (view left) (view right.now)) }
{
    match operator {
        Operator::Plus => add_to(alloc, left, right),
        Operator::Minus => sub(alloc, &left, right),
        Operator::Times => mul(alloc, &left, right),
        Operator::Divided => div(alloc, &left, right),
        Operator::Modulo => rem(alloc, &left, right),
        Operator::Equal => Ok(Val::Bool(order(&left, right).is_eq())),
        Operator::NotEqual => Ok(Val::Bool(order(&left, right).is_ne())),
        Operator::Less => Ok(Val::Bool(order(&left, right).is_lt())),
        Operator::LessOrEqual => Ok(Val::Bool(order(&left, right).is_le())),
        Operator::Greater => Ok(Val::Bool(order(&left, right).is_gt())),
        Operator::GreaterOrEqual => Ok(Val::Bool(order(&left, right).is_ge())),
    }
}
