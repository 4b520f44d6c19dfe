// Items that are given to the frames of forms which combine filters.
ghost use Rattle.std.specs.Prelude.{◌<◌, IfOk};
ghost use Rattle.jq_ast.specs.Leaves.{operator_of};
ghost use Rattle.jq_ast.specs.Named.{named};
ghost use Rattle.jq_meaning.specs.machine.Giving as machine;
ghost use Rattle.jq_meaning.specs.machine.State as frame;
ghost use Rattle.jq_state.specs.Environments.{count_of};
ghost use Rattle.jq_state.specs.Items.{item_of};
ghost use Rattle.jq_state.specs.Nexts.{ComesTo, transition};
ghost use Rattle.jq_state.specs.Steps.{combining_in};

use crate::receiving::items::{into_value, is_true};
use jq_ast::{Operator, Tree};
use jq_state::frames::Scope;
use jq_state::items::Item;
use jq_state::next::Next;
use jq_state::states::State;
use jq_state::steps::{Combining, Operation, Step};
use jv_data::{NoMemory, Val};

pub(crate) fn combine<'p>(
    state: &mut State<'p>,
    step: Combining<'p>,
    scope: Scope,
    item: Item,
) -> Result<Next<'p>, NoMemory>
    requires { scope.env < count_of state.old.nodes }
    ensures { IfOk result (λ n. ComesTo (transition state.old scope (λ p. machine.receive (combining_in step.entry p) (item_of item))) state.new n) }
{
    match step {
        Combining::PipeInto(second) => Ok(Next::Evaluate(second, scope, item)),
        Combining::RightOperand(operator, left, input) => {
            right_operand(state, operator, left, input, scope, item)
        }
        Combining::Conjunct(right, input) => conjunct(state, right, input, scope, item),
        Combining::Disjunct(right, input) => disjunct(state, right, input, scope, item),
        Combining::Test(holds, fails, input) => {
            let branch = if is_true(&item) { holds } else { fails };
            Ok(Next::Evaluate(branch, scope, input))
        }
    }
}

// The right operand is known, so the left one is run.
fn right_operand<'p>(
    state: &mut State<'p>,
    operator: Operator,
    left: &'p Tree,
    input: Item,
    scope: Scope,
    item: Item,
) -> Result<Next<'p>, NoMemory>
    requires { scope.env < count_of state.old.nodes }
    ensures { IfOk result (λ n. ComesTo (transition state.old scope (λ p. machine.receive (frame.right_operand (operator_of operator) (named left.now) p (item_of input)) (item_of item))) state.new n) }
{
    let operation = Operation::Operate(operator, into_value(item));
    state.push(Step::Operation(operation), scope)?;
    Ok(Next::Evaluate(left, scope, input))
}

// A left operand of `and` that is false decides.
fn conjunct<'p>(
    state: &mut State<'p>,
    right: &'p Tree,
    input: Item,
    scope: Scope,
    item: Item,
) -> Result<Next<'p>, NoMemory>
    requires { scope.env < count_of state.old.nodes }
    ensures { IfOk result (λ n. ComesTo (transition state.old scope (λ p. machine.receive (frame.conjunct (named right.now) p (item_of input)) (item_of item))) state.new n) }
{
    if !is_true(&item) {
        return Ok(Next::Give(Item::plain(Val::Bool(false))));
    }
    state.push(Step::Operation(Operation::ToTruth), scope)?;
    Ok(Next::Evaluate(right, scope, input))
}

// A left operand of `or` that is true decides.
fn disjunct<'p>(
    state: &mut State<'p>,
    right: &'p Tree,
    input: Item,
    scope: Scope,
    item: Item,
) -> Result<Next<'p>, NoMemory>
    requires { scope.env < count_of state.old.nodes }
    ensures { IfOk result (λ n. ComesTo (transition state.old scope (λ p. machine.receive (frame.disjunct (named right.now) p (item_of input)) (item_of item))) state.new n) }
{
    if is_true(&item) {
        return Ok(Next::Give(Item::plain(Val::Bool(true))));
    }
    state.push(Step::Operation(Operation::ToTruth), scope)?;
    Ok(Next::Evaluate(right, scope, input))
}
