// Filters that run one after the other, side by side, or one in place of the other.
ghost use Rattle.std.specs.Prelude.{◌<◌, IfOk};
ghost use Rattle.jq_ast.specs.Named.{named};
ghost use Rattle.jq_tree.specs.Tree as form;
ghost use Rattle.jq_state.specs.Environments.{count_of};
ghost use Rattle.jq_transitions.specs.private.Entering.{Enters};

use crate::evaluating::waiting::{run_combining, run_holding};
use jq_ast::Tree;
use jq_state::forks::Choice;
use jq_state::frames::Scope;
use jq_state::items::Item;
use jq_state::next::Next;
use jq_state::states::State;
use jq_state::steps::{Combining, Holding};
use jv_data::NoMemory;
use std::alloc::Global;

// `f | g`.
pub(crate) fn enter_pipe<'p>(
    state: &mut State<'p>,
    first: &'p Tree,
    second: &'p Tree,
    scope: Scope,
    input: Item,
) -> Result<Next<'p>, NoMemory>
    requires { scope.env < count_of state.old.nodes }
    ensures { IfOk result (λ n. Enters (form.pipe (named first.now) (named second.now)) state.old scope input state.new n) }
{
    run_combining(state, Combining::PipeInto(second), first, scope, input)
}

// `f, g`.
pub(crate) fn enter_comma<'p>(
    alloc: Global,
    state: &mut State<'p>,
    first: &'p Tree,
    second: &'p Tree,
    scope: Scope,
    input: Item,
) -> Result<Next<'p>, NoMemory>
    requires { scope.env < count_of state.old.nodes }
    ensures { IfOk result (λ n. Enters (form.comma (named first.now) (named second.now)) state.old scope input state.new n) }
{
    let kept = input.copy()?;
    state.fork(Choice::Other(second, kept), Vec::new(alloc), scope)?;
    Ok(Next::Evaluate(first, scope, input))
}

// `f // g`.
pub(crate) fn enter_alternative<'p>(
    alloc: Global,
    state: &mut State<'p>,
    left: &'p Tree,
    right: &'p Tree,
    scope: Scope,
    input: Item,
) -> Result<Next<'p>, NoMemory>
    requires { scope.env < count_of state.old.nodes }
    ensures { IfOk result (λ n. Enters (form.alternative (named left.now) (named right.now)) state.old scope input state.new n) }
{
    let height = state.height();
    let kept = input.copy()?;
    state.fork(Choice::RightSide(right, kept), Vec::new(alloc), scope)?;
    run_holding(state, Holding::LeftSide(height), left, scope, input)
}

// `if f then g else h end`.
pub(crate) fn enter_choice<'p>(
    state: &mut State<'p>,
    condition: &'p Tree,
    holds: &'p Tree,
    fails: &'p Tree,
    scope: Scope,
    input: Item,
) -> Result<Next<'p>, NoMemory>
    requires { scope.env < count_of state.old.nodes }
    ensures { IfOk result (λ n. Enters (form.choice (named condition.now) (named holds.now) (named fails.now)) state.old scope input state.new n) }
{
    let value = input.value.copy()?;
    run_combining(
        state,
        Combining::Test(holds, fails, input),
        condition,
        scope,
        Item::plain(value),
    )
}

// `try f catch g`.
pub(crate) fn enter_try<'p>(
    state: &mut State<'p>,
    body: &'p Tree,
    handler: &'p Tree,
    scope: Scope,
    input: Item,
) -> Result<Next<'p>, NoMemory>
    requires { scope.env < count_of state.old.nodes }
    ensures { IfOk result (λ n. Enters (form.try_catch (named body.now) (named handler.now)) state.old scope input state.new n) }
{
    let height = state.height();
    let kept = input.copy()?;
    run_holding(
        state,
        Holding::TryBody(height, handler, kept),
        body,
        scope,
        input,
    )
}
