// Parts of a form that are run while a frame waits for their outputs. Each kind of frame has a function of its own: a `Step`,
// which can be a frame of every kind, is made here alone.
ghost use Rattle.std.specs.Prelude.{◌<◌, IfOk};
ghost use Rattle.jq_ast.specs.Named.{named};
ghost use Rattle.jq_meaning.specs.machine.State as frame;
ghost use Rattle.jq_state.specs.Environments.{count_of};
ghost use Rattle.jq_state.specs.Items.{item_of};
ghost use Rattle.jq_state.specs.Steps.{binding_in, combining_in, holding_in, operation_of, selecting_in};
ghost use Rattle.jq_transitions.specs.private.Entering.{Runs};

use jq_ast::Tree;
use jq_state::frames::Scope;
use jq_state::items::Item;
use jq_state::next::Next;
use jq_state::states::State;
use jq_state::steps::{Binding, Combining, Holding, Operation, Selecting, Step};
use jv_data::NoMemory;
use std::alloc::Global;

// The output of the part becomes a run at once.
pub(crate) fn run_operation<'p>(
    state: &mut State<'p>,
    step: Operation<'p>,
    part: &'p Tree,
    scope: Scope,
    input: Item,
) -> Result<Next<'p>, NoMemory>
    requires { scope.env < count_of state.old.nodes }
    ensures { IfOk result (λ n. Runs (λ p. frame.operation (operation_of step.entry)) (named part.now) state.old scope (item_of input) state.new n) }
{
    state.push(Step::Operation(step), scope)?;
    Ok(Next::Evaluate(part, scope, input))
}

// The output of the part is a key or a bound.
pub(crate) fn run_selecting<'p>(
    state: &mut State<'p>,
    step: Selecting<'p>,
    part: &'p Tree,
    scope: Scope,
    input: Item,
) -> Result<Next<'p>, NoMemory>
    requires { scope.env < count_of state.old.nodes }
    ensures { IfOk result (λ n. Runs (selecting_in step.entry) (named part.now) state.old scope (item_of input) state.new n) }
{
    state.push(Step::Selecting(step), scope)?;
    Ok(Next::Evaluate(part, scope, input))
}

// Another filter waits for the output of the part.
pub(crate) fn run_combining<'p>(
    state: &mut State<'p>,
    step: Combining<'p>,
    part: &'p Tree,
    scope: Scope,
    input: Item,
) -> Result<Next<'p>, NoMemory>
    requires { scope.env < count_of state.old.nodes }
    ensures { IfOk result (λ n. Runs (combining_in step.entry) (named part.now) state.old scope (item_of input) state.new n) }
{
    state.push(Step::Combining(step), scope)?;
    Ok(Next::Evaluate(part, scope, input))
}

// The frame belongs to a fork point.
pub(crate) fn run_holding<'p>(
    state: &mut State<'p>,
    step: Holding<'p>,
    part: &'p Tree,
    scope: Scope,
    input: Item,
) -> Result<Next<'p>, NoMemory>
    requires { scope.env < count_of state.old.nodes }
    ensures { IfOk result (λ n. Runs (holding_in step.entry) (named part.now) state.old scope (item_of input) state.new n) }
{
    state.push(Step::Holding(step), scope)?;
    Ok(Next::Evaluate(part, scope, input))
}

// A pattern waits for the output of the part, or the start value of a fold does.
pub(crate) fn run_binding<'p>(
    alloc: Global,
    state: &mut State<'p>,
    step: Binding<'p>,
    part: &'p Tree,
    scope: Scope,
    input: Item,
) -> Result<Next<'p>, NoMemory>
    requires { scope.env < count_of state.old.nodes }
    ensures { IfOk result (λ n. Runs (binding_in step.entry) (named part.now) state.old scope (item_of input) state.new n) }
{
    let Ok(step) = Box::new(alloc, step) else {
        return Err(NoMemory);
    };
    state.push(Step::Binding(step), scope)?;
    Ok(Next::Evaluate(part, scope, input))
}
