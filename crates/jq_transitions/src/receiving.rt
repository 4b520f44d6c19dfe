// What is done with an item that is given to a frame.
ghost use Rattle.std.specs.Prelude.{◌<◌, IfOk};
ghost use Rattle.jq_meaning.specs.machine.Giving as machine;
ghost use Rattle.jq_meaning.specs.machine.Operations as operations;
ghost use Rattle.jq_state.specs.Environments.{count_of};
ghost use Rattle.jq_state.specs.Items.{item_of};
ghost use Rattle.jq_state.specs.Nexts.{ComesTo, on_stack, transition};
ghost use Rattle.jq_state.specs.Steps.{operation_of, step_in};

mod binders;
mod binding;
mod combining;
mod holding;
mod items;
mod making;
mod parts;
pub mod patterns;
mod selecting;

use crate::receiving::binding::bind;
use crate::receiving::combining::combine;
use crate::receiving::holding::hold;
use crate::receiving::making::make;
use crate::receiving::selecting::select;
use jq_operations::delivery::deliver;
use jq_operations::run;
use jq_state::frames::Scope;
use jq_state::items::Item;
use jq_state::next::Next;
use jq_state::states::State;
use jq_state::steps::{Operation, Step};
use jv_data::NoMemory;
use std::alloc::Global;

/// An item is given to a frame that was taken off: what is done next.
pub fn receive<'p>(
    alloc: Global,
    state: &mut State<'p>,
    step: Step<'p>,
    scope: Scope,
    item: Item,
) -> Result<Next<'p>, NoMemory>
    requires { scope.env < count_of state.old.nodes }
    ensures { IfOk result (λ n. ComesTo (transition state.old scope (λ p. machine.receive (step_in step.entry p) (item_of item))) state.new n) }
{
    match step {
        Step::Operation(operation) => operate(alloc, state, operation, item),
        Step::Selecting(step) => select(alloc, state, step, scope, item),
        Step::Combining(step) => combine(state, step, scope, item),
        Step::Making(step) => make(alloc, state, Box::into_inner(step), scope, item),
        Step::Binding(step) => bind(alloc, state, Box::into_inner(step), scope, item),
        Step::Holding(step) => hold(state, step, scope, item),
    }
}

fn operate<'p>(
    alloc: Global,
    state: &mut State<'p>,
    operation: Operation<'p>,
    item: Item,
) -> Result<Next<'p>, NoMemory>
    ensures { IfOk result (λ n. ComesTo (on_stack state.old (operations.deliver (operations.result_of (operation_of operation.entry) (item_of item)))) state.new n) }
{
    let outputs = run(alloc, operation, item)?;
    deliver(alloc, state, outputs)
}
