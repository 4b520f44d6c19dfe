// One step: a transition, or several where filters run at once.
ghost use Rattle.std.specs.Prelude.{IfOk};
ghost use Rattle.jq_state.specs.Environments.{count_of};
ghost use Rattle.jq_state.specs.Inputs.{inputs_of};
ghost use Rattle.jq_meaning.specs.machine.State as abstract;
ghost use Rattle.jq_state.specs.Items.{item_of};
ghost use Rattle.jq_state.specs.Nexts.{NextFits, stands};
ghost use Rattle.jq_engine.specs.private.Leading.{Leads, at_item};

use crate::folds::{run_step, top_step};
use crate::giving::give;
use crate::guards::Guard;
use crate::passing::go_back;
use crate::tails::evaluate;
use crate::through::pass_through;
use jq_state::inputs::Inputs;
use jq_state::items::Item;
use jq_state::next::Next;
use jq_state::states::State;
use jq_transitions::{Ending, Progress, leave, match_later, match_pattern, raise};
use jv_data::NoMemory;
use std::alloc::Global;

/// Does what is done next. Filters of at most one output may run at once on the way.
pub(crate) fn step<'p>(
    alloc: Global,
    state: &mut State<'p>,
    next: Next<'p>,
    inputs: &Inputs,
    guard: &mut Guard,
) -> Result<Progress<'p>, NoMemory>
    requires { NextFits (count_of state.old.nodes) next }
    ensures { IfOk result (Leads (inputs_of inputs.now) (stands (inputs_of inputs.now) state.old next.entry) state.new) }
{
    guard.earn();
    match next {
        Next::Evaluate(tree, scope, input) => {
            evaluate(alloc, state, tree, scope, input, inputs, guard)
        }
        Next::Give(item) => deliver(alloc, state, item, inputs, guard),
        Next::Matching(pattern, value, remaining, scope) => {
            let next = match_pattern(state, pattern, value, remaining, scope)?;
            Ok(Progress::Moves(next))
        }
        Next::Matched(remaining, scope) => {
            let next = match_later(alloc, state, remaining, scope)?;
            Ok(Progress::Moves(next))
        }
        Next::GoBack => go_back(alloc, state, inputs, guard),
        Next::Raise(error) => raise(state, error),
        Next::Leave(level) => Ok(leave(state, level)),
        Next::Quit(stop) => Ok(Progress::Finishes(Ending::Stopped(stop))),
    }
}

/// An item goes to the first frame that does not only pass it on. If that is a fold with one variable, its update may run at once.
pub(crate) fn deliver<'p>(
    alloc: Global,
    state: &mut State<'p>,
    item: Item,
    inputs: &Inputs,
    guard: &mut Guard,
) -> Result<Progress<'p>, NoMemory>
    ensures { IfOk result (Leads (inputs_of inputs.now) (at_item (inputs_of inputs.now) state.old (item_of item)) state.new) }
{
    pass_through(state);
    if let Some((step, scope)) = top_step(state) {
        state.skip();
        return run_step(alloc, state, step, scope, item, inputs, guard);
    }
    give(alloc, state, item)
}
