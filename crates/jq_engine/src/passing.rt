// Items that go to the filter after a `|`, which may run at once.
ghost use Rattle.std.specs.Prelude.{◌≡◌, ◌∷◌, ◌<◌, IfOk, IfSome};
ghost use Rattle.jv_data.specs.Value.{Value};
ghost use Rattle.jq_ast.specs.Named.{named};
ghost use Rattle.jq_meaning.specs.Runs.{Run};
ghost use Rattle.jq_meaning.specs.machine.State as abstract;
ghost use Rattle.jq_state.specs.Environments.{count_of};
ghost use Rattle.jq_state.specs.Inputs.{inputs_of};
ghost use Rattle.jq_state.specs.Items.{item_of};
ghost use Rattle.jq_state.specs.Links.{scope_in};
ghost use Rattle.jq_state.specs.Steps.{step_in};
ghost use Rattle.jq_state.specs.Views.{envs_in, frames_in, forks_in, IsFirst};
ghost use Rattle.jq_engine.specs.private.Leading.{GoesOn, Leads, at_filter, at_item};

use crate::at_once::run_at_once;
use crate::folds::{run_step, top_step};
use crate::giving::give;
use crate::guards::Guard;
use crate::tails::begin;
use jq_ast::Tree;
use jq_heuristics::is_update;
use jq_state::frames::Scope;
use jq_state::inputs::Inputs;
use jq_state::items::Item;
use jq_state::states::State;
use jq_state::steps::{Combining, Step};
use jq_transitions::{Progress, go_back_once, resume_newest};
use jv_data::NoMemory;
use std::alloc::Global;

// How many items of a fork point are passed on in one step.
const ITEMS: u32 = 1_000;

// An item goes to the first frame that waits; with none it is an output. The filter after a `|`, or the update of a fold, may run
// at once. `None` means that the filter ended without an output.
fn pass<'p>(
    alloc: Global,
    state: &mut State<'p>,
    item: Item,
    inputs: &Inputs,
    guard: &mut Guard,
) -> Result<Option<Progress<'p>>, NoMemory>
    ensures { IfOk result (GoesOn (inputs_of inputs.now) (at_item (inputs_of inputs.now) state.old (item_of item)) state.new) }
{
    if let Some((tree, scope)) = top_pipe(state) {
        state.skip();
        return evaluate(alloc, state, tree, scope, item, inputs, guard);
    }
    if let Some((step, scope)) = top_step(state) {
        state.skip();
        let progress = run_step(alloc, state, step, scope, item, inputs, guard)?;
        return Ok(Some(progress));
    }
    let progress = give(alloc, state, item)?;
    Ok(Some(progress))
}

// The filter after a `|` that gets the next item, and its scope.
#[inline(always)]
fn top_pipe<'p>(state: &State<'p>) -> Option<(&'p Tree, Scope)>
    ensures scope { IfSome result (λ r. r.1.env < count_of state.now.nodes) }
    ensures frames { IfSome result (λ r. (inputs : Run Value) → IsFirst (abstract.pipe_into (named r.0.now) (scope_in (envs_in inputs state.now) r.1)) (frames_in inputs state.now)) }
{
    let Some((step, scope)) = state.top() else {
        return None;
    };
    match piped(step) {
        Some(tree) => Some((tree, scope)),
        None => None,
    }
}

// The filter after a `|` runs at once, if it may, or does its first transition.
fn evaluate<'p>(
    alloc: Global,
    state: &mut State<'p>,
    tree: &'p Tree,
    scope: Scope,
    input: Item,
    inputs: &Inputs,
    guard: &mut Guard,
) -> Result<Option<Progress<'p>>, NoMemory>
    requires { scope.env < count_of state.old.nodes }
    ensures { IfOk result (GoesOn (inputs_of inputs.now) (at_filter (inputs_of inputs.now) state.old (named tree.now) scope (item_of input)) state.new) }
{
    if guard.tries(tree, &input) {
        return run_at_once(alloc, state, tree, scope, input.value, inputs, guard);
    }
    let progress = begin(alloc, state, tree, scope, input, inputs, guard)?;
    Ok(Some(progress))
}

// The filter after a `|`, if it is not an update, which has a step of its own.
#[inline(always)]
fn piped<'p>(step: &Step<'p>) -> Option<&'p Tree>
    ensures { IfSome result (λ t. (p : abstract.Scope) → step_in step.now p ≡ abstract.pipe_into (named t.now) p) }
{
    match step {
        Step::Combining(Combining::PipeInto(tree)) => {
            if is_update(tree) { None } else { Some(*tree) }
        }
        _ => None,
    }
}

/// Goes back to the newest fork point. As long as the items that it gives end without an output the next one follows.
pub(crate) fn go_back<'p>(
    alloc: Global,
    state: &mut State<'p>,
    inputs: &Inputs,
    guard: &mut Guard,
) -> Result<Progress<'p>, NoMemory>
    ensures { IfOk result (Leads (inputs_of inputs.now) (abstract.state abstract.go_back (frames_in (inputs_of inputs.now) state.old) (forks_in (inputs_of inputs.now) state.old)) state.new) }
{
    let mut left = ITEMS;
    'items: while left > 0 {
        left -= 1;
        match state.give_next() {
            Some(item) => {
                if let Some(progress) = pass(alloc, state, item, inputs, guard)? {
                    return Ok(progress);
                }
                guard.earn();
            }
            None => return resume_newest(alloc, state, inputs),
        }
    }
    go_back_once(alloc, state, inputs)
}
