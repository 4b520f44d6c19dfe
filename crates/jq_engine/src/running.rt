// Transitions up to the next output, or to the ending.
ghost use Rattle.std.specs.Prelude.{IfOk};
ghost use Rattle.jq_meaning.specs.Runs as runs;
ghost use Rattle.jq_meaning.specs.machine.Machine.{Produces};
ghost use Rattle.jq_state.specs.Environments.{count_of};
ghost use Rattle.jq_state.specs.Inputs.{inputs_of};
ghost use Rattle.jq_state.specs.Nexts.{NextFits, stands};
ghost use Rattle.jq_engine.specs.Readiness.{CanGoOn};
ghost use Rattle.jq_engine.specs.private.Leading.{AtOnce};
ghost use Rattle.jq_engine.specs.private.Reaching.{HasReached, IsReadyAfter};

use crate::apart::Around;
use crate::guards::Guard;
use crate::stepping::step;
use jq_heuristics::is_update;
use jq_meaning::machine::{
    a_filter_may_run_at_once, a_transition_keeps_the_run, heights_stay_in_range,
};
use jq_state::inputs::Inputs;
use jq_state::items::Item;
use jq_state::next::Next;
use jq_state::states::State;
use jq_transitions::{Ending, Progress};
use jv_data::NoMemory;
use std::alloc::Global;

/// What a run comes to.
#[derive(Drop)]
pub(crate) enum Reached {
    Output(Item),
    End(Ending),
}

/// Runs up to the next output, after which the run goes back, or to the ending. Runs apart may nest so deep in it.
#[cycle(running)]
pub(crate) fn run<'p>(
    alloc: Global,
    state: &mut State<'p>,
    next: Next<'p>,
    inputs: &Inputs,
    guard: &mut Guard,
    nesting: u8,
) -> Result<Reached, NoMemory>
    requires { ∥ CanGoOn (inputs_of inputs.now) state.old next ∥₁ }
    ensures rest { IfOk result (λ s. (rest : runs.Run runs.Item) → Produces (stands (inputs_of inputs.now) state.old next.entry) rest → HasReached (inputs_of inputs.now) rest state.new s) }
    ensures ready { IfOk result (λ s. ∥ IsReadyAfter (inputs_of inputs.now) state.new s ∥₁) }
{
    a_transition_keeps_the_run();
    a_filter_may_run_at_once();
    heights_stay_in_range();
    let mut next = next;
    'transitions: loop {
        let first = updated(alloc, &*state, next, inputs, guard, nesting)?;
        match step(alloc, state, first, inputs, guard)? {
            Progress::Moves(later) => next = later,
            Progress::Outputs(item) => return Ok(Reached::Output(item)),
            Progress::Finishes(ending) => return Ok(Reached::End(ending)),
        }
    }
}

// What is done next: after the update, if that is what was next. Inside `path(f)` an update is left to the machine.
#[cycle(running)]
#[inline(always)]
fn updated<'p>(
    alloc: Global,
    state: &State<'p>,
    next: Next<'p>,
    inputs: &Inputs,
    guard: &mut Guard,
    nesting: u8,
) -> Result<Next<'p>, NoMemory>
    requires { NextFits (count_of state.now.nodes) next }
    ensures fits { IfOk result (NextFits (count_of state.now.nodes)) }
    ensures run { IfOk result (λ n. AtOnce (stands (inputs_of inputs.now) state.now next.entry) (stands (inputs_of inputs.now) state.now n)) }
{
    match next {
        Next::Evaluate(tree, scope, input) => {
            if !is_update(tree) || input.path.is_present() {
                return Ok(Next::Evaluate(tree, scope, input));
            }
            let around = Around {
                alloc,
                state: &*state,
                inputs: &*inputs,
                nesting,
            };
            around.update(tree, scope, input.value, guard)
        }
        other => Ok(other),
    }
}
