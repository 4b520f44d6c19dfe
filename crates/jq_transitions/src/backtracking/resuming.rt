// What a fork point does when the run goes back to it.
ghost use Rattle.std.specs.Prelude.{◌<◌, IfOk};
ghost use Rattle.jq_meaning.specs.machine.Machine as machine;
ghost use Rattle.jq_meaning.specs.machine.Stack.{cell_at};
ghost use Rattle.jq_meaning.specs.machine.State.{go_back};
ghost use Rattle.jq_state.specs.Environments.{count_of};
ghost use Rattle.jq_state.specs.Inputs.{inputs_of};
ghost use Rattle.jq_state.specs.Nexts.{ComesTo, ComesWith, transition};
ghost use Rattle.jq_state.specs.Views.{frames_in, forks_in};
ghost use Rattle.jq_transitions.specs.Outcomes.{Steps};
ghost use Rattle.jq_transitions.specs.private.Handling.{resumed};

use crate::backtracking::cells::{array_of, state_of};
use crate::backtracking::outcomes::{Ending, Progress};
use jq_operations::delivery::{deliver, deliver_inputs};
use jq_operations::{Outputs, path_error};
use jq_state::forks::{Choice, Fork};
use jq_state::inputs::Inputs;
use jq_state::items::Item;
use jq_state::next::Next;
use jq_state::states::State;
use jv_data::NoMemory;
use std::alloc::Global;

/// Goes back to the newest fork point; with none the run is done.
pub fn go_back_once<'p>(
    alloc: Global,
    state: &mut State<'p>,
    inputs: &Inputs,
) -> Result<Progress<'p>, NoMemory>
    ensures { IfOk result (Steps (inputs_of inputs.now) (machine.step_of go_back (frames_in (inputs_of inputs.now) state.old) (forks_in (inputs_of inputs.now) state.old)) state.new) }
{
    if let Some(item) = state.give_next() {
        return Ok(Progress::Moves(Next::Give(item)));
    }
    resume_newest(alloc, state, inputs)
}

/// Does what `go_back_once` does, without first asking the fork point for an item that it gives in place
/// (`State::give_next`).
pub fn resume_newest<'p>(
    alloc: Global,
    state: &mut State<'p>,
    inputs: &Inputs,
) -> Result<Progress<'p>, NoMemory>
    ensures { IfOk result (Steps (inputs_of inputs.now) (machine.step_of go_back (frames_in (inputs_of inputs.now) state.old) (forks_in (inputs_of inputs.now) state.old)) state.new) }
{
    match state.go_back() {
        Some(fork) => Ok(Progress::Moves(resume(alloc, state, fork, inputs)?)),
        None => Ok(Progress::Finishes(Ending::Done)),
    }
}

// What is done next at a fork point that was taken off the stack.
fn resume<'p>(
    alloc: Global,
    state: &mut State<'p>,
    fork: Fork<'p>,
    inputs: &Inputs,
) -> Result<Next<'p>, NoMemory>
    requires { fork.scope.env < count_of state.old.nodes }
    ensures { IfOk result (λ n. ComesWith (inputs_of inputs.now) (transition state.old fork.entry.scope (resumed fork.entry) (inputs_of inputs.now)) state.new n) }
{
    let Fork {
        choice,
        cell,
        scope,
        next: _next,
        frames: _frames,
        envs: _envs,
    } = fork;
    match choice {
        Choice::Other(tree, input) => Ok(Next::Evaluate(tree, scope, input)),
        Choice::Remaining(items) => deliver(alloc, state, Outputs::Several(items)),
        Choice::Numbers(first, end, step) => {
            deliver(alloc, state, Outputs::Numbers(first, end, step))
        }
        Choice::Inputs(index) => {
            state.inputs_stand_outermost();
            deliver_inputs(alloc, state, inputs, index)
        }
        Choice::Collected => Ok(Next::Give(Item::plain(array_of(alloc, cell)?))),
        Choice::LastState => Ok(Next::Give(state_of(cell))),
        Choice::NoMore => Ok(Next::GoBack),
        Choice::RightSide(tree, input) => {
            if cell.is_empty() {
                Ok(Next::Evaluate(tree, scope, input))
            } else {
                Ok(Next::GoBack)
            }
        }
        Choice::CheckUpdate(height) => check_update(alloc, state, height),
    }
}

// Inside `path(f)` an update that has given no state is an error.
fn check_update<'p>(alloc: Global, state: &State<'p>, height: u32) -> Result<Next<'p>, NoMemory>
    ensures { IfOk result (λ n. ComesTo (λ inputs. machine.resume_deliver (cell_at height (forks_in inputs state.now)) (frames_in inputs state.now) (forks_in inputs state.now)) state.now n) }
{
    if state.is_cell_empty(height) {
        return Ok(Next::Raise(path_error(alloc)?));
    }
    Ok(Next::GoBack)
}
