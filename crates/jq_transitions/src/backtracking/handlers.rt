// How an error finds its handler.
ghost use Rattle.std.specs.Prelude.{◌≡◌, ◌<◌, ◌∷◌, ℕ, IfOk, IfSome, List};
ghost use Rattle.jv_data.specs.Value.{Value};
ghost use Rattle.jv_data.specs.View.{view};
ghost use Rattle.jq_meaning.specs.Env.{Env};
ghost use Rattle.jq_meaning.specs.Runs.{Run};
ghost use Rattle.jq_meaning.specs.machine.Machine as machine;
ghost use Rattle.jq_meaning.specs.machine.State.{Frame, ForkPoint};
ghost use Rattle.jq_state.specs.Environments.{count_of};
ghost use Rattle.jq_state.specs.Links.{scope_in};
ghost use Rattle.jq_state.specs.Steps.{step_in};
ghost use Rattle.jq_state.specs.Views.{envs_in, frames_in, forks_in};
ghost use Rattle.jq_transitions.specs.Outcomes.{Steps};
ghost use Rattle.jq_transitions.specs.private.Handling.{Finds, handled_at, HandlerFits};

use crate::backtracking::outcomes::{Ending, Progress};
use jq_ast::Tree;
use jq_state::frames::Scope;
use jq_state::items::Item;
use jq_state::next::Next;
use jq_state::states::State;
use jq_state::steps::{Holding, Operation, Step};
use jv_data::{NoMemory, Val};

/// What handles an error.
#[derive(Clone, Copy)]
pub(crate) enum Handler<'p> {
    /// The handler of a `try`: the number of fork points when the `try` began, the filter, its scope, and whether the input
    /// had a path; then each output of the filter is an error.
    Catch(u32, &'p Tree, Scope, bool),
    /// The left side of `//`, and the number of fork points when it began. An error ends it.
    EndLeftSide(u32),
}

/// Raises an error: the innermost `try` or left side of `//` takes it. Without one the run ends with the error.
pub fn raise<'p>(state: &mut State<'p>, error: Val) -> Result<Progress<'p>, NoMemory>
    ensures { IfOk result (λ r. (inputs : Run Value) → Steps inputs (machine.find_handler (view error) (frames_in inputs state.old) (forks_in inputs state.old)) state.new r) }
{
    match find_handler(state) {
        Some(Handler::Catch(height, handler, scope, refuses)) => {
            state.cut_forks(height);
            if refuses {
                state.push(Step::Operation(Operation::Refuse), scope)?;
            }
            Ok(Progress::Moves(Next::Evaluate(handler, scope, Item::plain(error))))
        }
        Some(Handler::EndLeftSide(height)) => {
            if height < state.height() {
                state.cut_forks(height + 1);
            }
            Ok(Progress::Moves(Next::GoBack))
        }
        None => Ok(Progress::Finishes(Ending::Raised(error))),
    }
}

// Drops the frames up to and including the innermost one that handles errors.
fn find_handler<'p>(state: &mut State<'p>) -> Option<Handler<'p>>
    ensures nodes { state.new.nodes ≡ state.old.nodes }
    ensures fits { IfSome result (HandlerFits (count_of state.old.nodes)) }
    ensures frames { (inputs : Run Value) → Finds (envs_in inputs state.old) (frames_in inputs state.old) (frames_in inputs state.new) result }
    ensures forks { (inputs : Run Value) → forks_in inputs state.new ≡ forks_in inputs state.old }
{
    'frames: while let Some((step, scope)) = state.top() {
        let found = handler_of(step, scope);
        state.skip();
        if let Some(handler) = found {
            return Some(handler);
        }
    }
    None
}

// How a frame handles errors.
fn handler_of<'p>(step: &Step<'p>, scope: Scope) -> Option<Handler<'p>>
    ensures fits { IfSome result (λ h. (count : ℕ) → scope.env < count → HandlerFits count h) }
    ensures frames { (envs : List Env) (v : Value) (k : List Frame) (fs : List ForkPoint) → machine.find_handler v (step_in step.now (scope_in envs scope) ∷ k) fs ≡ handled_at envs result v k fs }
{
    match step {
        Step::Holding(Holding::TryBody(height, handler, input)) => Some(Handler::Catch(
            *height,
            *handler,
            scope,
            input.path.is_present(),
        )),
        Step::Holding(Holding::LeftSide(height)) => Some(Handler::EndLeftSide(*height)),
        Step::Holding(Holding::FoldUpdate(_, _)) => None,
        Step::Holding(Holding::Collect(_)) => None,
        Step::Holding(Holding::LabelBody(_, _)) => None,
        Step::Operation(_) => None,
        Step::Selecting(_) => None,
        Step::Combining(_) => None,
        Step::Making(_) => None,
        Step::Binding(_) => None,
    }
}
