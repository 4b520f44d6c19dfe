// The steps of a fold with one variable, whose update may run at once.
ghost use Rattle.std.specs.Prelude.{◌≡◌, ◌∷◌, ◌<◌, IfOk, IfSome};
ghost use Rattle.jv_data.specs.Value.{Value};
ghost use Rattle.jq_meaning.specs.Runs.{Run};
ghost use Rattle.jq_meaning.specs.machine.State as abstract;
ghost use Rattle.jq_state.specs.Environments.{count_of};
ghost use Rattle.jq_state.specs.Inputs.{inputs_of};
ghost use Rattle.jq_state.specs.Items.{item_of};
ghost use Rattle.jq_state.specs.Links.{scope_in};
ghost use Rattle.jq_state.specs.Steps.{step_in};
ghost use Rattle.jq_state.specs.Views.{envs_in, frames_in, without_first};
ghost use Rattle.jq_engine.specs.private.Folds.{source_in, source_of};
ghost use Rattle.jq_engine.specs.private.Leading.{Leads, at_frame};

use crate::guards::Guard;
use crate::parts::run_part;
use jq_ast::Pattern;
use jq_state::environments;
use jq_state::forks::Choice;
use jq_state::frames::Scope;
use jq_state::inputs::Inputs;
use jq_state::items::Item;
use jq_state::states::State;
use jq_state::steps::{Binder, Binding, Fold, Holding, Step, update_of};
use jq_transitions::Progress;
use jv_data::NoMemory;
use std::alloc::Global;

/// What a fold with one variable does with an output of its source: the variable, the height of the fold and its filters.
#[derive(Clone, Copy)]
pub(crate) struct FoldStep<'p> {
    pub(crate) name: &'p String,
    pub(crate) height: u32,
    pub(crate) fold: Fold<'p>,
}

/// The frame that gets the next item as a step of a fold, if it is one with one variable, and its scope.
pub(crate) fn top_step<'p>(state: &State<'p>) -> Option<(FoldStep<'p>, Scope)>
    ensures scope { IfSome result (λ r. r.1.env < count_of state.now.nodes) }
    ensures frames { IfSome result (λ r. (inputs : Run Value) → frames_in inputs state.now ≡ source_of r.0 (scope_in (envs_in inputs state.now) r.1) ∷ without_first (frames_in inputs state.now)) }
{
    let Some((step, scope)) = state.top() else {
        return None;
    };
    match fold_step(step) {
        Some(step) => Some((step, scope)),
        None => None,
    }
}

fn fold_step<'p>(step: &Step<'p>) -> Option<FoldStep<'p>>
    ensures { IfSome result (λ f. (p : abstract.Scope) → step_in step.now p ≡ source_of f p) }
{
    let Step::Binding(binding) = step else {
        return None;
    };
    let Binding::Source(pattern, Binder::FoldStep(height, fold)) = &**binding else {
        return None;
    };
    let Pattern::Whole(name) = *pattern else {
        return None;
    };
    Some(FoldStep {
        name,
        height: *height,
        fold: *fold,
    })
}

/// Binds the variable to an output of the source, and runs the update on the state, which is taken out of its cell. Inside
/// `path(f)` a fork point below the update checks whether it had an output.
pub(crate) fn run_step<'p>(
    alloc: Global,
    state: &mut State<'p>,
    step: FoldStep<'p>,
    scope: Scope,
    item: Item,
    inputs: &Inputs,
    guard: &mut Guard,
) -> Result<Progress<'p>, NoMemory>
    requires { scope.env < count_of state.old.nodes }
    ensures { IfOk result (Leads (inputs_of inputs.now) (at_frame (inputs_of inputs.now) state.old (source_in (inputs_of inputs.now) state.old step.entry scope) (item_of item)) state.new) }
{
    let FoldStep { name, height, fold } = step;
    let env = state.add(environments::Binding::Value(name, item.value), scope.env)?;
    let scope = Scope { env, ..scope };
    let current = state.take_state(height);
    if current.path.is_present() {
        state.fork(Choice::CheckUpdate(height), Vec::new(alloc), scope)?;
    }
    let step = Step::Holding(Holding::FoldUpdate(height, fold));
    run_part(
        alloc,
        state,
        update_of(fold),
        step,
        scope,
        current,
        inputs,
        guard,
    )
}
