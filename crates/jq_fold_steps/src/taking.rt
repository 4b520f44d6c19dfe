// The state in which a fold takes an input.
ghost use Rattle.std.specs.Prelude.{◌≡◌, ◌<◌, ◌∷◌, [], OnOk};
ghost use Rattle.jv_data.specs.Value.{Value};
ghost use Rattle.jv_data.specs.View.{view};
ghost use Rattle.jq_meaning.specs.Runs.{Run, plain};
ghost use Rattle.jq_meaning.specs.machine.State.{fork, last_state};
ghost use Rattle.jq_state.specs.Environments.{count_of};
ghost use Rattle.jq_state.specs.Links.{scope_in};
ghost use Rattle.jq_state.specs.Views.{envs_in, frames_in, forks_in};
ghost use Rattle.jq_fold_steps.specs.private.Parts.{parts_in, source_frame, taking_frames, with_closing};

use crate::placing::{Closing, Extraction, Parts};
use jq_ast::Pattern;
use jq_state::forks::Choice;
use jq_state::frames::Scope;
use jq_state::items::Item;
use jq_state::states::State;
use jq_state::steps::{Binder, Binding, Combining, Fold, Step};
use jv_data::{NoMemory, Val};
use std::alloc::Global;

/// Makes the frames and the fork point with which a fold takes an input. The fork point has the fold's state, and gives it at the
/// end past all frames.
pub(crate) fn take_input<'p>(
    alloc: Global,
    state: &mut State<'p>,
    parts: Parts<'p>,
    scope: Scope,
    last: Val,
) -> Result<(), NoMemory>
    requires scope { scope.env < count_of state.old.nodes }
    requires frames { (inputs : Run Value) → frames_in inputs state.old ≡ [] }
    requires forks { (inputs : Run Value) → forks_in inputs state.old ≡ [] }
    ensures envs { OnOk result (state.new.nodes ≡ state.old.nodes) }
    ensures frames { OnOk result ((inputs : Run Value) → frames_in inputs state.new ≡ taking_frames (parts_in parts.entry) (scope_in (envs_in inputs state.old) scope)) }
    ensures forks { OnOk result ((inputs : Run Value) → forks_in inputs state.new ≡ fork last_state (plain (view last) ∷ []) [] ∷ []) }
{
    let mut cell = Vec::new(alloc);
    cell.push(Item::plain(last))?;
    state.fork(Choice::LastState, cell, scope)?;
    match parts.extraction {
        Extraction::Nothing => {
            push_source(
                alloc,
                state,
                parts.pattern,
                Fold::Reducing(parts.update),
                scope,
            )?;
            Ok(())
        }
        Extraction::Each(extract) => {
            push_closing(state, parts.closing, scope)?;
            push_source(
                alloc,
                state,
                parts.pattern,
                Fold::Extracting(parts.update, extract),
                scope,
            )?;
            Ok(())
        }
    }
}

// The filter after a `foreach` gets each output.
fn push_closing<'p>(
    state: &mut State<'p>,
    closing: Closing<'p>,
    scope: Scope,
) -> Result<(), NoMemory>
    requires { scope.env < count_of state.old.nodes }
    ensures envs { OnOk result (state.new.nodes ≡ state.old.nodes) }
    ensures frames { OnOk result ((inputs : Run Value) → frames_in inputs state.new ≡ with_closing closing.entry (scope_in (envs_in inputs state.old) scope) (frames_in inputs state.old)) }
    ensures forks { OnOk result ((inputs : Run Value) → forks_in inputs state.new ≡ forks_in inputs state.old) }
{
    match closing {
        Closing::Nothing => Ok(()),
        Closing::Pipe(filter) => state.push(Step::Combining(Combining::PipeInto(filter)), scope),
    }
}

// Inputs come from the source.
fn push_source<'p>(
    alloc: Global,
    state: &mut State<'p>,
    pattern: &'p Pattern,
    fold: Fold<'p>,
    scope: Scope,
) -> Result<(), NoMemory>
    requires { scope.env < count_of state.old.nodes }
    ensures envs { OnOk result (state.new.nodes ≡ state.old.nodes) }
    ensures frames { OnOk result ((inputs : Run Value) → frames_in inputs state.new ≡ source_frame pattern.now fold.entry (scope_in (envs_in inputs state.old) scope) ∷ frames_in inputs state.old) }
    ensures forks { OnOk result ((inputs : Run Value) → forks_in inputs state.new ≡ forks_in inputs state.old) }
{
    let step = Binding::Source(pattern, Binder::FoldStep(0, fold));
    state.push(Step::Binding(Box::new(alloc, step)?), scope)
}
