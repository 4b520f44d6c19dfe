// Frames that only pass items on: those of labels, and of the bodies of `try`.
ghost use Rattle.std.specs.Prelude.{IsTrue};
ghost use Rattle.jv_data.specs.Value.{Value};
ghost use Rattle.jq_meaning.specs.Runs.{Run};
ghost use Rattle.jq_meaning.specs.Runs as runs;
ghost use Rattle.jq_meaning.specs.machine.State as abstract;
ghost use Rattle.jq_state.specs.Steps.{step_in};
ghost use Rattle.jq_state.specs.Views.{frames_in};
ghost use Rattle.jq_engine.specs.private.Leading.{Advances, at_item};
ghost use Rattle.jq_engine.specs.private.Passing.{Passes, PassesFirst};

use jq_state::states::State;
use jq_state::steps::{Holding, Step};

/// Skips the frames that would only pass the next item on, and removes those that no fork point needs.
#[inline(always)]
pub(crate) fn pass_through(state: &mut State<'_>)
    ensures { (inputs : Run Value) (x : runs.Item) → Advances (at_item inputs state.old x) (at_item inputs state.new x) }
{
    if !passes_first(state) {
        return;
    }
    skip_passing(state);
}

// The same where there is such a frame. A call of its own, since most items meet none.
#[inline(never)]
fn skip_passing(state: &mut State<'_>)
    ensures { (inputs : Run Value) (x : runs.Item) → Advances (at_item inputs state.old x) (at_item inputs state.new x) }
{
    'frames: while passes_first(state) {
        state.skip();
    }
    state.trim();
}

// Whether the frame that gets the next item passes it on.
#[inline(always)]
fn passes_first(state: &State<'_>) -> bool
    ensures { IsTrue result → (inputs : Run Value) → PassesFirst (frames_in inputs state.now) }
{
    match state.top() {
        Some((step, _)) => passes(step),
        None => false,
    }
}

// Whether a frame passes each item on.
#[inline(always)]
fn passes(step: &Step<'_>) -> bool
    ensures { IsTrue result → (p : abstract.Scope) → Passes (step_in step.now p) }
{
    match step {
        Step::Holding(Holding::LabelBody(_, _)) => true,
        Step::Holding(Holding::TryBody(_, _, _)) => true,
        _ => false,
    }
}
