// How a break finds its label.
ghost use Rattle.std.specs.Prelude.{◌≡◌, ◌∷◌, List};
ghost use Rattle.jv_data.specs.Value.{Value};
ghost use Rattle.jq_meaning.specs.Runs.{Run};
ghost use Rattle.jq_meaning.specs.machine.Machine as machine;
ghost use Rattle.jq_meaning.specs.machine.State.{Frame, ForkPoint, Scope};
ghost use Rattle.jq_state.specs.Steps.{step_in};
ghost use Rattle.jq_state.specs.Views.{frames_in, forks_in};
ghost use Rattle.jq_transitions.specs.Outcomes.{Steps};
ghost use Rattle.jq_transitions.specs.private.Handling.{left_at, label_at};

use crate::backtracking::outcomes::{Ending, Progress};
use jq_state::next::Next;
use jq_state::states::State;
use jq_state::steps::{Holding, Step};

/// Breaks out of the label of this level: the fork points since it began are removed, and the run goes back. Without such a
/// label the run ends.
pub fn leave<'p>(state: &mut State<'p>, level: u32) -> Progress<'p>
    ensures { (inputs : Run Value) → Steps inputs (machine.find_label level (frames_in inputs state.old) (forks_in inputs state.old)) state.new result }
{
    match find_label(state, level) {
        Some(height) => {
            state.cut_forks(height);
            Progress::Moves(Next::GoBack)
        }
        None => Progress::Finishes(Ending::Broken(level)),
    }
}

// Drops the frames up to and including the label of a level, and returns the label's height.
fn find_label(state: &mut State<'_>, level: u32) -> Option<u32>
    ensures nodes { state.new.nodes ≡ state.old.nodes }
    ensures frames { (inputs : Run Value) (fs : List ForkPoint) → machine.find_label level (frames_in inputs state.old) fs ≡ left_at level result (frames_in inputs state.new) fs }
    ensures forks { (inputs : Run Value) → forks_in inputs state.new ≡ forks_in inputs state.old }
{
    'frames: while let Some((step, _)) = state.top() {
        let found = height_of_label(step, level);
        state.skip();
        if let Some(height) = found {
            return Some(height);
        }
    }
    None
}

// The height of a frame that is the label of a level.
fn height_of_label(step: &Step<'_>, level: u32) -> Option<u32>
    ensures { (p : Scope) (k : List Frame) (fs : List ForkPoint) → machine.find_label level (step_in step.now p ∷ k) fs ≡ label_at level result k fs }
{
    match step {
        Step::Holding(Holding::LabelBody(height, here)) => {
            if level == *here { Some(*height) } else { None }
        }
        Step::Holding(Holding::TryBody(_, _, _)) => None,
        Step::Holding(Holding::LeftSide(_)) => None,
        Step::Holding(Holding::FoldUpdate(_, _)) => None,
        Step::Holding(Holding::Collect(_)) => None,
        Step::Operation(_) => None,
        Step::Selecting(_) => None,
        Step::Combining(_) => None,
        Step::Making(_) => None,
        Step::Binding(_) => None,
    }
}
