// The runs of a fold's pieces.
ghost use Rattle.std.specs.Prelude.{◌≡◌, ◌<◌, ℕ, List, Some, true, IfOk};
ghost use Rattle.jv_data.specs.View.{view};
ghost use Rattle.jq_meaning.specs.Env.{Env};
ghost use Rattle.jq_meaning.specs.Runs.{plain};
ghost use Rattle.jq_starts.specs.Starts.{HasStartedAtMost};
ghost use Rattle.jq_state.specs.Items.{item_of};
ghost use Rattle.jq_state.specs.Links.{scope_in};
ghost use Rattle.jq_state.specs.Nexts.{NextFits, next_in};
ghost use Rattle.jq_folds.specs.Pieces.{begun, with_state};
ghost use Rattle.jq_fold_steps.specs.Folded.{start_of, starts_once, steps_at};
ghost use Rattle.jq_fold_steps.specs.private.Parts.{closing_of};
ghost use Rattle.jq_fold_steps.specs.private.Starting.{closing_next, fold_of_runner, IsRun, IsRunOf};

use crate::entering::{Entered, enter};
use crate::placing::{Closing, Extraction};
use crate::taking::take_input;
use jq_engine::Engine;
use jq_filters::{Runner, no_inputs};
use jq_folds::laws::the_machine_makes_the_pieces;
use jq_meaning::machine::{heights_stay_in_range, the_machine_makes_the_run_of_a_filter};
use jq_starts::Starts;
use jq_state::frames::Scope;
use jq_state::inputs::Inputs;
use jq_state::items::Item;
use jq_state::next::Next;
use jv_data::{NoMemory, Val};
use std::alloc::Global;

/// The run of the start on null, which is followed by its output as the state; none if the filter is no fold.
pub(crate) fn begin<'p>(
    alloc: Global,
    starts: &mut Starts,
    runner: Runner<'p>,
) -> Result<Option<Engine<'p>>, NoMemory>
    requires { starts_once (fold_of_runner runner) ≡ true }
    ensures run { IfOk result (λ o. IsRunOf o (fold_of_runner runner.entry) (λ f. with_state (begun (start_of runner.entry.depth f)))) }
    ensures started { HasStartedAtMost 1 starts.old starts.new }
{
    the_machine_makes_the_pieces();
    heights_stay_in_range();
    let Some(
        Entered {
            state,
            parts,
            scope,
        },
    ) = enter(alloc, runner)?
    else {
        return Ok(None);
    };
    let next = Next::Evaluate(parts.start, scope, Item::plain(Val::Null));
    let start = starts.started();
    let inputs = no_inputs(alloc);
    Ok(Some(Engine::from_state(alloc, start, inputs, state, next)))
}

/// The run on a state and an input: the outputs, and then the next state; none if the filter is no fold.
pub(crate) fn step<'p>(
    alloc: Global,
    starts: &mut Starts,
    runner: Runner<'p>,
    last: Val,
    input: Val,
) -> Result<Option<Engine<'p>>, NoMemory>
    ensures run { IfOk result (λ o. IsRunOf o (fold_of_runner runner.entry) (λ f. with_state ((steps_at runner.entry.depth (Some f)).step (plain (view last)) (view input)))) }
    ensures started { HasStartedAtMost 1 starts.old starts.new }
{
    the_machine_makes_the_pieces();
    let Some(
        Entered {
            mut state,
            parts,
            scope,
        },
    ) = enter(alloc, runner)?
    else {
        return Ok(None);
    };
    take_input(alloc, &mut state, parts, scope, last)?;
    let next = Next::Give(Item::plain(input));
    let start = starts.started();
    let inputs = no_inputs(alloc);
    Ok(Some(Engine::from_state(alloc, start, inputs, state, next)))
}

/// The run that follows the last state; none for a `foreach`, and if the filter is no fold.
pub(crate) fn close<'p>(
    alloc: Global,
    starts: &mut Starts,
    runner: Runner<'p>,
    last: Val,
) -> Result<Option<Engine<'p>>, NoMemory>
    ensures run { IfOk result (λ o. IsRun o ((steps_at runner.entry.depth (fold_of_runner runner.entry)).close (plain (view last)))) }
    ensures started { HasStartedAtMost 1 starts.old starts.new }
{
    the_machine_makes_the_run_of_a_filter();
    heights_stay_in_range();
    let Some(
        Entered {
            state,
            parts,
            scope,
        },
    ) = enter(alloc, runner)?
    else {
        return Ok(None);
    };
    let Extraction::Nothing = parts.extraction else {
        return Ok(None);
    };
    let next = after_fold(parts.closing, scope, Item::plain(last));
    let start = starts.started();
    let inputs = no_inputs(alloc);
    Ok(Some(Engine::from_state(alloc, start, inputs, state, next)))
}

// The last state goes to the filter after the fold. If there is none, it is the output.
fn after_fold<'p>(closing: Closing<'p>, scope: Scope, last: Item) -> Next<'p>
    ensures next { (envs : List Env) → next_in envs result ≡ closing_next (closing_of closing.entry) (scope_in envs scope) (item_of last) }
    ensures fits { (count : ℕ) → scope.env < count → NextFits count result }
{
    match closing {
        Closing::Nothing => Next::Give(last),
        Closing::Pipe(filter) => Next::Evaluate(filter, scope, last),
    }
}
