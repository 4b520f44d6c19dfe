// What runs in the bindings that a pattern makes.
ghost use Rattle.std.specs.Prelude.{◌<◌, IfOk};
ghost use Rattle.jq_meaning.specs.machine.Matching as machine;
ghost use Rattle.jq_meaning.specs.machine.Operations.{state_in};
ghost use Rattle.jq_meaning.specs.machine.Stack.{cell_at};
ghost use Rattle.jq_state.specs.Environments.{count_of};
ghost use Rattle.jq_state.specs.Nexts.{ComesTo, transition};
ghost use Rattle.jq_state.specs.Steps.{binder_of, fold_of};

use jq_state::forks::Choice;
use jq_state::frames::Scope;
use jq_state::next::Next;
use jq_state::states::State;
use jq_state::steps::{Binder, Fold, Holding, Step, update_of};
use jv_data::NoMemory;
use std::alloc::Global;

/// All bindings of a pattern are made: the body runs, or the step of a fold.
pub(crate) fn run_bound<'p>(
    alloc: Global,
    state: &mut State<'p>,
    binder: Binder<'p>,
    scope: Scope,
) -> Result<Next<'p>, NoMemory>
    requires { scope.env < count_of state.old.nodes }
    ensures { IfOk result (λ n. ComesTo (transition state.old scope (machine.run_bound (binder_of binder.entry))) state.new n) }
{
    match binder {
        Binder::Body(body, input) => Ok(Next::Evaluate(body, scope, input)),
        Binder::FoldStep(height, fold) => enter_update(alloc, state, height, fold, scope),
    }
}

// Runs the update of a fold on the state, which is taken out of its cell. Inside `path(f)` a fork point below the update
// checks whether it had an output.
fn enter_update<'p>(
    alloc: Global,
    state: &mut State<'p>,
    height: u32,
    fold: Fold<'p>,
    scope: Scope,
) -> Result<Next<'p>, NoMemory>
    requires { scope.env < count_of state.old.nodes }
    ensures { IfOk result (λ n. ComesTo (transition state.old scope (λ p k fs. machine.enter_update (state_in (cell_at height fs)) height (fold_of fold.entry) p k fs)) state.new n) }
{
    let item = state.take_state(height);
    if item.path.is_present() {
        state.fork(Choice::CheckUpdate(height), Vec::new(alloc), scope)?;
    }
    state.push(Step::Holding(Holding::FoldUpdate(height, fold)), scope)?;
    Ok(Next::Evaluate(update_of(fold), scope, item))
}
