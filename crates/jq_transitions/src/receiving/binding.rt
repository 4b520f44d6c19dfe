// Items that are given to the frames of patterns and of the start values of folds.
ghost use Rattle.std.specs.Prelude.{◌≡◌, ◌<◌, IfOk};
ghost use Rattle.jq_meaning.specs.machine.Giving as machine;
ghost use Rattle.jq_meaning.specs.machine.State as frame;
ghost use Rattle.jq_state.specs.Environments.{count_of};
ghost use Rattle.jq_state.specs.Forks.{choice_in};
ghost use Rattle.jq_state.specs.Items.{item_of};
ghost use Rattle.jq_state.specs.Nexts.{ComesTo, transition};
ghost use Rattle.jq_transitions.specs.private.Transitions.{fold_begun};
ghost use Rattle.jq_state.specs.Steps.{binding_in, fold_of};

use crate::receiving::items::{into_plain, into_value};
use crate::receiving::parts::part_at;
use crate::receiving::patterns::match_part;
use jq_ast::{Pattern, Tree};
use jq_state::forks::Choice;
use jq_state::frames::Scope;
use jq_state::items::Item;
use jq_state::next::{Next, Remaining};
use jq_state::states::State;
use jq_state::steps::{Binder, Binding, Fold, Step, Task};
use jv_data::NoMemory;
use std::alloc::Global;

pub(crate) fn bind<'p>(
    alloc: Global,
    state: &mut State<'p>,
    step: Binding<'p>,
    scope: Scope,
    item: Item,
) -> Result<Next<'p>, NoMemory>
    requires { scope.env < count_of state.old.nodes }
    ensures { IfOk result (λ n. ComesTo (transition state.old scope (λ p. machine.receive (binding_in step.entry p) (item_of item))) state.new n) }
{
    match step {
        Binding::Source(pattern, binder) => {
            let remaining = Remaining {
                tasks: Vec::new(alloc),
                binder,
            };
            let remaining = Box::new(alloc, remaining)?;
            Ok(Next::Matching(pattern, into_value(item), remaining, scope))
        }
        Binding::PatternKey(pattern, later, value, mut tasks, binder) => {
            let part = part_at(alloc, &value, &into_value(item))?;
            tasks.push(Task::Members(later, value))?;
            let remaining = Box::new(alloc, Remaining { tasks, binder })?;
            Ok(match_part(part, pattern, remaining, scope))
        }
        Binding::FoldStart(source, pattern, fold, input) => {
            fold_start(alloc, state, source, pattern, fold, input, scope, item)
        }
    }
}

// The first state of a fold is known. A fork point keeps it, and each item of the source makes a step.
fn fold_start<'p>(
    alloc: Global,
    state: &mut State<'p>,
    source: &'p Tree,
    pattern: &'p Pattern,
    fold: Fold<'p>,
    input: Item,
    scope: Scope,
    item: Item,
) -> Result<Next<'p>, NoMemory>
    requires { scope.env < count_of state.old.nodes }
    ensures { IfOk result (λ n. ComesTo (transition state.old scope (fold_begun source.now pattern.now fold.entry (item_of input) (item_of item))) state.new n) }
{
    let height = state.height();
    let mut cell = Vec::new(alloc);
    cell.push(item)?;
    state.fork(at_end(fold), cell, scope)?;
    let step = Binding::Source(pattern, Binder::FoldStep(height, fold));
    state.push(Step::Binding(Box::new(alloc, step)?), scope)?;
    Ok(Next::Evaluate(source, scope, into_plain(input)))
}

// What a fold returns at its end.
fn at_end<'p>(fold: Fold<'p>) -> Choice<'p>
    ensures { (p : frame.Scope) → choice_in result p ≡ machine.at_end (fold_of fold.entry) }
{
    match fold {
        Fold::Reducing(_) => Choice::LastState,
        Fold::Extracting(_, _) => Choice::NoMore,
    }
}
