// Items that are given to the frames of a step to a part: the key, or the bounds of a slice.
ghost use Rattle.std.specs.Prelude.{◌<◌, IfOk};
ghost use Rattle.jv_data.specs.View.{view};
ghost use Rattle.jq_ast.specs.Named.{named};
ghost use Rattle.jq_meaning.specs.machine.Giving as machine;
ghost use Rattle.jq_meaning.specs.machine.State as frame;
ghost use Rattle.jq_state.specs.Environments.{count_of};
ghost use Rattle.jq_state.specs.Items.{item_of};
ghost use Rattle.jq_state.specs.Nexts.{ComesTo, transition};
ghost use Rattle.jq_state.specs.Steps.{selecting_in};

use crate::receiving::items::{into_plain, into_value};
use jq_ast::Tree;
use jq_operations::slice_key;
use jq_state::frames::Scope;
use jq_state::items::Item;
use jq_state::next::Next;
use jq_state::states::State;
use jq_state::steps::{Operation, Selecting, Step};
use jv_data::{NoMemory, Val};
use std::alloc::Global;

pub(crate) fn select<'p>(
    alloc: Global,
    state: &mut State<'p>,
    step: Selecting<'p>,
    scope: Scope,
    item: Item,
) -> Result<Next<'p>, NoMemory>
    requires { scope.env < count_of state.old.nodes }
    ensures { IfOk result (λ n. ComesTo (transition state.old scope (λ p. machine.receive (selecting_in step.entry p) (item_of item))) state.new n) }
{
    match step {
        Selecting::TargetKey(target, guarded, input) => {
            target_key(state, target, guarded, input, scope, item)
        }
        Selecting::SliceStart(target, to, guarded, input) => {
            slice_start(state, target, to, guarded, input, scope, item)
        }
        Selecting::SliceEnd(target, start, guarded, input) => {
            slice_end(alloc, state, target, start, guarded, input, scope, item)
        }
    }
}

// The key is known, so the target is run.
fn target_key<'p>(
    state: &mut State<'p>,
    target: &'p Tree,
    guarded: bool,
    input: Item,
    scope: Scope,
    item: Item,
) -> Result<Next<'p>, NoMemory>
    requires { scope.env < count_of state.old.nodes }
    ensures { IfOk result (λ n. ComesTo (transition state.old scope (λ p. machine.receive (frame.target_key (named target.now) guarded p (item_of input)) (item_of item))) state.new n) }
{
    let operation = Operation::PartAtKey(guarded, into_value(item));
    state.push(Step::Operation(operation), scope)?;
    Ok(Next::Evaluate(target, scope, input))
}

// The start of a slice is known, so its end is run.
fn slice_start<'p>(
    state: &mut State<'p>,
    target: &'p Tree,
    to: &'p Tree,
    guarded: bool,
    input: Item,
    scope: Scope,
    item: Item,
) -> Result<Next<'p>, NoMemory>
    requires { scope.env < count_of state.old.nodes }
    ensures { IfOk result (λ n. ComesTo (transition state.old scope (λ p. machine.receive (frame.slice_start (named target.now) (named to.now) guarded p (item_of input)) (item_of item))) state.new n) }
{
    let plain = into_plain(input.copy()?);
    let step = Selecting::SliceEnd(target, into_value(item), guarded, input);
    state.push(Step::Selecting(step), scope)?;
    Ok(Next::Evaluate(to, scope, plain))
}

// Both bounds of a slice are known, so the target is run.
fn slice_end<'p>(
    alloc: Global,
    state: &mut State<'p>,
    target: &'p Tree,
    start: Val,
    guarded: bool,
    input: Item,
    scope: Scope,
    item: Item,
) -> Result<Next<'p>, NoMemory>
    requires { scope.env < count_of state.old.nodes }
    ensures { IfOk result (λ n. ComesTo (transition state.old scope (λ p. machine.receive (frame.slice_end (named target.now) (view start) guarded p (item_of input)) (item_of item))) state.new n) }
{
    let key = slice_key(alloc, start, into_value(item))?;
    state.push(Step::Operation(Operation::PartAtKey(guarded, key)), scope)?;
    Ok(Next::Evaluate(target, scope, input))
}
