// Outputs are given to the waiting frames.
ghost use Rattle.std.specs.Prelude.{◌<◌, ◌∷◌, IfOk, map, reverse};
ghost use Rattle.jv_data.specs.View.{view};
ghost use Rattle.jq_ast.specs.Named.{named};
ghost use Rattle.jq_meaning.specs.Builtins.{plain_items, numbers_up_to};
ghost use Rattle.jq_meaning.specs.Runs.{Done, plain};
ghost use Rattle.jq_meaning.specs.machine.Operations as machine;
ghost use Rattle.jq_meaning.specs.machine.State as abstract;
ghost use Rattle.jq_operations.specs.Outputs.{outputs_of};
ghost use Rattle.jq_state.specs.Environments.{count_of};
ghost use Rattle.jq_state.specs.Forks.{run_after};
ghost use Rattle.jq_state.specs.Inputs.{inputs_of};
ghost use Rattle.jq_state.specs.Items.{item_of};
ghost use Rattle.jq_state.specs.Nexts.{ComesTo, ComesWith, on_stack, transition};
ghost use Rattle.jq_state.specs.Views.{frames_in, forks_in};
ghost use Rattle.jq_operations.specs.Entering.{refusing};
ghost use Rattle.jq_operations.specs.private.Outermost.{giving_first};

use crate::outputs::Outputs;
use jq_ast::Tree;
use jq_state::forks::Choice;
use jq_state::frames::Scope;
use jq_state::inputs::Inputs;
use jq_state::items::Item;
use jq_state::next::Next;
use jq_state::numbers::{is_before, number_after};
use jq_state::states::State;
use jq_state::steps::{Operation, Step};
use jv_data::{NoMemory, Val};
use std::alloc::Global;

// The scope of a fork point that runs no filter.
const OUTERMOST: Scope = Scope {
    env: 0,
    depth: 0,
    level: 0,
};

/// Gives the first output. The others are kept in a fork point.
pub fn deliver<'p>(
    alloc: Global,
    state: &mut State<'p>,
    outputs: Outputs,
) -> Result<Next<'p>, NoMemory>
    ensures { IfOk result (λ n. ComesTo (λ inputs. machine.deliver (outputs_of outputs) (frames_in inputs state.old) (forks_in inputs state.old)) state.new n) }
{
    match outputs {
        Outputs::Nothing => Ok(Next::GoBack),
        Outputs::One(item) => Ok(Next::Give(item)),
        Outputs::Several(items) => deliver_items(alloc, state, items),
        Outputs::Numbers(first, end, step) => deliver_numbers(alloc, state, first, end, step),
        Outputs::Error(error) => Ok(Next::Raise(error)),
        Outputs::Stopped(stop) => Ok(Next::Quit(stop)),
    }
}

// Gives the items of a vector, whose last element is the first item.
fn deliver_items<'p>(
    alloc: Global,
    state: &mut State<'p>,
    mut items: Vec<Item>,
) -> Result<Next<'p>, NoMemory>
    ensures { IfOk result (λ n. ComesTo (λ inputs. machine.deliver_items (reverse (map item_of items.items)) Done (frames_in inputs state.old) (forks_in inputs state.old)) state.new n) }
{
    let Some(first) = items.pop() else {
        return Ok(Next::GoBack);
    };
    if items.is_empty() {
        return Ok(Next::Give(first));
    }
    give_first(alloc, state, first, Choice::Remaining(items))
}

// Delivers the numbers of a range.
fn deliver_numbers<'p>(
    alloc: Global,
    state: &mut State<'p>,
    first: i64,
    end: i64,
    step: i64,
) -> Result<Next<'p>, NoMemory>
    ensures { IfOk result (λ n. ComesTo (λ inputs. machine.deliver (numbers_up_to first end step) (frames_in inputs state.old) (forks_in inputs state.old)) state.new n) }
{
    if !is_before(first, end, step) {
        return Ok(Next::GoBack);
    }
    let item = Item::plain(Val::Num(first));
    match number_after(first, end, step) {
        Some(next) => give_first(alloc, state, item, Choice::Numbers(next, end, step)),
        None => Ok(Next::Give(item)),
    }
}

// Gives an item. A fork point keeps the choice that gives the others.
fn give_first<'p>(
    alloc: Global,
    state: &mut State<'p>,
    item: Item,
    others: Choice<'p>,
) -> Result<Next<'p>, NoMemory>
    ensures { IfOk result (λ n. ComesTo (giving_first state.old (item_of item) others.entry) state.new n) }
{
    state.fork(others, Vec::new(alloc), OUTERMOST)?;
    Ok(Next::Give(item))
}

/// Gives the input at an index. A fork point keeps the inputs after it and the error that ends them.
pub fn deliver_inputs<'p>(
    alloc: Global,
    state: &mut State<'p>,
    inputs: &Inputs,
    index: usize,
) -> Result<Next<'p>, NoMemory>
    ensures { IfOk result (λ n. ComesWith (inputs_of inputs.now) (on_stack state.old (machine.deliver (run_after index (plain_items (inputs_of inputs.now)))) (inputs_of inputs.now)) state.new n) }
{
    let Some(value) = inputs.values.get(index) else {
        return match &inputs.fault {
            Some(error) => Ok(Next::Raise(error.copy()?)),
            None => Ok(Next::GoBack),
        };
    };
    let item = Item::plain(value.copy()?);
    if index + 1 == inputs.values.len() && inputs.fault.is_none() {
        return Ok(Next::Give(item));
    }
    state.inputs_stand_outermost();
    give_first(alloc, state, item, Choice::Inputs(index + 1))
}

/// Inside `path(f)` a form that has no paths is run on the value alone, and its outputs are refused.
pub fn refuse_paths<'p>(
    state: &mut State<'p>,
    tree: &'p Tree,
    scope: Scope,
    value: Val,
) -> Result<Next<'p>, NoMemory>
    requires { scope.env < count_of state.old.nodes }
    ensures { IfOk result (λ n. ComesTo (transition state.old scope (refusing (named tree.now) (plain (view value)))) state.new n) }
{
    state.push(Step::Operation(Operation::Refuse), scope)?;
    Ok(Next::Evaluate(tree, scope, Item::plain(value)))
}
