// `range` between two numbers that simple filters give. It begins at once, without a transition for each of its bounds.
ghost use Rattle.std.specs.Prelude.{◌≡◌, ◌<◌, IfOk, IfSome, map, pos};
ghost use Rattle.jv_data.specs.Value.{number};
ghost use Rattle.jv_data.specs.View.{view};
ghost use Rattle.jq_ast.specs.Named.{name_of, named};
ghost use Rattle.jq_tree.specs.Tree.{trees_of};
ghost use Rattle.jq_tree.specs.Tree as form;
ghost use Rattle.jq_meaning.specs.Builtins.{numbers_up_to};
ghost use Rattle.jq_meaning.specs.machine.Operations as machine;
ghost use Rattle.jq_state.specs.Environments.{count_of};
ghost use Rattle.jq_state.specs.Inputs.{inputs_of};
ghost use Rattle.jq_state.specs.Items.{item_of};
ghost use Rattle.jq_state.specs.Nexts.{ComesTo};
ghost use Rattle.jq_state.specs.Views.{frames_in, forks_in};
ghost use Rattle.jq_engine.specs.private.Leading.{at_filter};
ghost use Rattle.jq_engine.specs.private.Ranges.{RangesOver, RunsRange};
ghost use Rattle.jq_engine.specs.private.Simple.{GivesOne};
ghost use Rattle.jq_engine.specs.private.Tails.{ArrivesAt};

use crate::simple::simple_output;
use jq_ast::{Core, Name, Referent, Tree};
use jq_operations::delivery::deliver;
use jq_operations::{Builtin, Callee, Outputs, builtin_named, find_callee};
use jq_state::environments::Nodes;
use jq_state::frames::Scope;
use jq_state::inputs::Inputs;
use jq_state::items::Item;
use jq_state::next::Next;
use jq_state::states::State;
use jq_transitions::enter;
use jv_data::{NoMemory, Val};
use std::alloc::Global;

/// The first transition of a filter. Of a `range` between two numbers it is the one that gives the first number.
#[inline(always)]
pub(crate) fn enter_filter<'p>(
    alloc: Global,
    state: &mut State<'p>,
    tree: &'p Tree,
    scope: Scope,
    input: Item,
    inputs: &Inputs,
) -> Result<Next<'p>, NoMemory>
    requires { scope.env < count_of state.old.nodes }
    ensures { IfOk result (ArrivesAt (inputs_of inputs.now) (at_filter (inputs_of inputs.now) state.old (named tree.now) scope (item_of input)) state.new) }
{
    if is_range(tree) {
        return enter_range(alloc, state, tree, scope, input, inputs);
    }
    enter(alloc, state, tree, scope, input, inputs)
}

// The same of a call that refers to `range`.
#[inline(never)]
fn enter_range<'p>(
    alloc: Global,
    state: &mut State<'p>,
    tree: &'p Tree,
    scope: Scope,
    input: Item,
    inputs: &Inputs,
) -> Result<Next<'p>, NoMemory>
    requires { scope.env < count_of state.old.nodes }
    ensures { IfOk result (ArrivesAt (inputs_of inputs.now) (at_filter (inputs_of inputs.now) state.old (named tree.now) scope (item_of input)) state.new) }
{
    match numbers_in(alloc, state.nodes(), tree, scope, &input)? {
        Some((start, end)) => give_numbers(alloc, state, start, end),
        None => enter(alloc, state, tree, scope, input, inputs),
    }
}

// Whether a filter is a call of `range` with two bounds. This is only advice.
#[inline(always)]
fn is_range(tree: &Tree) -> bool {
    match tree {
        Tree::Call(name, _) => refers_to_range(name),
        _ => false,
    }
}

// Whether a name refers to `range(f; g)`.
#[inline(always)]
fn refers_to_range(name: &Name) -> bool {
    match name.referent {
        Referent::Core(Core::Range) => true,
        _ => false,
    }
}

// The two numbers, if a filter on an item is a `range` between numbers.
fn numbers_in<'p>(
    alloc: Global,
    nodes: &Nodes<'p>,
    tree: &'p Tree,
    scope: Scope,
    input: &Item,
) -> Result<Option<(i64, i64)>, NoMemory>
    requires { scope.env < count_of nodes.now }
    ensures { IfOk result (λ o. IfSome o (λ r. RangesOver nodes.now (named tree.now) scope (item_of input.now) r.0 r.1)) }
{
    if input.path.is_present() {
        return Ok(None);
    }
    let Some((start, end)) = bounds_in(nodes, tree, scope) else {
        return Ok(None);
    };
    let Some(first) = number_of(alloc, nodes, start, scope, &input.value)? else {
        return Ok(None);
    };
    match number_of(alloc, nodes, end, scope, &input.value)? {
        Some(last) => Ok(Some((first, last))),
        None => Ok(None),
    }
}

// The two bounds, if a filter is a call of `range`.
fn bounds_in<'p>(nodes: &Nodes<'p>, tree: &'p Tree, scope: Scope) -> Option<(&'p Tree, &'p Tree)>
    requires { scope.env < count_of nodes.now }
    ensures { IfSome result (λ r. RunsRange nodes.now (named tree.now) scope (named r.0.now) (named r.1.now)) }
{
    match tree {
        Tree::Call(name, arguments) => bounds_of(nodes, name, arguments.as_slice(), scope),
        _ => None,
    }
}

// The same of a name and the arguments.
fn bounds_of<'p>(
    nodes: &Nodes<'p>,
    name: &Name,
    arguments: &'p [Tree],
    scope: Scope,
) -> Option<(&'p Tree, &'p Tree)>
    requires { scope.env < count_of nodes.now }
    ensures { IfSome result (λ r. RunsRange nodes.now (form.call (name_of name.now) (trees_of (map named arguments.now))) scope (named r.0.now) (named r.1.now)) }
{
    let [start, end] = arguments else {
        return None;
    };
    match find_callee(nodes, name, 2, scope.env) {
        Callee::NoCallee => {}
        _ => return None,
    }
    match builtin_named(name.text.as_str(), 2) {
        Builtin::Range => Some((start, end)),
        _ => None,
    }
}

// The number that a simple filter gives for a value, if it gives one.
fn number_of<'p>(
    alloc: Global,
    nodes: &Nodes<'p>,
    tree: &'p Tree,
    scope: Scope,
    value: &Val,
) -> Result<Option<i64>, NoMemory>
    requires { scope.env < count_of nodes.now }
    ensures { IfOk result (λ o. IfSome o (λ n. GivesOne nodes.now (named tree.now) scope (view value.now) (number n))) }
{
    match simple_output(alloc, nodes, tree, scope, value)? {
        Some(output) => Ok(as_number(&output)),
        None => Ok(None),
    }
}

// The number that a value is.
fn as_number(value: &Val) -> Option<i64>
    ensures { IfSome result (λ n. view value.now ≡ number n) }
{
    match value {
        Val::Num(number) => Some(*number),
        _ => None,
    }
}

// The first of the numbers from `start` up to but not including `end` is given. A fork point keeps the others.
fn give_numbers<'p>(
    alloc: Global,
    state: &mut State<'p>,
    start: i64,
    end: i64,
) -> Result<Next<'p>, NoMemory>
    ensures { IfOk result (λ n. ComesTo (λ inputs. machine.deliver (numbers_up_to start end (pos 1)) (frames_in inputs state.old) (forks_in inputs state.old)) state.new n) }
{
    deliver(alloc, state, Outputs::Numbers(start, end, 1))
}
