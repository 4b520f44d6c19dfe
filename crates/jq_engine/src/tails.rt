// Filters in tail position: the filter after a `|`, the branch of an `if`, and the body of a called function. If what comes before such
// a filter runs at once, no frame waits for it, and it is evaluated in the same step.
ghost use Rattle.std.specs.Prelude.{◌≡◌, ◌<◌, if◌then◌else◌, IfOk};
ghost use Rattle.jv_data.specs.View.{view};
ghost use Rattle.jq_ast.specs.Named.{named};
ghost use Rattle.jq_tree.specs.Tree as form;
ghost use Rattle.jq_meaning.specs.Runs.{plain};
ghost use Rattle.jq_natives.specs.Answers.{is_true};
ghost use Rattle.jq_state.specs.Environments.{count_of};
ghost use Rattle.jq_state.specs.Inputs.{inputs_of};
ghost use Rattle.jq_state.specs.Items.{item_of};
ghost use Rattle.jq_engine.specs.private.Forms.{chosen};
ghost use Rattle.jq_engine.specs.private.Leading.{Leads, at_filter};
ghost use Rattle.jq_state.specs.Nexts.{NextFits, stands};
ghost use Rattle.jq_engine.specs.private.Tails.{Follows, FollowsAfter};

use crate::at_once::{change, run_at_once};
use crate::bindings::bind_tail;
use crate::bodies::called_body;
use crate::guards::Guard;
use crate::parts::{stopped, wait};
use crate::passing::go_back;
use crate::ranges::enter_filter;
use crate::stepping::deliver;
use jq_ast::Tree;
use jq_heuristics::is_update;
use jq_natives::truth;
use jq_state::frames::Scope;
use jq_state::inputs::Inputs;
use jq_state::items::Item;
use jq_state::next::Next;
use jq_state::states::State;
use jq_state::steps::{Combining, Step};
use jq_transitions::{Progress, leave};
use jv_data::{NoMemory, Val};
use std::alloc::Global;
use std::mem::replace;

// How many filters in tail position are evaluated in one step.
const TAILS: u32 = 1_000;

/// What the evaluation of a filter comes to.
#[derive(Drop)]
pub(crate) enum Tail<'p> {
    /// This filter is evaluated next, on what the input has become.
    Filter(&'p Tree, Scope),
    Progress(Progress<'p>),
}

/// Evaluates a filter, and the filters in tail position after it. Those of at most one output may run at once. An update in tail
/// position is left to the next step.
pub(crate) fn evaluate<'p>(
    alloc: Global,
    state: &mut State<'p>,
    tree: &'p Tree,
    scope: Scope,
    input: Item,
    inputs: &Inputs,
    guard: &mut Guard,
) -> Result<Progress<'p>, NoMemory>
    requires { scope.env < count_of state.old.nodes }
    ensures { IfOk result (Leads (inputs_of inputs.now) (at_filter (inputs_of inputs.now) state.old (named tree.now) scope (item_of input)) state.new) }
{
    let mut tree = tree;
    let mut scope = scope;
    let mut input = input;
    let mut left = TAILS;
    'tails: while left > 0 {
        left -= 1;
        match tail_or_whole(alloc, state, tree, scope, &mut input, inputs, guard)? {
            Tail::Filter(later, inside) => {
                if is_update(later) {
                    return Ok(Progress::Moves(Next::Evaluate(later, inside, input)));
                }
                tree = later;
                scope = inside;
            }
            Tail::Progress(progress) => return Ok(progress),
        }
        guard.earn();
    }
    begin(alloc, state, tree, scope, input, inputs, guard)
}

// A filter of at most one output may run at once where no path is asked for.
#[inline(always)]
fn tail_or_whole<'p>(
    alloc: Global,
    state: &mut State<'p>,
    tree: &'p Tree,
    scope: Scope,
    input: &mut Item,
    inputs: &Inputs,
    guard: &mut Guard,
) -> Result<Tail<'p>, NoMemory>
    requires { scope.env < count_of state.old.nodes }
    ensures { IfOk result (Follows (inputs_of inputs.now) (at_filter (inputs_of inputs.now) state.old (named tree.now) scope (item_of input.old)) state.new input.new) }
{
    if guard.tries(tree, &*input) {
        let value = taken(input).value;
        let progress = run_whole(alloc, state, tree, scope, value, inputs, guard)?;
        return Ok(Tail::Progress(progress));
    }
    first_tail(alloc, state, tree, scope, input, inputs, guard)
}

// Runs a filter at once on a value. If it ends without an output, the run goes back.
#[inline(never)]
fn run_whole<'p>(
    alloc: Global,
    state: &mut State<'p>,
    tree: &'p Tree,
    scope: Scope,
    value: Val,
    inputs: &Inputs,
    guard: &mut Guard,
) -> Result<Progress<'p>, NoMemory>
    requires { scope.env < count_of state.old.nodes }
    ensures { IfOk result (Leads (inputs_of inputs.now) (at_filter (inputs_of inputs.now) state.old (named tree.now) scope (plain (view value))) state.new) }
{
    match run_at_once(alloc, state, tree, scope, value, inputs, guard)? {
        Some(progress) => Ok(progress),
        None => go_back(alloc, state, inputs, guard),
    }
}

/// The first transition of a filter, and more of them where a part that is run first runs at once.
pub(crate) fn begin<'p>(
    alloc: Global,
    state: &mut State<'p>,
    tree: &'p Tree,
    scope: Scope,
    input: Item,
    inputs: &Inputs,
    guard: &mut Guard,
) -> Result<Progress<'p>, NoMemory>
    requires { scope.env < count_of state.old.nodes }
    ensures { IfOk result (Leads (inputs_of inputs.now) (at_filter (inputs_of inputs.now) state.old (named tree.now) scope (item_of input)) state.new) }
{
    let mut input = input;
    match first_tail(alloc, state, tree, scope, &mut input, inputs, guard)? {
        Tail::Filter(later, inside) => Ok(Progress::Moves(Next::Evaluate(later, inside, input))),
        Tail::Progress(progress) => Ok(progress),
    }
}

// The filter in tail position if what comes before it runs at once; else the first transition.
#[inline(always)]
fn first_tail<'p>(
    alloc: Global,
    state: &mut State<'p>,
    tree: &'p Tree,
    scope: Scope,
    input: &mut Item,
    inputs: &Inputs,
    guard: &mut Guard,
) -> Result<Tail<'p>, NoMemory>
    requires { scope.env < count_of state.old.nodes }
    ensures { IfOk result (Follows (inputs_of inputs.now) (at_filter (inputs_of inputs.now) state.old (named tree.now) scope (item_of input.old)) state.new input.new) }
{
    match tree {
        Tree::Pipe(first, second) => {
            pipe_tail(alloc, state, first, second, scope, input, inputs, guard)
        }
        Tree::Choice(condition, holds, fails) => {
            choice_tail(
                alloc, state, condition, holds, fails, scope, input, inputs, guard,
            )
        }
        Tree::BindAs(source, pattern, body) => {
            bind_tail(
                alloc, state, source, pattern, body, scope, input, inputs, guard,
            )
        }
        _ => other_tail(alloc, state, tree, scope, input, inputs, guard),
    }
}

// The body of a called function or parameter; of another filter what follows its first transition.
#[inline(always)]
fn other_tail<'p>(
    alloc: Global,
    state: &mut State<'p>,
    tree: &'p Tree,
    scope: Scope,
    input: &mut Item,
    inputs: &Inputs,
    guard: &mut Guard,
) -> Result<Tail<'p>, NoMemory>
    requires { scope.env < count_of state.old.nodes }
    ensures { IfOk result (Follows (inputs_of inputs.now) (at_filter (inputs_of inputs.now) state.old (named tree.now) scope (item_of input.old)) state.new input.new) }
{
    if let Some((body, inside)) = called_body(state.nodes(), tree, scope) {
        return Ok(Tail::Filter(body, inside));
    }
    let next = enter_filter(alloc, state, tree, scope, taken(input), inputs)?;
    later_tail(alloc, state, next, input, inputs, guard)
}

// What follows a transition: a filter is evaluated in the same step, an item goes to the frame that waits for it, and a break to its
// label.
#[inline(always)]
fn later_tail<'p>(
    alloc: Global,
    state: &mut State<'p>,
    next: Next<'p>,
    input: &mut Item,
    inputs: &Inputs,
    guard: &mut Guard,
) -> Result<Tail<'p>, NoMemory>
    requires { NextFits (count_of state.old.nodes) next }
    ensures { IfOk result (FollowsAfter (inputs_of inputs.now) (stands (inputs_of inputs.now) state.old next.entry) state.new input.new) }
{
    match next {
        Next::Evaluate(later, inside, item) => {
            *input = item;
            Ok(Tail::Filter(later, inside))
        }
        Next::Give(item) => {
            guard.earn();
            let progress = deliver(alloc, state, item, inputs, guard)?;
            Ok(Tail::Progress(progress))
        }
        Next::Leave(level) => {
            guard.earn();
            Ok(Tail::Progress(leave(state, level)))
        }
        other => Ok(Tail::Progress(Progress::Moves(other))),
    }
}

// `f | g`.
#[inline(always)]
fn pipe_tail<'p>(
    alloc: Global,
    state: &mut State<'p>,
    first: &'p Tree,
    second: &'p Tree,
    scope: Scope,
    input: &mut Item,
    inputs: &Inputs,
    guard: &mut Guard,
) -> Result<Tail<'p>, NoMemory>
    requires { scope.env < count_of state.old.nodes }
    ensures { IfOk result (Follows (inputs_of inputs.now) (at_filter (inputs_of inputs.now) state.old (form.pipe (named first.now) (named second.now)) scope (item_of input.old)) state.new input.new) }
{
    if !guard.tries(first, &*input) {
        state.push(Step::Combining(Combining::PipeInto(second)), scope)?;
        return Ok(Tail::Filter(first, scope));
    }
    match change(alloc, state.nodes(), first, scope, &mut input.value) {
        Ok(()) => {
            guard.gain();
            Ok(Tail::Filter(second, scope))
        }
        Err(stop) => {
            let step = Step::Combining(Combining::PipeInto(second));
            let value = taken(input).value;
            let progress = stopped(alloc, state, first, step, scope, value, stop, inputs, guard)?;
            Ok(Tail::Progress(progress))
        }
    }
}

// `if f then g else h end`.
#[inline(always)]
fn choice_tail<'p>(
    alloc: Global,
    state: &mut State<'p>,
    condition: &'p Tree,
    holds: &'p Tree,
    fails: &'p Tree,
    scope: Scope,
    input: &mut Item,
    inputs: &Inputs,
    guard: &mut Guard,
) -> Result<Tail<'p>, NoMemory>
    requires { scope.env < count_of state.old.nodes }
    ensures { IfOk result (Follows (inputs_of inputs.now) (at_filter (inputs_of inputs.now) state.old (chosen condition.now holds.now fails.now) scope (item_of input.old)) state.new input.new) }
{
    let mut value = input.value.copy()?;
    if !guard.tries_plain(condition) {
        let step = Step::Combining(Combining::Test(holds, fails, taken(input)));
        let progress = wait(state, condition, step, scope, Item::plain(value))?;
        return Ok(Tail::Progress(progress));
    }
    match change(alloc, state.nodes(), condition, scope, &mut value) {
        Ok(()) => {
            guard.gain();
            let branch = branch_for(&value, holds, fails);
            Ok(Tail::Filter(branch, scope))
        }
        Err(stop) => {
            let step = Step::Combining(Combining::Test(holds, fails, taken(input)));
            let progress = stopped(
                alloc, state, condition, step, scope, value, stop, inputs, guard,
            )?;
            Ok(Tail::Progress(progress))
        }
    }
}

// Null and false choose the second branch.
fn branch_for<'p>(test: &Val, holds: &'p Tree, fails: &'p Tree) -> &'p Tree
    ensures { named result.now ≡ (if is_true (view test.now) then named holds.now else named fails.now) }
{
    if truth(test) { holds } else { fails }
}

/// Takes an item, and leaves null.
#[inline(always)]
pub(crate) fn taken(input: &mut Item) -> Item
    ensures { result ≡ input.old }
{
    replace(input, Item::plain(Val::Null))
}
