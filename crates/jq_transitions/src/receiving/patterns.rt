// Patterns, which bind variables to parts of a value.
ghost use Rattle.std.specs.Prelude.{◌≡◌, ◌∷◌, ◌<◌, IfOk, OnOk};
ghost use Rattle.jv_data.specs.Value.{Value};
ghost use Rattle.jv_data.specs.Text.{text_of};
ghost use Rattle.jv_data.specs.View.{view};
ghost use Rattle.jq_ast.specs.Named.{named_as_pattern};
ghost use Rattle.jq_meaning.specs.Runs.{Run};
ghost use Rattle.jq_meaning.specs.machine.Matching as machine;
ghost use Rattle.jq_state.specs.Environments.{count_of};
ghost use Rattle.jq_state.specs.Links.{scope_in};
ghost use Rattle.jq_state.specs.Nexts.{ComesTo, on_remaining, transition};
ghost use Rattle.jq_state.specs.Steps.{binder_of, task_of, tasks_of};
ghost use Rattle.jq_state.specs.Views.{envs_in, frames_in, forks_in};
ghost use Rattle.jq_transitions.specs.private.Found.{answer_of};
ghost use Rattle.jq_transitions.specs.private.Transitions.{ComesAnywhere, binding, items_left, members_left, part_matched};

use crate::receiving::binders::run_bound;
use crate::receiving::parts::{Part, part_at};
use jq_ast::{Member, Pattern};
use jq_operations::member_key;
use jq_state::environments;
use jq_state::frames::Scope;
use jq_state::items::Item;
use jq_state::next::{Next, Remaining};
use jq_state::states::State;
use jq_state::steps::{Binder, Binding, Step, Task};
use jv_data::{NoMemory, Val};
use std::alloc::Global;

/// Matches a pattern with a value: it binds the value, or its parts become tasks, which are listed with the next one last.
pub fn match_pattern<'p>(
    state: &mut State<'p>,
    pattern: &'p Pattern,
    value: Val,
    remaining: Box<Remaining<'p>>,
    scope: Scope,
) -> Result<Next<'p>, NoMemory>
    requires { scope.env < count_of state.old.nodes }
    ensures { IfOk result (λ n. ComesTo (transition state.old scope (on_remaining remaining.entry.value (machine.match_pattern (named_as_pattern pattern.now) (view value)))) state.new n) }
{
    match pattern {
        Pattern::Whole(name) => {
            let scope = bind_value(state, name, value, scope)?;
            Ok(Next::Matched(remaining, scope))
        }
        Pattern::Items(patterns) => {
            let remaining = with_task(remaining, Task::Items(patterns.as_slice(), 0, value))?;
            Ok(Next::Matched(remaining, scope))
        }
        Pattern::Members(members) => {
            let remaining = with_task(remaining, Task::Members(members.as_slice(), value))?;
            Ok(Next::Matched(remaining, scope))
        }
    }
}

/// A pattern is matched: the next task is done, or, if none remains, what runs in the bindings.
pub fn match_later<'p>(
    alloc: Global,
    state: &mut State<'p>,
    mut remaining: Box<Remaining<'p>>,
    scope: Scope,
) -> Result<Next<'p>, NoMemory>
    requires { scope.env < count_of state.old.nodes }
    ensures { IfOk result (λ n. ComesTo (transition state.old scope (on_remaining remaining.entry.value machine.match_later)) state.new n) }
{
    match remaining.tasks.pop() {
        Some(Task::Items(patterns, index, value)) => {
            match_items(alloc, patterns, index, value, remaining, scope)
        }
        Some(Task::Members(members, value)) => {
            match_members(alloc, state, members, value, remaining, scope)
        }
        None => run_bound(alloc, state, Box::into_inner(remaining).binder, scope),
    }
}

// Matches the next item of an array, in every state. No pattern has so many items that an index does not fit in an i64.
fn match_items<'p>(
    alloc: Global,
    patterns: &'p [Pattern],
    index: usize,
    value: Val,
    remaining: Box<Remaining<'p>>,
    scope: Scope,
) -> Result<Next<'p>, NoMemory>
    ensures { IfOk result (ComesAnywhere scope (on_remaining remaining.entry.value (λ ts. machine.match_later (items_left patterns.now index (view value) ∷ ts)))) }
{
    let Some((pattern, rest)) = patterns.split_first() else {
        return Ok(Next::Matched(remaining, scope));
    };
    let Ok(place) = i64::try_from(index) else {
        return Err(NoMemory);
    };
    let part = part_at(alloc, &value, &Val::Num(place))?;
    let remaining = with_task(remaining, Task::Items(rest, index + 1, value))?;
    Ok(match_part(part, pattern, remaining, scope))
}

// Matches the next member of an object.
fn match_members<'p>(
    alloc: Global,
    state: &mut State<'p>,
    members: &'p [Member],
    value: Val,
    remaining: Box<Remaining<'p>>,
    scope: Scope,
) -> Result<Next<'p>, NoMemory>
    requires { scope.env < count_of state.old.nodes }
    ensures { IfOk result (λ n. ComesTo (transition state.old scope (on_remaining remaining.entry.value (λ ts. machine.match_later (members_left members.now (view value) ∷ ts)))) state.new n) }
{
    let Some((member, rest)) = members.split_first() else {
        return Ok(Next::Matched(remaining, scope));
    };
    match member {
        Member::Keyed(key, pattern) => {
            let input = Item::plain(value.copy()?);
            let Remaining { tasks, binder } = Box::into_inner(remaining);
            let step = Binding::PatternKey(pattern, rest, value, tasks, binder);
            state.push(Step::Binding(Box::new(alloc, step)?), scope)?;
            Ok(Next::Evaluate(key, scope, input))
        }
        Member::KeyedVariable(name, pattern) => {
            let key = member_key(alloc, name)?;
            let part = part_at(alloc, &value, &key)?;
            let remaining = with_task(remaining, Task::Members(rest, value))?;
            match_named(state, part, name, pattern, remaining, scope)
        }
    }
}

// One task more, which is done next.
fn with_task<'p>(
    mut remaining: Box<Remaining<'p>>,
    task: Task<'p>,
) -> Result<Box<Remaining<'p>>, NoMemory>
    ensures tasks { IfOk result (λ r. tasks_of r.value.tasks.items ≡ task_of task.entry ∷ tasks_of remaining.entry.value.tasks.items) }
    ensures binder { IfOk result (λ r. binder_of r.value.binder ≡ binder_of remaining.entry.value.binder) }
{
    remaining.tasks.push(task)?;
    Ok(remaining)
}

/// Matches a pattern with a part, in every state, or raises the error of the part.
pub(crate) fn match_part<'p>(
    part: Part,
    pattern: &'p Pattern,
    remaining: Box<Remaining<'p>>,
    scope: Scope,
) -> Next<'p>
    ensures { ComesAnywhere scope (part_matched remaining.entry.value (answer_of part) pattern.now (λ w p. p)) result }
{
    match part {
        Part::Value(value) => Next::Matching(pattern, value, remaining, scope),
        Part::Error(error) => Next::Raise(error),
    }
}

// The same, with a variable that is also bound to the part.
fn match_named<'p>(
    state: &mut State<'p>,
    part: Part,
    name: &'p String,
    pattern: &'p Pattern,
    remaining: Box<Remaining<'p>>,
    scope: Scope,
) -> Result<Next<'p>, NoMemory>
    requires { scope.env < count_of state.old.nodes }
    ensures { IfOk result (λ n. ComesTo (transition state.old scope (part_matched remaining.entry.value (answer_of part) pattern.now (binding (text_of name.now)))) state.new n) }
{
    match part {
        Part::Value(value) => {
            let scope = bind_value(state, name, value.copy()?, scope)?;
            Ok(Next::Matching(pattern, value, remaining, scope))
        }
        Part::Error(error) => Ok(Next::Raise(error)),
    }
}

// The scope with a variable bound to a value.
fn bind_value<'p>(
    state: &mut State<'p>,
    name: &'p String,
    value: Val,
    scope: Scope,
) -> Result<Scope, NoMemory>
    requires { scope.env < count_of state.old.nodes }
    ensures within { IfOk result (λ p. p.env < count_of state.new.nodes) }
    ensures scope { IfOk result (λ p. (inputs : Run Value) → scope_in (envs_in inputs state.new) p ≡ binding (text_of name.now) (view value) (scope_in (envs_in inputs state.old) scope)) }
    ensures frames { OnOk result ((inputs : Run Value) → frames_in inputs state.new ≡ frames_in inputs state.old) }
    ensures forks { OnOk result ((inputs : Run Value) → forks_in inputs state.new ≡ forks_in inputs state.old) }
{
    let binding = environments::Binding::Value(name, value);
    let env = state.add(binding, scope.env)?;
    Ok(Scope { env, ..scope })
}
