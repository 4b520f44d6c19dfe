// The evaluation of a filter.
ghost use Rattle.std.specs.Prelude.{◌<◌, IfOk};
ghost use Rattle.jq_ast.specs.Named.{named};
ghost use Rattle.jq_meaning.specs.machine.Evaluating as machine;
ghost use Rattle.jq_state.specs.Environments.{count_of};
ghost use Rattle.jq_state.specs.Inputs.{inputs_of};
ghost use Rattle.jq_state.specs.Items.{item_of};
ghost use Rattle.jq_state.specs.Nexts.{ComesWith, transition};

mod binding;
mod composition;
mod paths;
mod values;
mod waiting;

use crate::evaluating::binding::{enter_bind_as, enter_foreach, enter_reduce};
use crate::evaluating::composition::{
    enter_alternative, enter_choice, enter_comma, enter_pipe, enter_try,
};
use crate::evaluating::paths::{enter_field, enter_index, enter_iterate, enter_slice};
use crate::evaluating::values::{
    enter_and, enter_array, enter_binary, enter_format, enter_literal, enter_negation,
    enter_object, enter_or, enter_text,
};
use jq_ast::Tree;
use jq_operations::{
    enter_break, enter_call, enter_define, enter_label, enter_prelude_call, enter_variable,
};
use jq_state::frames::Scope;
use jq_state::inputs::Inputs;
use jq_state::items::Item;
use jq_state::next::Next;
use jq_state::states::State;
use jv_data::NoMemory;
use std::alloc::Global;

/// The first transition of a filter in a scope on an item. `inputs` returns the inputs.
pub fn enter<'p>(
    alloc: Global,
    state: &mut State<'p>,
    tree: &'p Tree,
    scope: Scope,
    input: Item,
    inputs: &Inputs,
) -> Result<Next<'p>, NoMemory>
    requires { scope.env < count_of state.old.nodes }
    ensures { IfOk result (λ n. ComesWith (inputs_of inputs.now) (transition state.old scope (λ p. machine.enter (named tree.now) p (item_of input)) (inputs_of inputs.now)) state.new n) }
{
    match tree {
        Tree::Identity => Ok(Next::Give(input)),
        Tree::Empty => Ok(Next::GoBack),
        Tree::Literal(constant) => enter_literal(state, tree, constant, scope, input),
        Tree::Text(format, pieces, last) => {
            enter_text(
                alloc,
                state,
                tree,
                format,
                pieces.as_slice(),
                last,
                scope,
                input,
            )
        }
        Tree::Format(format) => enter_format(alloc, state, tree, format, scope, input),
        Tree::Variable(name) => enter_variable(state, tree, name, scope, input),
        Tree::Field(target, key, guarded) => {
            enter_field(state, target, key, *guarded, scope, input)
        }
        Tree::Index(target, key, guarded) => {
            enter_index(state, target, key, *guarded, scope, input)
        }
        Tree::Slice(target, from, to, guarded) => {
            enter_slice(state, target, from, to, *guarded, scope, input)
        }
        Tree::Iterate(target, guarded) => enter_iterate(state, target, *guarded, scope, input),
        Tree::Pipe(first, second) => enter_pipe(state, first, second, scope, input),
        Tree::Comma(first, second) => enter_comma(alloc, state, first, second, scope, input),
        Tree::Binary(operator, left, right) => {
            enter_binary(state, tree, *operator, left, right, scope, input)
        }
        Tree::And(left, right) => enter_and(state, tree, left, right, scope, input),
        Tree::Or(left, right) => enter_or(state, tree, left, right, scope, input),
        Tree::Alternative(left, right) => {
            enter_alternative(alloc, state, left, right, scope, input)
        }
        Tree::Negation(operand) => enter_negation(state, tree, operand, scope, input),
        Tree::Array(filter) => enter_array(alloc, state, tree, filter, scope, input),
        Tree::Object(entries) => {
            enter_object(alloc, state, tree, entries.as_slice(), scope, input)
        }
        Tree::Choice(condition, holds, fails) => {
            enter_choice(state, condition, holds, fails, scope, input)
        }
        Tree::TryCatch(body, handler) => enter_try(state, body, handler, scope, input),
        Tree::Label(name, body) => enter_label(state, name, body, scope, input),
        Tree::Break(name) => Ok(enter_break(state, name, scope)),
        Tree::BindAs(source, pattern, body) => {
            enter_bind_as(alloc, state, source, pattern, body, scope, input)
        }
        Tree::Reduce(source, pattern, start, update) => {
            enter_reduce(alloc, state, source, pattern, start, update, scope, input)
        }
        Tree::Foreach(source, pattern, start, update, extract) => {
            enter_foreach(
                alloc, state, source, pattern, start, update, extract, scope, input,
            )
        }
        Tree::Define(function, rest) => enter_define(state, function, rest, scope, input),
        Tree::Call(name, arguments) => {
            enter_call(
                alloc,
                state,
                tree,
                name,
                arguments.as_slice(),
                scope,
                input,
                inputs,
            )
        }
        Tree::PreludeCall(name, arguments) => {
            enter_prelude_call(state, name, arguments.as_slice(), scope, input)
        }
        Tree::Update(modify, parts) => {
            enter_prelude_call(state, &modify.name, &**parts, scope, input)
        }
    }
}
