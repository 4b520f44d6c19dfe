// `f as $x | g`, where `f` is simple: the variable is bound at once, and `g` is in tail position.
ghost use Rattle.std.specs.Prelude.{◌≡◌, ◌<◌, IfOk, IfSome};
ghost use Rattle.jv_data.specs.Text.{text_of};
ghost use Rattle.jv_data.specs.View.{view};
ghost use Rattle.jq_ast.specs.Named.{named, named_as_pattern};
ghost use Rattle.jq_tree.specs.Tree as form;
ghost use Rattle.jq_state.specs.Environments.{count_of};
ghost use Rattle.jq_state.specs.Inputs.{inputs_of};
ghost use Rattle.jq_state.specs.Items.{item_of};
ghost use Rattle.jq_engine.specs.private.Forms.{bound_as};
ghost use Rattle.jq_engine.specs.private.Leading.{at_filter};
ghost use Rattle.jq_engine.specs.private.Simple.{BindsOne};
ghost use Rattle.jq_engine.specs.private.Tails.{Follows};

use crate::guards::Guard;
use crate::parts::begin_binding;
use crate::simple::simple_output;
use crate::tails::{Tail, taken};
use jq_ast::{Pattern, Tree};
use jq_state::environments::{Binding, Nodes};
use jq_state::frames::Scope;
use jq_state::inputs::Inputs;
use jq_state::items::Item;
use jq_state::states::State;
use jv_data::{NoMemory, Val};
use std::alloc::Global;

/// `f as P | g`. If `f` is simple and the pattern a variable, the filter in tail position is `g`.
#[inline(never)]
pub(crate) fn bind_tail<'p>(
    alloc: Global,
    state: &mut State<'p>,
    source: &'p Tree,
    pattern: &'p Pattern,
    body: &'p Tree,
    scope: Scope,
    input: &mut Item,
    inputs: &Inputs,
    guard: &mut Guard,
) -> Result<Tail<'p>, NoMemory>
    requires { scope.env < count_of state.old.nodes }
    ensures { IfOk result (Follows (inputs_of inputs.now) (at_filter (inputs_of inputs.now) state.old (bound_as source.now pattern.now body.now) scope (item_of input.old)) state.new input.new) }
{
    if let Some((name, value)) = bound_at_once(
        alloc,
        state.nodes(),
        source,
        pattern,
        scope,
        &input.value,
    )? {
        let env = state.add(Binding::Value(name, value), scope.env)?;
        return Ok(Tail::Filter(body, Scope { env, ..scope }));
    }
    let input = taken(input);
    let progress = begin_binding(
        alloc, state, source, pattern, body, scope, input, inputs, guard,
    )?;
    Ok(Tail::Progress(progress))
}

// The variable of a pattern that is one, and its value, if a simple filter gives it.
fn bound_at_once<'p>(
    alloc: Global,
    nodes: &Nodes<'p>,
    source: &'p Tree,
    pattern: &'p Pattern,
    scope: Scope,
    value: &Val,
) -> Result<Option<(&'p String, Val)>, NoMemory>
    requires { scope.env < count_of nodes.now }
    ensures { IfOk result (λ o. IfSome o (λ r. BindsOne nodes.now (named source.now) (named_as_pattern pattern.now) scope (view value.now) (text_of r.0.now) (view r.1))) }
{
    let Some(name) = variable_of(pattern) else {
        return Ok(None);
    };
    match simple_output(alloc, nodes, source, scope, value)? {
        Some(output) => Ok(Some((name, output))),
        None => Ok(None),
    }
}

// The name of the variable, if the pattern is one.
fn variable_of<'p>(pattern: &'p Pattern) -> Option<&'p String>
    ensures { IfSome result (λ n. named_as_pattern pattern.now ≡ form.whole (text_of n.now)) }
{
    match pattern {
        Pattern::Whole(name) => Some(name),
        _ => None,
    }
}
