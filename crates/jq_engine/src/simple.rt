// Simple filters, whose output is known at once: they run on a copy of the input, and what they leave is not used.
ghost use Rattle.std.specs.Prelude.{◌<◌, IfOk, IfSome};
ghost use Rattle.jv_data.specs.View.{view};
ghost use Rattle.jq_ast.specs.Named.{named};
ghost use Rattle.jq_state.specs.Environments.{count_of};
ghost use Rattle.jq_engine.specs.private.Simple.{GivesOne};

use crate::at_once::change;
use crate::bodies::called_body;
use jq_ast::Tree;
use jq_heuristics::is_simple;
use jq_single::Stop;
use jq_state::environments::Nodes;
use jq_state::frames::Scope;
use jv_data::{NoMemory, Val};
use std::alloc::Global;

/// The output of a simple filter on a value, if it has one; of a call without arguments that of the body, if this is simple.
pub(crate) fn simple_output<'p>(
    alloc: Global,
    nodes: &Nodes<'p>,
    tree: &'p Tree,
    scope: Scope,
    value: &Val,
) -> Result<Option<Val>, NoMemory>
    requires { scope.env < count_of nodes.now }
    ensures { IfOk result (λ o. IfSome o (λ w. GivesOne nodes.now (named tree.now) scope (view value.now) (view w))) }
{
    match called_body(nodes, tree, scope) {
        Some((body, inside)) => output_of(alloc, nodes, body, inside, value),
        None => output_of(alloc, nodes, tree, scope, value),
    }
}

// The same of a filter itself.
fn output_of(
    alloc: Global,
    nodes: &Nodes<'_>,
    tree: &Tree,
    scope: Scope,
    value: &Val,
) -> Result<Option<Val>, NoMemory>
    requires { scope.env < count_of nodes.now }
    ensures { IfOk result (λ o. IfSome o (λ w. GivesOne nodes.now (named tree.now) scope (view value.now) (view w))) }
{
    if !is_simple(tree) {
        return Ok(None);
    }
    let mut output = value.copy()?;
    match change(alloc, nodes, tree, scope, &mut output) {
        Ok(()) => Ok(Some(output)),
        Err(Stop::NoMemory) => Err(NoMemory),
        Err(_) => Ok(None),
    }
}
