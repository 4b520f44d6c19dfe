// Filters that run at once.
ghost use Rattle.std.specs.Prelude.{◌<◌, IfOk};
ghost use Rattle.jv_data.specs.View.{view};
ghost use Rattle.jq_ast.specs.Named.{named};
ghost use Rattle.jq_meaning.specs.Runs.{plain};
ghost use Rattle.jq_meaning.specs.machine.State as abstract;
ghost use Rattle.jq_state.specs.Environments.{count_of};
ghost use Rattle.jq_state.specs.Inputs.{inputs_of};
ghost use Rattle.jq_single.specs.Single.{Changes, Keeps};
ghost use Rattle.jq_engine.specs.private.Leading.{GoesOn, at_filter};

use crate::giving::give;
use crate::guards::Guard;
use crate::operators::{on_constant, operate};
use crate::tails::begin;
use jq_ast::Tree;
use jq_single::{Stop, apply};
use jq_state::environments::Nodes;
use jq_state::frames::Scope;
use jq_state::inputs::Inputs;
use jq_state::items::Item;
use jq_state::states::State;
use jq_transitions::{Progress, raise};
use jv_data::{NoMemory, Val};
use std::alloc::Global;

/// Runs a filter at once on a value. Its output goes on to the next frame; a form that is not run at once does its first
/// transition. `None` means that the filter ended without an output.
pub(crate) fn run_at_once<'p>(
    alloc: Global,
    state: &mut State<'p>,
    tree: &'p Tree,
    scope: Scope,
    mut value: Val,
    inputs: &Inputs,
    guard: &mut Guard,
) -> Result<Option<Progress<'p>>, NoMemory>
    requires { scope.env < count_of state.old.nodes }
    ensures { IfOk result (GoesOn (inputs_of inputs.now) (at_filter (inputs_of inputs.now) state.old (named tree.now) scope (plain (view value))) state.new) }
{
    match change(alloc, state.nodes(), tree, scope, &mut value) {
        Ok(()) => {
            guard.gain();
            let progress = give(alloc, state, Item::plain(value))?;
            Ok(Some(progress))
        }
        Err(Stop::Raised(error)) => {
            let progress = raise(state, error)?;
            Ok(Some(progress))
        }
        Err(Stop::Nothing) => Ok(None),
        Err(Stop::NoMemory) => Err(NoMemory),
        Err(Stop::Unknown) => {
            guard.pay();
            let progress = begin(alloc, state, tree, scope, Item::plain(value), inputs, guard)?;
            Ok(Some(progress))
        }
    }
}

/// Runs a filter of at most one output at once on a value, whose place its output takes.
pub(crate) fn change(
    alloc: Global,
    nodes: &Nodes<'_>,
    tree: &Tree,
    scope: Scope,
    value: &mut Val,
) -> Result<(), Stop>
    requires { scope.env < count_of nodes.now }
    ensures runs { Changes nodes.now scope.env scope.depth (named tree.now) (view value.old) (view value.new) result }
    ensures keeps { Keeps result (view value.old) (view value.new) }
{
    if let Some((operator, constant)) = on_constant(tree) {
        return operate(alloc, operator, constant, value);
    }
    apply(alloc, nodes, tree, scope.env, scope.depth, value)
}
