// Calls whose arguments are run one after the other.
ghost use Rattle.std.specs.Prelude.{◌<◌, IfOk, map};
ghost use Rattle.jv_data.specs.Held.{values_in};
ghost use Rattle.jq_ast.specs.Named.{named};
ghost use Rattle.jq_tree.specs.Tree.{trees_of};
ghost use Rattle.jq_meaning.specs.machine.Evaluating as machine;
ghost use Rattle.jq_state.specs.Environments.{count_of};
ghost use Rattle.jq_state.specs.Items.{item_of};
ghost use Rattle.jq_state.specs.Nexts.{ComesTo, transition};
ghost use Rattle.jq_state.specs.Steps.{builtin_of};

use crate::builtins::apply;
use crate::delivery::deliver;
use crate::waiting::run_part;
use jq_ast::Tree;
use jq_state::frames::Scope;
use jq_state::items::Item;
use jq_state::next::Next;
use jq_state::states::State;
use jq_state::steps::{Builtin, Making};
use jv_data::{Array, NoMemory, Val};
use std::alloc::Global;

/// Runs the next argument of a call. If none remains, the call itself gives its outputs.
pub fn next_argument<'p>(
    alloc: Global,
    state: &mut State<'p>,
    builtin: Builtin,
    later: &'p [Tree],
    known: Array<Val>,
    scope: Scope,
    input: Item,
) -> Result<Next<'p>, NoMemory>
    requires { scope.env < count_of state.old.nodes }
    ensures { IfOk result (λ n. ComesTo (transition state.old scope (λ p. machine.next_argument (builtin_of builtin) (trees_of (map named later.now)) (values_in known) p (item_of input))) state.new n) }
{
    let Some((argument, later)) = later.split_first() else {
        let outputs = apply(alloc, builtin, input, known)?;
        return deliver(alloc, state, outputs);
    };
    let value = Item::plain(input.value.copy()?);
    run_part(
        alloc,
        state,
        argument,
        Making::Argument(builtin, later, known, input),
        scope,
        value,
    )
}
