// Steps to a part of a filter's output.
ghost use Rattle.std.specs.Prelude.{◌<◌, IfOk};
ghost use Rattle.jq_ast.specs.Leaves.{key_of};
ghost use Rattle.jq_ast.specs.Named.{named};
ghost use Rattle.jq_tree.specs.Tree as form;
ghost use Rattle.jq_state.specs.Environments.{count_of};
ghost use Rattle.jq_transitions.specs.private.Entering.{Enters};

use crate::evaluating::waiting::{run_operation, run_selecting};
use jq_ast::{Key, Tree};
use jq_state::frames::Scope;
use jq_state::items::Item;
use jq_state::next::Next;
use jq_state::states::State;
use jq_state::steps::{Operation, Selecting};
use jv_data::NoMemory;

// `f.a`.
pub(crate) fn enter_field<'p>(
    state: &mut State<'p>,
    target: &'p Tree,
    key: &'p Key,
    guarded: bool,
    scope: Scope,
    input: Item,
) -> Result<Next<'p>, NoMemory>
    requires { scope.env < count_of state.old.nodes }
    ensures { IfOk result (λ n. Enters (form.field (named target.now) (key_of key.now) guarded) state.old scope input state.new n) }
{
    run_operation(state, Operation::Field(key, guarded), target, scope, input)
}

// `f[g]`.
pub(crate) fn enter_index<'p>(
    state: &mut State<'p>,
    target: &'p Tree,
    key: &'p Tree,
    guarded: bool,
    scope: Scope,
    input: Item,
) -> Result<Next<'p>, NoMemory>
    requires { scope.env < count_of state.old.nodes }
    ensures { IfOk result (λ n. Enters (form.index (named target.now) (named key.now) guarded) state.old scope input state.new n) }
{
    let value = input.value.copy()?;
    run_selecting(
        state,
        Selecting::TargetKey(target, guarded, input),
        key,
        scope,
        Item::plain(value),
    )
}

// `f[g:h]`.
pub(crate) fn enter_slice<'p>(
    state: &mut State<'p>,
    target: &'p Tree,
    from: &'p Tree,
    to: &'p Tree,
    guarded: bool,
    scope: Scope,
    input: Item,
) -> Result<Next<'p>, NoMemory>
    requires { scope.env < count_of state.old.nodes }
    ensures { IfOk result (λ n. Enters (form.slice (named target.now) (named from.now) (named to.now) guarded) state.old scope input state.new n) }
{
    let value = input.value.copy()?;
    run_selecting(
        state,
        Selecting::SliceStart(target, to, guarded, input),
        from,
        scope,
        Item::plain(value),
    )
}

// `f[]`.
pub(crate) fn enter_iterate<'p>(
    state: &mut State<'p>,
    target: &'p Tree,
    guarded: bool,
    scope: Scope,
    input: Item,
) -> Result<Next<'p>, NoMemory>
    requires { scope.env < count_of state.old.nodes }
    ensures { IfOk result (λ n. Enters (form.iterate (named target.now) guarded) state.old scope input state.new n) }
{
    run_operation(state, Operation::EveryPart(guarded), target, scope, input)
}
