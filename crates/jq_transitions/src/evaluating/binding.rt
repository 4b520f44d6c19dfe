// Forms that bind variables by patterns.
ghost use Rattle.std.specs.Prelude.{◌<◌, IfOk};
ghost use Rattle.jq_ast.specs.Named.{named, named_as_pattern};
ghost use Rattle.jq_tree.specs.Tree as form;
ghost use Rattle.jq_state.specs.Environments.{count_of};
ghost use Rattle.jq_transitions.specs.private.Entering.{Enters};

use crate::evaluating::waiting::run_binding;
use jq_ast::{Pattern, Tree};
use jq_state::frames::Scope;
use jq_state::items::Item;
use jq_state::next::Next;
use jq_state::states::State;
use jq_state::steps::{Binder, Binding, Fold};
use jv_data::NoMemory;
use std::alloc::Global;

// `f as P | g`.
pub(crate) fn enter_bind_as<'p>(
    alloc: Global,
    state: &mut State<'p>,
    source: &'p Tree,
    pattern: &'p Pattern,
    body: &'p Tree,
    scope: Scope,
    input: Item,
) -> Result<Next<'p>, NoMemory>
    requires { scope.env < count_of state.old.nodes }
    ensures { IfOk result (λ n. Enters (form.bind_as (named source.now) (named_as_pattern pattern.now) (named body.now)) state.old scope input state.new n) }
{
    let value = input.value.copy()?;
    run_binding(
        alloc,
        state,
        Binding::Source(pattern, Binder::Body(body, input)),
        source,
        scope,
        Item::plain(value),
    )
}

// `reduce f as P (g; h)`.
pub(crate) fn enter_reduce<'p>(
    alloc: Global,
    state: &mut State<'p>,
    source: &'p Tree,
    pattern: &'p Pattern,
    start: &'p Tree,
    update: &'p Tree,
    scope: Scope,
    input: Item,
) -> Result<Next<'p>, NoMemory>
    requires { scope.env < count_of state.old.nodes }
    ensures { IfOk result (λ n. Enters (form.reduce (named source.now) (named_as_pattern pattern.now) (named start.now) (named update.now)) state.old scope input state.new n) }
{
    let kept = input.copy()?;
    run_binding(
        alloc,
        state,
        Binding::FoldStart(source, pattern, Fold::Reducing(update), kept),
        start,
        scope,
        input,
    )
}

// `foreach f as P (g; h; i)`.
pub(crate) fn enter_foreach<'p>(
    alloc: Global,
    state: &mut State<'p>,
    source: &'p Tree,
    pattern: &'p Pattern,
    start: &'p Tree,
    update: &'p Tree,
    extract: &'p Tree,
    scope: Scope,
    input: Item,
) -> Result<Next<'p>, NoMemory>
    requires { scope.env < count_of state.old.nodes }
    ensures { IfOk result (λ n. Enters (form.foreach (named source.now) (named_as_pattern pattern.now) (named start.now) (named update.now) (named extract.now)) state.old scope input state.new n) }
{
    let kept = input.copy()?;
    let fold = Fold::Extracting(update, extract);
    run_binding(
        alloc,
        state,
        Binding::FoldStart(source, pattern, fold, kept),
        start,
        scope,
        input,
    )
}
