// Forms that have no paths: inside `path(f)` they run on the value alone, and their outputs are refused.
ghost use Rattle.std.specs.Prelude.{◌≡◌, ◌<◌, IfOk, map};
ghost use Rattle.jq_ast.specs.Leaves.{literal_of, operator_of};
ghost use Rattle.jq_ast.specs.Named.{name_of, named};
ghost use Rattle.jq_tree.specs.Tree as form;
ghost use Rattle.jq_state.specs.Environments.{count_of};
ghost use Rattle.jq_state.specs.Steps.{named_entries};
ghost use Rattle.jq_operations.specs.Pieces.{named_pieces};
ghost use Rattle.jq_transitions.specs.private.Entering.{Enters};

use crate::evaluating::waiting::{run_combining, run_holding, run_operation};
use jq_ast::{Entry, Literal, Name, Operator, Piece, Tree};
use jq_operations::delivery::refuse_paths;
use jq_operations::entries::next_entry;
use jq_operations::pieces::enter_pieces;
use jq_operations::{Inserted, literal, text_in_format};
use jq_state::forks::Choice;
use jq_state::frames::Scope;
use jq_state::items::Item;
use jq_state::next::Next;
use jq_state::states::State;
use jq_state::steps::{Combining, Holding, Operation};
use jv_data::{NoMemory, Object, Val};
use std::alloc::Global;

// A constant.
pub(crate) fn enter_literal<'p>(
    state: &mut State<'p>,
    tree: &'p Tree,
    constant: &Literal,
    scope: Scope,
    input: Item,
) -> Result<Next<'p>, NoMemory>
    requires env { scope.env < count_of state.old.nodes }
    requires tree { named tree.now ≡ form.literal (literal_of constant.now) }
    ensures { IfOk result (λ n. Enters (form.literal (literal_of constant.now)) state.old scope input state.new n) }
{
    if input.path.is_present() {
        return refuse_paths(state, tree, scope, input.value);
    }
    let value = literal(constant)?;
    Ok(Next::Give(Item::plain(value)))
}

// `"a\(f)b"`, `@name "a\(f)b"`.
pub(crate) fn enter_text<'p>(
    alloc: Global,
    state: &mut State<'p>,
    tree: &'p Tree,
    format: &'p Name,
    pieces: &'p [Piece<Tree>],
    last: &'p String,
    scope: Scope,
    input: Item,
) -> Result<Next<'p>, NoMemory>
    requires env { scope.env < count_of state.old.nodes }
    requires tree { named tree.now ≡ form.text (name_of format.now) (named_pieces pieces.now last.now) }
    ensures { IfOk result (λ n. Enters (form.text (name_of format.now) (named_pieces pieces.now last.now)) state.old scope input state.new n) }
{
    if input.path.is_present() {
        return refuse_paths(state, tree, scope, input.value);
    }
    enter_pieces(alloc, state, format, pieces, last, scope, input)
}

// `@name`.
pub(crate) fn enter_format<'p>(
    alloc: Global,
    state: &mut State<'p>,
    tree: &'p Tree,
    format: &Name,
    scope: Scope,
    input: Item,
) -> Result<Next<'p>, NoMemory>
    requires env { scope.env < count_of state.old.nodes }
    requires tree { named tree.now ≡ form.format (name_of format.now) }
    ensures { IfOk result (λ n. Enters (form.format (name_of format.now)) state.old scope input state.new n) }
{
    if input.path.is_present() {
        return refuse_paths(state, tree, scope, input.value);
    }
    match text_in_format(alloc, format, "", &input.value, "")? {
        Inserted::Text(text) => Ok(Next::Give(Item::plain(Val::Text(text)))),
        Inserted::Error(error) => Ok(Next::Raise(error)),
    }
}

// `f + g`: the right operand is run first.
pub(crate) fn enter_binary<'p>(
    state: &mut State<'p>,
    tree: &'p Tree,
    operator: Operator,
    left: &'p Tree,
    right: &'p Tree,
    scope: Scope,
    input: Item,
) -> Result<Next<'p>, NoMemory>
    requires env { scope.env < count_of state.old.nodes }
    requires tree { named tree.now ≡ form.binary (operator_of operator) (named left.now) (named right.now) }
    ensures { IfOk result (λ n. Enters (form.binary (operator_of operator) (named left.now) (named right.now)) state.old scope input state.new n) }
{
    if input.path.is_present() {
        return refuse_paths(state, tree, scope, input.value);
    }
    let kept = input.copy()?;
    run_combining(
        state,
        Combining::RightOperand(operator, left, kept),
        right,
        scope,
        input,
    )
}

// `f and g`.
pub(crate) fn enter_and<'p>(
    state: &mut State<'p>,
    tree: &'p Tree,
    left: &'p Tree,
    right: &'p Tree,
    scope: Scope,
    input: Item,
) -> Result<Next<'p>, NoMemory>
    requires env { scope.env < count_of state.old.nodes }
    requires tree { named tree.now ≡ form.conjunction (named left.now) (named right.now) }
    ensures { IfOk result (λ n. Enters (form.conjunction (named left.now) (named right.now)) state.old scope input state.new n) }
{
    if input.path.is_present() {
        return refuse_paths(state, tree, scope, input.value);
    }
    let kept = input.copy()?;
    run_combining(state, Combining::Conjunct(right, kept), left, scope, input)
}

// `f or g`.
pub(crate) fn enter_or<'p>(
    state: &mut State<'p>,
    tree: &'p Tree,
    left: &'p Tree,
    right: &'p Tree,
    scope: Scope,
    input: Item,
) -> Result<Next<'p>, NoMemory>
    requires env { scope.env < count_of state.old.nodes }
    requires tree { named tree.now ≡ form.disjunction (named left.now) (named right.now) }
    ensures { IfOk result (λ n. Enters (form.disjunction (named left.now) (named right.now)) state.old scope input state.new n) }
{
    if input.path.is_present() {
        return refuse_paths(state, tree, scope, input.value);
    }
    let kept = input.copy()?;
    run_combining(state, Combining::Disjunct(right, kept), left, scope, input)
}

// `-f`.
pub(crate) fn enter_negation<'p>(
    state: &mut State<'p>,
    tree: &'p Tree,
    operand: &'p Tree,
    scope: Scope,
    input: Item,
) -> Result<Next<'p>, NoMemory>
    requires env { scope.env < count_of state.old.nodes }
    requires tree { named tree.now ≡ form.negation (named operand.now) }
    ensures { IfOk result (λ n. Enters (form.negation (named operand.now)) state.old scope input state.new n) }
{
    if input.path.is_present() {
        return refuse_paths(state, tree, scope, input.value);
    }
    run_operation(state, Operation::Negate, operand, scope, input)
}

// `[f]`: the outputs of f are collected in the cell of a fork point.
pub(crate) fn enter_array<'p>(
    alloc: Global,
    state: &mut State<'p>,
    tree: &'p Tree,
    filter: &'p Tree,
    scope: Scope,
    input: Item,
) -> Result<Next<'p>, NoMemory>
    requires env { scope.env < count_of state.old.nodes }
    requires tree { named tree.now ≡ form.array (named filter.now) }
    ensures { IfOk result (λ n. Enters (form.array (named filter.now)) state.old scope input state.new n) }
{
    if input.path.is_present() {
        return refuse_paths(state, tree, scope, input.value);
    }
    let height = state.height();
    state.fork(Choice::Collected, Vec::new(alloc), scope)?;
    run_holding(state, Holding::Collect(height), filter, scope, input)
}

// `{..}`.
pub(crate) fn enter_object<'p>(
    alloc: Global,
    state: &mut State<'p>,
    tree: &'p Tree,
    entries: &'p [Entry<Tree>],
    scope: Scope,
    input: Item,
) -> Result<Next<'p>, NoMemory>
    requires env { scope.env < count_of state.old.nodes }
    requires tree { named tree.now ≡ form.object (named_entries entries.now) }
    ensures { IfOk result (λ n. Enters (form.object (named_entries entries.now)) state.old scope input state.new n) }
{
    if input.path.is_present() {
        return refuse_paths(state, tree, scope, input.value);
    }
    let made = Object::new(alloc)?;
    next_entry(alloc, state, entries, made, scope, input.value)
}
