// Which plan a filter has: a run for each input, a fold over the inputs, or one other run.
ghost use Rattle.std.specs.Prelude.{◌≡◌, ◌↔◌, ◌&&◌, IsTrue};
ghost use Rattle.jq_ast.specs.Named.{named};
ghost use Rattle.jq_tree.specs.Filter.{reads, HasPlan};
ghost use Rattle.jq_tree.specs.Inputs.{InputsInPlace};
ghost use Rattle.jq_inputs.specs.Plans.{view_of};
ghost use Rattle.jq_inputs.specs.private.Walk.{has_fold_shape, folds, is_inputs_call, single_in};

use crate::hidden::Hidden;
use crate::surveys::Count;
use crate::walking::survey;
use jq_ast::Tree;

/// How a filter runs.
#[derive(Clone, Copy, Debug, PartialEq, Eq)]
pub enum Plan {
    /// Once for each input.
    PerInput,
    /// Once on null, folding the inputs one by one.
    Fold,
    /// Any other single run.
    Whole,
}

/// Whether the filter calls `inputs`.
pub fn reads_inputs(tree: &Tree) -> bool
    ensures { result ≡ reads (named tree.now) }
{
    let count = survey(tree, Hidden::nothing()).count;
    !count.is_zero()
}

/// Whether the filter has at most one call of `inputs`, and evaluates it at most once.
pub fn inputs_in_place(tree: &Tree) -> bool
    ensures { IsTrue result ↔ InputsInPlace (named tree.now) }
{
    let found = survey(tree, Hidden::nothing());
    match found.count {
        Count::Zero => true,
        Count::One => found.once,
        Count::More => false,
    }
}

/// The plan under `-n` and `-s`.
pub fn plan_of(null: bool, slurp: bool, tree: &Tree) -> Plan
    ensures { HasPlan null slurp (named tree.now) (view_of result) }
{
    if null {
        if has_fold_shape(tree, Hidden::nothing()) {
            Plan::Fold
        } else {
            Plan::Whole
        }
    } else if slurp {
        Plan::Whole
    } else {
        Plan::PerInput
    }
}

// Whether the filter is a fold, alone or piped into a filter, after any definitions.
fn has_fold_shape(tree: &Tree, hidden: Hidden) -> bool
    ensures { result ≡ has_fold_shape hidden (named tree.now) }
{
    match tree {
        Tree::Define(function, rest) => {
            let inside = hidden.with(function.name.as_str(), function.parameters.len());
            has_fold_shape(rest, inside)
        }
        Tree::Pipe(first, _) => folds(first, hidden),
        _ => folds(tree, hidden),
    }
}

// Whether the filter is `reduce` or `foreach` over `inputs` itself, with a start of at most one output.
fn folds(tree: &Tree, hidden: Hidden) -> bool
    ensures { result ≡ folds hidden (named tree.now) }
{
    match tree {
        Tree::Reduce(source, _, start, _) => folds_from(source, start, hidden),
        Tree::Foreach(source, _, start, _, _) => folds_from(source, start, hidden),
        _ => false,
    }
}

fn folds_from(source: &Tree, start: &Tree, hidden: Hidden) -> bool
    ensures { result ≡ (is_inputs_call hidden (named source.now) && single_in hidden (named start.now)) }
{
    is_inputs_call(source, hidden) && survey(start, hidden).is_single()
}

fn is_inputs_call(tree: &Tree, hidden: Hidden) -> bool
    ensures { result ≡ is_inputs_call hidden (named tree.now) }
{
    match tree {
        Tree::Call(name, arguments) => arguments.as_slice().is_empty()
            && hidden.is_inputs(name.text.as_str()),
        _ => false,
    }
}
