// The pieces of a compiled filter that folds its inputs.
ghost use Rattle.std.specs.Prelude.{◌≡◌, true, IfOk};
ghost use Rattle.jv_data.specs.View.{view};
ghost use Rattle.jq_ast.specs.Named.{named};
ghost use Rattle.jq_meaning.specs.Runs.{plain};
ghost use Rattle.jq_folds.specs.Folding.{fold_in};
ghost use Rattle.jq_folds.specs.Pieces.{going};
ghost use Rattle.jq_pages.specs.Pieces.{piece_view};
ghost use Rattle.jq_starts.specs.Starts.{HasStartedAtMost};
ghost use Rattle.jq_fold_steps.specs.Bindings.{env_of};
ghost use Rattle.jq_fold_steps.specs.Filters.{filter_fold};
ghost use Rattle.jq_fold_steps.specs.Folded.{starts_once};
ghost use Rattle.jq_fold_steps.specs.States.{state_in};

use crate::collecting::{collect_all, collect_step};
use crate::fold_steps::FoldState;
use crate::pieces::empty_piece;
use crate::starting;
use jq_filters::Filter;
use jq_folds::laws::states_and_endings_of_pieces;
use jq_pages::Piece;
use jq_starts::Starts;
use jv_data::{NoMemory, Val};
use std::alloc::Global;

/// The piece of the start, and the first state.
pub(crate) fn first_piece(
    alloc: Global,
    filter: &Filter,
    starts: &mut Starts,
) -> Result<(Piece, FoldState), NoMemory>
    requires { starts_once (fold_in (named filter.now.tree.value) (env_of filter.now.bindings)) ≡ true }
    ensures piece { IfOk result (λ r. piece_view r.0 ≡ (filter_fold filter.now).begin.0) }
    ensures state { IfOk result (λ r. state_in r.1 ≡ (filter_fold filter.now).begin.1) }
    ensures started { HasStartedAtMost 1 starts.old starts.new }
{
    states_and_endings_of_pieces();
    let style = filter.settings().style;
    match starting::begin(alloc, starts, filter.runner())? {
        Some(mut engine) => collect_step(alloc, &mut engine, style),
        None => Ok((empty_piece(alloc), FoldState::Stopped)),
    }
}

/// The piece of an input, and the state after it.
pub(crate) fn next_piece(
    alloc: Global,
    filter: &Filter,
    starts: &mut Starts,
    last: Val,
    input: Val,
) -> Result<(Piece, FoldState), NoMemory>
    ensures piece { IfOk result (λ r. piece_view r.0 ≡ ((filter_fold filter.now).step (going (plain (view last))) (view input)).0) }
    ensures state { IfOk result (λ r. state_in r.1 ≡ ((filter_fold filter.now).step (going (plain (view last))) (view input)).1) }
    ensures started { HasStartedAtMost 1 starts.old starts.new }
{
    states_and_endings_of_pieces();
    let style = filter.settings().style;
    match starting::step(alloc, starts, filter.runner(), last, input)? {
        Some(mut engine) => collect_step(alloc, &mut engine, style),
        None => Ok((empty_piece(alloc), FoldState::Stopped)),
    }
}

/// The piece of what follows the last state.
pub(crate) fn last_piece(
    alloc: Global,
    filter: &Filter,
    starts: &mut Starts,
    last: Val,
) -> Result<Piece, NoMemory>
    ensures piece { IfOk result (λ p. piece_view p ≡ (filter_fold filter.now).close (going (plain (view last)))) }
    ensures started { HasStartedAtMost 1 starts.old starts.new }
{
    let style = filter.settings().style;
    match starting::close(alloc, starts, filter.runner(), last)? {
        Some(mut engine) => collect_all(alloc, &mut engine, style),
        None => Ok(empty_piece(alloc)),
    }
}
