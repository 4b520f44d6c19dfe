// Runs of steps over inputs.
ghost use Rattle.std.specs.Prelude.{◌≡◌, ◌++◌, ◌+◌, length, map, None, IfOk, OnOk};
ghost use Rattle.std.specs.Option.{option_to_list};
ghost use Rattle.jv_data.specs.View.{view};
ghost use Rattle.jq_pages.specs.Pieces.{piece_view};
ghost use Rattle.jq_pages.specs.Folds.{Rises, state_after, pieces_after};
ghost use Rattle.jq_pages.specs.private.Reruns.{IsRunOf};

use crate::listing::PieceList;
use crate::page::Rerun;
use crate::pieces::Piece;
use crate::steps::Steps;
use jv_data::{NoMemory, Val};
use std::alloc::Global;

// Runs the steps over inputs from a state, and adds their pieces to a list.
pub(crate) fn run_on<S: Steps>(
    steps: &mut S,
    state: S::State,
    inputs: &[Val],
    pieces: &mut PieceList,
) -> Result<S::State, NoMemory>
    ensures exit { IfOk result (λ t. S.seen t ≡ state_after (S.fold steps.old) (S.seen state) (map view inputs.now)) }
    ensures pieces { OnOk result (map piece_view pieces.new.items.items ≡ map piece_view pieces.old.items.items ++ pieces_after (S.fold steps.old) (S.seen state) (map view inputs.now)) }
    ensures same { S.fold steps.new ≡ S.fold steps.old }
    ensures rises { Rises (S.starts steps.old) (S.starts steps.new) (length inputs.now) }
{
    let mut state = state;
    for input in inputs {
        let (piece, next) = steps.step(&state, input)?;
        pieces.push(piece)?;
        state = next;
    }
    Ok(state)
}

// Runs the steps over the inputs of an edited page: those before the edit, those that it puts in, and those after it.
pub(crate) fn run_page<S: Steps>(
    alloc: Global,
    steps: &mut S,
    entry: &S::State,
    before: &[Val],
    put: &[Val],
    after: &[Val],
) -> Result<Rerun<S::State>, NoMemory>
    ensures run { IfOk result (λ a. IsRunOf S.seen (S.fold steps.old) (S.seen entry.now) ((map view before.now ++ map view put.now) ++ map view after.now) a) }
    ensures same { S.fold steps.new ≡ S.fold steps.old }
    ensures rises { Rises (S.starts steps.old) (S.starts steps.new) (length before.now + length put.now + length after.now) }
{
    let mut pieces = PieceList::new(alloc);
    let start = steps.copy(entry)?;
    let middle = run_on(steps, start, before, &mut pieces)?;
    let later = run_on(steps, middle, put, &mut pieces)?;
    let exit = run_on(steps, later, after, &mut pieces)?;
    Ok(Rerun { pieces, exit })
}

// Runs the step of the input of an edit, if there is one.
pub(crate) fn run_one<S: Steps>(
    steps: &mut S,
    state: &S::State,
    put: &Option<Val>,
) -> Result<Option<Piece>, NoMemory>
    ensures pieces { IfOk result (λ p. map piece_view (option_to_list p) ≡ pieces_after (S.fold steps.old) (S.seen state.now) (map view (option_to_list put.now))) }
    ensures none { put.now ≡ None → IfOk result (λ p. p ≡ None) }
    ensures same { S.fold steps.new ≡ S.fold steps.old }
    ensures rises { Rises (S.starts steps.old) (S.starts steps.new) (length (option_to_list put.now)) }
{
    match put {
        None => Ok(None),
        Some(value) => {
            let (piece, _next) = steps.step(state, value)?;
            Ok(Some(piece))
        }
    }
}
