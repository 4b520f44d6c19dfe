// The outputs of a run, in a piece.
ghost use Rattle.std.specs.Prelude.{◌≡◌, ◌++◌, List, IfOk, OnOk};
ghost use Rattle.jv_text.specs.declared.printing.Style.{Style as PrintStyle};
ghost use Rattle.jq_meaning.specs.Runs.{Run, Item};
ghost use Rattle.jq_transitions.specs.Outcomes.{ending_of};
ghost use Rattle.jq_engine.specs.Engine.{IsRest};
ghost use Rattle.jq_folds.specs.Pieces.{Stepped, with_state};
ghost use Rattle.jq_folds.specs.laws.States.{LeadsTo};
ghost use Rattle.jq_pages.specs.Pieces.{piece_view};
ghost use Rattle.jq_filters.specs.Pieces.{piece_of};
ghost use Rattle.jq_fold_steps.specs.private.Collecting.{EndsStep, IsHeld, IsKept, piece_so_far};

use crate::fold_steps::FoldState;
use crate::pieces::{add_output, empty_piece, report};
use jq_engine::{Engine, Turn};
use jq_pages::Piece;
use jq_transitions::Ending;
use jv_data::{NoMemory, Val};
use jv_text::Style;
use std::alloc::Global;

/// The piece of a run.
pub(crate) fn collect_all(
    alloc: Global,
    engine: &mut Engine<'_>,
    style: Style,
) -> Result<Piece, NoMemory>
    ensures { IfOk result (λ p. (r : Run Item) → IsRest engine.old r → piece_view p ≡ piece_of style r) }
{
    let mut piece = empty_piece(alloc);
    for _turn in 0..u64::MAX {
        match engine.next() {
            Turn::Output(value) => add_output(alloc, &mut piece, &value, style)?,
            Turn::End(ending) => {
                report(alloc, &mut piece, &ending)?;
                return Ok(piece);
            }
            Turn::NoMemory => return Err(NoMemory),
        }
    }
    // A run of 2^64 - 1 outputs or more counts as out of memory.
    Err(NoMemory)
}

/// The piece of a step and the state after it. Each output is held back until the next answer: the last one of a run that ends
/// with Done is the state.
pub(crate) fn collect_step(
    alloc: Global,
    engine: &mut Engine<'_>,
    style: Style,
) -> Result<(Piece, FoldState), NoMemory>
    ensures { IfOk result (λ r. (s : Stepped) → LeadsTo s.run.ending s.next → IsRest engine.old (with_state s) → IsKept style s r.0 r.1) }
{
    let mut piece = empty_piece(alloc);
    let mut held: Option<Val> = None;
    for _turn in 0..u64::MAX {
        match engine.next() {
            Turn::Output(value) => {
                add_held(alloc, &mut piece, held, style)?;
                held = Some(value);
            }
            Turn::End(ending) => return end_step(alloc, piece, held, ending, style),
            Turn::NoMemory => return Err(NoMemory),
        }
    }
    // A run of 2^64 - 1 outputs or more counts as out of memory.
    Err(NoMemory)
}

// Adds an output that was held back, if there is one.
fn add_held(
    alloc: Global,
    piece: &mut Piece,
    held: Option<Val>,
    style: Style,
) -> Result<(), NoMemory>
    ensures { OnOk result ((done xs : List Item) → piece_view piece.old ≡ piece_so_far style done → IsHeld held done xs → piece_view piece.new ≡ piece_so_far style (done ++ xs)) }
{
    if let Some(value) = held {
        add_output(alloc, piece, &value, style)?;
    }
    Ok(())
}

// Ends a step.
fn end_step(
    alloc: Global,
    piece: Piece,
    held: Option<Val>,
    ending: Ending,
    style: Style,
) -> Result<(Piece, FoldState), NoMemory>
    ensures { IfOk result (λ r. EndsStep style piece held (ending_of ending) r.0 r.1) }
{
    match held {
        Some(value) => end_with(alloc, piece, value, ending, style),
        None => end_without(alloc, piece, ending),
    }
}

// The output that was held back is the state if the run ended with Done.
fn end_with(
    alloc: Global,
    mut piece: Piece,
    value: Val,
    ending: Ending,
    style: Style,
) -> Result<(Piece, FoldState), NoMemory>
    ensures { IfOk result (λ r. EndsStep style piece (Some value) (ending_of ending) r.0 r.1) }
{
    if let Ending::Done = ending {
        return Ok((piece, FoldState::Going(value)));
    }
    add_output(alloc, &mut piece, &value, style)?;
    report(alloc, &mut piece, &ending)?;
    Ok((piece, FoldState::Stopped))
}

// No output was held back.
fn end_without(
    alloc: Global,
    mut piece: Piece,
    ending: Ending,
) -> Result<(Piece, FoldState), NoMemory>
    ensures { IfOk result (λ r. (style : PrintStyle) → EndsStep style piece None (ending_of ending) r.0 r.1) }
{
    report(alloc, &mut piece, &ending)?;
    Ok((piece, FoldState::Stopped))
}
