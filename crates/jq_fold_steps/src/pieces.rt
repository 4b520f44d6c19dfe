// What a run writes, in a piece.
ghost use Rattle.std.specs.Prelude.{◌≡◌, ◌++◌, OnOk};
ghost use Rattle.jv_data.specs.View.{view};
ghost use Rattle.jv_text.specs.Printed.{printed};
ghost use Rattle.jq_natives.specs.Answers.{is_true};
ghost use Rattle.jq_transitions.specs.Outcomes.{ending_of};
ghost use Rattle.jq_pages.specs.Pieces.{piece_view};
ghost use Rattle.jq_filters.specs.Outcomes.{error_line, error_prefix, last_by};
ghost use Rattle.jq_filters.specs.Pieces.{last_in, no_piece};
ghost use Rattle.jq_fold_steps.specs.private.Collecting.{IsAdded, IsReported};

use jq_natives::truth;
use jq_pages::{Last, Piece};
use jq_state::next::Stop;
use jq_transitions::Ending;
use jv_data::{NoMemory, Val};
use jv_text::{Style, print};
use std::alloc::Global;

const RAW: Style = Style {
    compact: true,
    raw: true,
    join: false,
};

/// The piece of a run without outputs.
#[tactic(auto, unfolding(jq_pages::specs::Pieces::piece_view))]
pub(crate) fn empty_piece(alloc: Global) -> Piece
    ensures { piece_view result ≡ no_piece }
{
    Piece {
        out: Vec::new(alloc),
        err: Vec::new(alloc),
        last: Last::Nothing,
        failed: false,
        halt: None,
    }
}

/// Adds an output.
pub(crate) fn add_output(
    alloc: Global,
    piece: &mut Piece,
    value: &Val,
    style: Style,
) -> Result<(), NoMemory>
    ensures { OnOk result (IsAdded (printed style (view value.now)) (last_in (last_by (is_true (view value.now)))) piece.old piece.new) }
{
    print(alloc, value, style, &mut piece.out)?;
    piece.last = if truth(value) {
        Last::Truthy
    } else {
        Last::Falsy
    };
    Ok(())
}

/// Reports how the run of a piece ended.
pub(crate) fn report(alloc: Global, piece: &mut Piece, ending: &Ending) -> Result<(), NoMemory>
    ensures { OnOk result (IsReported (ending_of ending.now) piece.old piece.new) }
{
    match ending {
        Ending::Done => {}
        Ending::Raised(error) => {
            append_error_line(alloc, error, &mut piece.err)?;
            piece.failed = true;
        }
        Ending::Broken(_) => {}
        Ending::Stopped(Stop::Deep) => {
            piece
                .err
                .extend_from_slice(b"jq: error: call depth limit reached\n")?;
            piece.failed = true;
        }
        Ending::Stopped(Stop::Halted(exit)) => {
            piece.err.extend_from_slice(&exit.bytes)?;
            piece.halt = Some(exit.status);
        }
    }
    Ok(())
}

// Appends the line of an uncaught error.
fn append_error_line(alloc: Global, error: &Val, errors: &mut Vec<u8>) -> Result<(), NoMemory>
    ensures { OnOk result (errors.new.items ≡ errors.old.items ++ error_line (view error.now)) }
{
    errors.extend_from_slice(error_prefix(error))?;
    print(alloc, error, RAW, errors)?;
    Ok(())
}

fn error_prefix(error: &Val) -> &'static [u8]
    ensures { result.now ≡ error_prefix (view error.now) }
{
    match error {
        Val::Text(_) => b"jq: error: ",
        _ => b"jq: error (not a string): ",
    }
}
