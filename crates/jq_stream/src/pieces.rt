// What one run writes, as a piece of a session's output.
ghost use Rattle.std.specs.Prelude.{◌≡◌, IfOk};
ghost use Rattle.jv_data.specs.View.{view};
ghost use Rattle.jq_engine.specs.Engine.{IsRest};
ghost use Rattle.jq_meaning.specs.Runs.{Run, Item, none};
ghost use Rattle.jq_pages.specs.Pieces.{piece_view};
ghost use Rattle.jq_starts.specs.Starts.{HasStarted};
ghost use Rattle.jq_filters.specs.Pieces.{piece_of};
ghost use Rattle.jq_filters.specs.Running.{run_on};

use crate::answers::OutputBuffers;
use crate::streams::Outputs;
use jq_devices::StreamFault;
use jq_engine::Engine;
use jq_filters::{Runner, no_inputs};
use jq_pages::Piece;
use jq_starts::Starts;
use jv_data::{NoMemory, Val};
use jv_text::Style;
use std::alloc::Global;

/// Runs a filter on an input, where `inputs` returns nothing, and keeps what the run writes.
pub fn run_piece(
    alloc: Global,
    runner: &Runner<'_>,
    style: Style,
    starts: &mut Starts,
    value: Val,
) -> Result<Piece, NoMemory>
    ensures piece { IfOk result (λ p. piece_view p ≡ piece_of style (run_on runner.now none (view value))) }
    ensures started { HasStarted 1 starts.old starts.new }
{
    let engine = runner.start(alloc, starts, no_inputs(alloc), value)?;
    // A write to a vector fails only if memory runs out.
    piece_of_run(alloc, engine, style).map_err(|_| NoMemory)
}

// What a run writes.
fn piece_of_run(alloc: Global, run: Engine<'_>, style: Style) -> Result<Piece, StreamFault>
    ensures { IfOk result (λ p. (r : Run Item) → IsRest run.entry r → piece_view p ≡ piece_of style r) }
{
    let mut outputs = Outputs::new(Vec::new(alloc), Vec::new(alloc));
    let mut answers = OutputBuffers::new(alloc);
    let halt = answers.run(alloc, run, style, &mut outputs)?;
    answers.write_buffers(&mut outputs)?;
    let (out, err) = outputs.into_devices();
    Ok(Piece {
        out,
        err,
        last: answers.last,
        failed: answers.failed,
        halt,
    })
}
