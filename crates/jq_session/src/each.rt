// A filter on each input by itself, none of whose runs halts.
ghost use Rattle.std.specs.Prelude.{◌≡◌, IfOk};
ghost use Rattle.jv_data.specs.View.{view};
ghost use Rattle.jq_meaning.specs.Runs.{none};
ghost use Rattle.jq_pages.specs.Folds.{Rises};
ghost use Rattle.jq_pages.specs.Pieces.{piece_view};
ghost use Rattle.jq_starts.specs.Starts.{starts_in};
ghost use Rattle.jq_filters.specs.Filters.{filter_job};
ghost use Rattle.jq_filters.specs.Pieces.{each_fold, no_piece, piece_of};

use jq_filters::Filter;
use jq_pages::{Last, Piece, Steps};
use jq_starts::Starts;
use jq_stream::run_piece;
use jv_data::{NoMemory, Val};
use std::alloc::Global;
use std::rc::Rc;

/// The runs of a filter on each input, as the steps of a fold whose states are all equal. It owns the count of its starts.
#[derive(Drop)]
pub(crate) struct EachInput {
    pub(crate) alloc: Global,
    pub(crate) filter: Rc<Filter>,
    pub(crate) starts: Starts,
}

impl Steps for EachInput {
    type State = ();

    ghost Seen = { Unit {0} };

    ghost seen = { λ _. tt };

    ghost fold = { λ e. each_fold (filter_job e.filter.value) };

    ghost starts = { λ e. starts_in e.starts };

    fn plain(&self) -> bool {
        true
    }

    fn count(&self) -> u64 {
        self.starts.count()
    }

    fn begin(&mut self) -> Result<(Piece, ()), NoMemory> {
        Ok((no_piece(self.alloc), ()))
    }

    fn step(&mut self, _state: &(), input: &Val) -> Result<(Piece, ()), NoMemory> {
        let piece = run_input(self.alloc, &self.filter, &mut self.starts, input)?;
        Ok((piece, ()))
    }

    fn close(&mut self, _state: &()) -> Result<Piece, NoMemory> {
        Ok(no_piece(self.alloc))
    }

    fn meets(&self, _one: &(), _other: &()) -> bool {
        true
    }

    fn copy(&self, _state: &()) -> Result<(), NoMemory> {
        Ok(())
    }
}

/// What the run of a filter on an input writes.
pub(crate) fn run_input(
    alloc: Global,
    filter: &Filter,
    starts: &mut Starts,
    input: &Val,
) -> Result<Piece, NoMemory>
    ensures piece { IfOk result (λ p. piece_view p ≡ piece_of (filter_job filter.now).style ((filter_job filter.now).run none (view input.now))) }
    ensures rises { Rises (starts_in starts.old) (starts_in starts.new) 1 }
{
    let value = input.copy()?;
    let style = filter.settings().style;
    let runner = filter.runner();
    let piece = run_piece(alloc, &runner, style, starts, value)?;
    Ok(piece)
}

/// The piece of a step that writes nothing.
#[tactic(auto, unfolding(jq_pages::specs::Pieces::piece_view))]
pub(crate) fn no_piece(alloc: Global) -> Piece
    ensures { piece_view result ≡ no_piece }
{
    Piece {
        out: Vec::new(alloc),
        err: Vec::new(alloc),
        last: Last::Nothing,
        failed: false,
        halt: None,
    }
}
