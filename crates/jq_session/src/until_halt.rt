// A filter on each input up to the first whose run halts.
ghost use Rattle.std.specs.Prelude.{◌≡◌, Bool};
ghost use Rattle.jq_starts.specs.Starts.{starts_in};
ghost use Rattle.jq_filters.specs.Filters.{filter_job};
ghost use Rattle.jq_session.specs.Halting.{halting_fold};

use crate::each::{no_piece, run_input};
use jq_filters::Filter;
use jq_pages::{Piece, Steps};
use jq_starts::Starts;
use jv_data::{NoMemory, Val};
use std::alloc::Global;
use std::rc::Rc;

/// The runs of a filter on each input, as the steps of a fold whose state says whether one of them halted. It owns the count of its
/// starts.
#[derive(Drop)]
pub(crate) struct UntilHalt {
    pub(crate) alloc: Global,
    pub(crate) filter: Rc<Filter>,
    pub(crate) starts: Starts,
}

impl Steps for UntilHalt {
    type State = bool;

    ghost Seen = { Bool };

    ghost seen = { λ halted. halted };

    ghost fold = { λ u. halting_fold (filter_job u.filter.value) };

    ghost starts = { λ u. starts_in u.starts };

    fn plain(&self) -> bool {
        false
    }

    fn count(&self) -> u64 {
        self.starts.count()
    }

    fn begin(&mut self) -> Result<(Piece, bool), NoMemory> {
        Ok((no_piece(self.alloc), false))
    }

    fn step(&mut self, halted: &bool, input: &Val) -> Result<(Piece, bool), NoMemory> {
        if *halted {
            return Ok((no_piece(self.alloc), true));
        }
        let piece = run_input(self.alloc, &self.filter, &mut self.starts, input)?;
        let halts = piece.halt.is_some();
        Ok((piece, halts))
    }

    fn close(&mut self, _halted: &bool) -> Result<Piece, NoMemory> {
        Ok(no_piece(self.alloc))
    }

    fn meets(&self, one: &bool, other: &bool) -> bool {
        *one == *other
    }

    fn copy(&self, halted: &bool) -> Result<bool, NoMemory> {
        Ok(*halted)
    }
}
