// The steps of a fold over the inputs.
ghost use Rattle.std.specs.Prelude.{◌≡◌, true, IsTrue, ◌↔◌, IfOk};
ghost use Rattle.jq_ast.specs.Named.{named};
ghost use Rattle.jq_folds.specs.Folding.{fold_in};
ghost use Rattle.jq_folds.specs.Pieces as folds;
ghost use Rattle.jq_fold_steps.specs.Bindings.{env_of};
ghost use Rattle.jq_fold_steps.specs.Folded.{starts_once};
ghost use Rattle.jq_starts.specs.Starts.{starts_in};

use crate::making::{first_piece, last_piece, next_piece};
use crate::pieces::empty_piece;
use jq_filters::Filter;
use jq_pages::{Piece, Steps};
use jq_starts::Starts;
use jv_data::{NoMemory, Val, same};
use std::alloc::Global;
use std::rc::Rc;

/// The state of a fold between two inputs.
#[derive(Drop)]
pub enum FoldState {
    Going(Val),
    /// A run ended in an error, nested calls too deep, or halted. Nothing is run from here.
    Stopped,
}

/// The steps of a filter that folds its inputs: `reduce inputs as P (f; g)` or a `foreach` of that form, alone or piped into a
/// filter, after any definitions (manual of jq 1.7, "reduce", "foreach", "inputs").
#[derive(Drop)]
pub struct FoldSteps {
    alloc: Global,
    filter: Rc<Filter>,
    starts: Starts,
    ghost start: { starts_once (fold_in (named filter.value.tree.value) (env_of filter.value.bindings)) ≡ true },
}

impl FoldSteps {
    ghost use Rattle.jq_inputs.specs.Plans.{view_of};
    ghost use Rattle.jq_tree.specs.Filter as filter_plan;
    ghost use Rattle.jq_fold_steps.specs.Filters.{filter_fold};
    ghost use Rattle.jq_fold_steps.specs.States.{fold_in_steps};

    /// The steps of a compiled filter, which must have the plan of a fold. They count their starts.
    pub fn new(alloc: Global, starts: Starts, filter: Rc<Filter>) -> FoldSteps
        requires { view_of filter.value.plan ≡ filter_plan.fold }
        ensures fold { fold_in_steps result ≡ filter_fold filter.value }
        ensures starts { result.starts ≡ starts }
    {
        FoldSteps {
            alloc,
            filter,
            starts,
        }
    }

    /// The count of starts.
    pub fn into_starts(self) -> Starts
        ensures { result ≡ self.starts }
    {
        let FoldSteps {
            alloc: _alloc,
            filter: _filter,
            starts,
        } = self;
        starts
    }
}

impl Steps for FoldSteps {
    ghost use Rattle.jq_fold_steps.specs.States.{fold_in_steps, state_in};

    type State = FoldState;

    ghost Seen = { folds.FoldState };

    ghost seen = { state_in };

    ghost fold = { fold_in_steps };

    ghost starts = { λ s. starts_in s.starts };

    fn plain(&self) -> bool {
        false
    }

    fn count(&self) -> u64 {
        self.starts.count()
    }

    fn begin(&mut self) -> Result<(Piece, FoldState), NoMemory> {
        first_piece(self.alloc, &self.filter, &mut self.starts)
    }

    fn step(&mut self, state: &FoldState, input: &Val) -> Result<(Piece, FoldState), NoMemory> {
        let FoldState::Going(last) = state else {
            return Ok((empty_piece(self.alloc), FoldState::Stopped));
        };
        let last = last.copy()?;
        let input = input.copy()?;
        next_piece(self.alloc, &self.filter, &mut self.starts, last, input)
    }

    fn close(&mut self, state: &FoldState) -> Result<Piece, NoMemory> {
        let FoldState::Going(last) = state else {
            return Ok(empty_piece(self.alloc));
        };
        let last = last.copy()?;
        last_piece(self.alloc, &self.filter, &mut self.starts, last)
    }

    fn meets(&self, one: &FoldState, other: &FoldState) -> bool {
        match (one, other) {
            (FoldState::Going(one), FoldState::Going(other)) => same(one, other),
            (FoldState::Stopped, FoldState::Stopped) => true,
            _ => false,
        }
    }

    fn copy(&self, state: &FoldState) -> Result<FoldState, NoMemory> {
        match state {
            FoldState::Going(last) => Ok(FoldState::Going(last.copy()?)),
            FoldState::Stopped => Ok(FoldState::Stopped),
        }
    }
}
