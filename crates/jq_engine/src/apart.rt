// Runs apart from the run that needs their outputs: each in a state of its own, over a copy of the environments.
ghost use Rattle.std.specs.Prelude.{◌<◌, IfOk, IfSome};
ghost use Rattle.jv_data.specs.View.{view};
ghost use Rattle.jq_ast.specs.Named.{named};
ghost use Rattle.jq_state.specs.Environments.{count_of};
ghost use Rattle.jq_engine.specs.private.Updates.{BeginsWith, HasPaths, StartsRuns, path_run, run_in};

use crate::guards::Guard;
use crate::running::{Reached, run};
use jq_ast::Tree;
use jq_meaning::machine::{heights_stay_in_range, the_machine_makes_the_run_of_a_filter};
use jq_state::frames::Scope;
use jq_state::inputs::Inputs;
use jq_state::items::Item;
use jq_state::next::Next;
use jq_state::states::State;
use jq_transitions::Ending;
use jv_data::{NoMemory, Val};
use std::alloc::Global;

// The most paths that are kept in a list.
const PATHS: u32 = 1_048_576;

/// How deep such runs may nest in one another: each needs native stack.
pub(crate) const NESTING: u8 = 4;

/// A run's state and inputs, and how deep runs apart from it may nest.
#[derive(Clone, Copy)]
pub(crate) struct Around<'a, 'p> {
    pub(crate) alloc: Global,
    pub(crate) state: &'a State<'p>,
    pub(crate) inputs: &'a Inputs,
    pub(crate) nesting: u8,
}

/// The paths of a filter into a value, and how the filter ended.
#[derive(Drop)]
pub(crate) struct Found {
    pub(crate) paths: Vec<Val>,
    pub(crate) ending: Ending,
}

impl<'a, 'p> Around<'a, 'p> {
    // A state for a run apart, with no frame and no fork point.
    fn state_apart(&self) -> Result<State<'p>, NoMemory>
        ensures { IfOk result (StartsRuns self.now) }
    {
        the_machine_makes_the_run_of_a_filter();
        heights_stay_in_range();
        let nodes = self.state.nodes().copy(self.alloc)?;
        Ok(State::over(self.alloc, nodes))
    }

    /// The first output of a filter on a value, or its ending if it has none.
    #[cycle(running)]
    pub(crate) fn first_output(
        &self,
        tree: &'p Tree,
        scope: Scope,
        value: Val,
        guard: &mut Guard,
    ) -> Result<Reached, NoMemory>
        requires env { scope.env < count_of self.now.state.now.nodes }
        requires nesting { 0 < self.now.nesting }
        ensures { IfOk result (BeginsWith (run_in self.now (named tree.now) scope (view value))) }
    {
        let mut apart = self.state_apart()?;
        let next = Next::Evaluate(tree, scope, Item::plain(value));
        let nesting = self.nesting - 1;
        run(self.alloc, &mut apart, next, self.inputs, guard, nesting)
    }

    /// All paths of a filter into a value, in a run apart, unless there are very many.
    #[cycle(running)]
    pub(crate) fn paths_apart(
        &self,
        tree: &'p Tree,
        scope: Scope,
        value: &Val,
        guard: &mut Guard,
    ) -> Result<Option<Found>, NoMemory>
        requires env { scope.env < count_of self.now.state.now.nodes }
        requires nesting { 0 < self.now.nesting }
        ensures { IfOk result (λ o. IfSome o (HasPaths (path_run self.now (named tree.now) scope (view value.now)))) }
    {
        let mut apart = self.state_apart()?;
        let mut next = Next::Evaluate(tree, scope, Item::start(value.copy()?));
        let nesting = self.nesting - 1;
        let mut paths = Vec::new(self.alloc);
        'paths: for _ in 0..PATHS {
            match run(self.alloc, &mut apart, next, self.inputs, guard, nesting)? {
                Reached::Output(item) => paths.push(item.into_path(self.alloc)?)?,
                Reached::End(ending) => return Ok(Some(Found { paths, ending })),
            }
            next = Next::GoBack;
        }
        Ok(None)
    }
}
