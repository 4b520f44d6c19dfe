// A filter that runs on values.
ghost use Rattle.std.specs.Prelude.{◌≡◌, IfOk};
ghost use Rattle.jv_data.specs.View.{view};
ghost use Rattle.jq_engine.specs.Engine.{IsRest};
ghost use Rattle.jq_starts.specs.Starts.{HasStarted};
ghost use Rattle.jq_meaning.specs.Runs.{none};
ghost use Rattle.jq_state.specs.Inputs.{inputs_of};
ghost use Rattle.jq_filters.specs.Running.{run_on};

use jq_ast::Tree;
use jq_engine::Engine;
use jq_starts::Starts;
use jq_state::inputs::Inputs;
use jq_state::programs::ProgramBindings;
use jv_data::{NoMemory, Val};
use std::alloc::Global;

/// A filter's tree, the bindings around it from the outermost to the innermost, and how deep calls may nest.
#[derive(Clone, Copy)]
pub struct Runner<'p> {
    pub tree: &'p Tree,
    pub bindings: &'p ProgramBindings,
    pub depth: u32,
}

impl<'p> Runner<'p> {
    /// Starts the run on a value, where `inputs` returns these inputs.
    pub fn start(
        &self,
        alloc: Global,
        starts: &mut Starts,
        inputs: Inputs,
        value: Val,
    ) -> Result<Engine<'p>, NoMemory>
        ensures run { IfOk result (λ e. IsRest e (run_on self.now (inputs_of inputs) (view value))) }
        ensures started { HasStarted 1 starts.old starts.new }
    {
        Engine::start(
            alloc,
            starts.started(),
            self.tree,
            self.bindings,
            inputs,
            value,
            self.depth,
        )
    }
}

/// The inputs where none remain.
pub fn no_inputs(alloc: Global) -> Inputs
    ensures { inputs_of result ≡ none }
{
    Inputs {
        values: Vec::new(alloc),
        fault: None,
    }
}
