// The engine.
ghost use Rattle.jq_state.specs.Inputs.{inputs_of};
ghost use Rattle.jq_engine.specs.Readiness.{IsReady};

use crate::apart::NESTING;
use crate::doing::Doing;
use crate::guards::Guard;
use crate::running::{Reached, run};
use crate::turns::Turn;
use jq_ast::Tree;
use jq_meaning::machine::{heights_stay_in_range, the_machine_makes_the_run_of_a_filter};
use jq_starts::Start;
use jq_state::frames::Scope;
use jq_state::inputs::Inputs;
use jq_state::items::Item;
use jq_state::next::Next;
use jq_state::programs::ProgramBindings;
use jq_state::states::State;
use jq_transitions::Ending;
use jv_data::{NoMemory, Val};
use std::alloc::Global;
use std::mem::replace;

/// A run of a filter on an input. It stands for the outputs that are still to come.
pub struct Engine<'p> {
    alloc: Global,
    inputs: Inputs,
    state: State<'p>,
    doing: Doing<'p>,
    guard: Guard,
    ghost ready: { ∥ IsReady (inputs_of inputs) state doing ∥₁ },
}

// A `Drop` of its own, for the reason at `Val`.
impl Drop for Engine<'_> {
    fn drop(self) {
        let Engine {
            alloc: _alloc,
            inputs: _inputs,
            state: _state,
            doing: _doing,
            guard: _guard,
        } = self;
    }
}

impl<'p> Engine<'p> {
    ghost use Rattle.std.specs.Prelude.{◌≡◌, IfOk};
    ghost use Rattle.jv_data.specs.View.{view};
    ghost use Rattle.jq_meaning.specs.Runs as runs;
    ghost use Rattle.jq_meaning.specs.machine.Machine.{Produces};
    ghost use Rattle.jq_state.specs.Nexts.{stands};
    ghost use Rattle.jq_transitions.specs.Outcomes.{IsBare, ending_of};
    ghost use Rattle.jq_engine.specs.Engine.{HasEnded, IsFailed, IsRest, TellsEnd, Turns, program_run};
    ghost use Rattle.jq_engine.specs.Readiness.{CanGoOn};

    /// Starts the run of a filter's tree on an input, in the program's own bindings. At most `depth` calls may nest, and
    /// `inputs` returns these inputs. The `Start` is used up even if memory runs out.
    pub fn start(
        alloc: Global,
        _start: Start,
        tree: &'p Tree,
        program: &'p ProgramBindings,
        inputs: Inputs,
        input: Val,
        depth: u32,
    ) -> Result<Engine<'p>, NoMemory>
        ensures { IfOk result (λ e. IsRest e (program_run depth tree.now program.now (inputs_of inputs) (view input))) }
    {
        the_machine_makes_the_run_of_a_filter();
        heights_stay_in_range();
        let state = State::new(alloc, program)?;
        state.nodes().program_comes_first();
        let scope = Scope {
            env: state.nodes().count() - 1,
            depth,
            level: 0,
        };
        let next = Next::Evaluate(tree, scope, Item::plain(input));
        Ok(Engine {
            alloc,
            inputs,
            state,
            doing: Doing::Running(next),
            guard: Guard::new(),
        })
    }

    /// Goes on from a state, with what is done next there. Its environments and heights must exist. The `Start` is used up.
    pub fn from_state(
        alloc: Global,
        _start: Start,
        inputs: Inputs,
        state: State<'p>,
        next: Next<'p>,
    ) -> Engine<'p>
        requires { CanGoOn (inputs_of inputs) state next }
        ensures { (rest : runs.Run runs.Item) → Produces (stands (inputs_of inputs) state.entry next.entry) rest → IsRest result rest }
    {
        Engine {
            alloc,
            inputs,
            state,
            doing: Doing::Running(next),
            guard: Guard::new(),
        }
    }

    /// The next output of the run, or its ending if there is none; each later call returns the ending again. After an ending that has
    /// neither a value nor bytes no later call runs out of memory.
    pub fn next(&mut self) -> Turn
        ensures turns { (rest : runs.Run runs.Item) → IsRest self.old rest → Turns rest self.new result }
        ensures failed { IsFailed self.old → (result ≡ Turn.NoMemory) × IsFailed self.new }
        ensures ends { TellsEnd result → HasEnded self.new }
        ensures ended { HasEnded self.old → TellsEnd result }
    {
        match replace(&mut self.doing, Doing::Failed) {
            Doing::Running(next) => self.run_on(next),
            Doing::Ended(ending) => self.end(ending),
            Doing::Failed => Turn::NoMemory,
        }
    }

    // Runs up to the next output.
    fn run_on(&mut self, next: Next<'p>) -> Turn
        requires failed { IsFailed self.old }
        requires ready { ∥ CanGoOn (inputs_of self.old.inputs) self.old.state next ∥₁ }
        ensures turns { (rest : runs.Run runs.Item) → Produces (stands (inputs_of self.old.inputs) self.old.state next.entry) rest → Turns rest self.new result }
        ensures ends { TellsEnd result → HasEnded self.new }
    {
        match run(
            self.alloc,
            &mut self.state,
            next,
            &self.inputs,
            &mut self.guard,
            NESTING,
        ) {
            Ok(Reached::Output(item)) => {
                self.doing = Doing::Running(Next::GoBack);
                Turn::Output(item.value)
            }
            Ok(Reached::End(ending)) => self.end(ending),
            Err(NoMemory) => Turn::NoMemory,
        }
    }

    // Answers an ending, from now on.
    fn end(&mut self, ending: Ending) -> Turn
        requires { IsFailed self.old }
        ensures turns { Turns (runs.ended (ending_of ending)) self.new result }
        ensures ends { TellsEnd result → HasEnded self.new }
        ensures bare { IsBare (ending_of ending) → TellsEnd result }
    {
        match ending.copy(self.alloc) {
            Ok(copy) => {
                self.doing = Doing::Ended(ending);
                Turn::End(copy)
            }
            Err(NoMemory) => Turn::NoMemory,
        }
    }
}
