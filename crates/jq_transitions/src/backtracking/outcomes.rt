// What a transition comes to, and how a run ends.
ghost use Rattle.std.specs.Prelude.{◌≡◌, IfOk, IsOk};

use jq_state::items::Item;
use jq_state::next::{Next, Stop};
use jv_data::{NoMemory, Val};
use std::alloc::Global;

/// What one or more transitions come to.
#[derive(Drop)]
pub enum Progress<'p> {
    /// This is done next.
    Moves(Next<'p>),
    /// The item is an output; the run goes back next.
    Outputs(Item),
    /// The run ends.
    Finishes(Ending),
}

/// How a run ends.
#[derive(Drop)]
pub enum Ending {
    /// There are no more outputs.
    Done,
    /// An error that no `try` caught.
    Raised(Val),
    /// A break of the label of a level that is not around it. No accepted filter ends so.
    Broken(u32),
    /// Too many calls were nested, or the filter halted.
    Stopped(Stop),
}

impl Ending {
    ghost use Rattle.jq_transitions.specs.Outcomes.{IsBare, ending_of};

    /// An equal ending. It allocates only for the bytes of a halt. It fails also if the reference count of an error's value is at
    /// its maximum. An ending that has neither a value nor bytes is always copied.
    pub fn copy(&self, alloc: Global) -> Result<Ending, NoMemory>
        ensures same { IfOk result (λ e. ending_of e ≡ ending_of self.now) }
        ensures bare { IsBare (ending_of self.now) → IsOk result }
    {
        match self {
            Ending::Done => Ok(Ending::Done),
            Ending::Raised(error) => Ok(Ending::Raised(error.copy()?)),
            Ending::Broken(level) => Ok(Ending::Broken(*level)),
            Ending::Stopped(Stop::Deep) => Ok(Ending::Stopped(Stop::Deep)),
            Ending::Stopped(stop) => Ok(Ending::Stopped(stop.copy(alloc)?)),
        }
    }
}
