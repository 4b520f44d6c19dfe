// What a run does next.
ghost use Rattle.std.specs.Prelude.{◌≡◌, IfOk};

use crate::frames::Scope;
use crate::items::Item;
use crate::steps::{Binder, Task};
use jq_ast::{Pattern, Tree};
use jv_data::{NoMemory, Val};
use std::alloc::Global;

/// What remains when a part of a pattern is matched: tasks, which are listed with the next one last, and what runs after them.
#[derive(Drop)]
pub struct Remaining<'p> {
    pub tasks: Vec<Task<'p>>,
    pub binder: Binder<'p>,
}

/// How a call of `halt` or `halt_error` ends the process.
#[derive(Drop)]
pub struct Exit {
    /// The status of the process.
    pub status: u8,
    /// The bytes for standard error.
    pub bytes: Vec<u8>,
}

impl Exit {
    fn copy(&self, alloc: Global) -> Result<Exit, NoMemory>
        ensures status { IfOk result (λ exit. exit.status ≡ self.now.status) }
        ensures bytes { IfOk result (λ exit. exit.bytes.items ≡ self.now.bytes.items) }
    {
        let mut bytes = Vec::new(alloc);
        bytes.extend_from_slice(&self.bytes)?;
        Ok(Exit {
            status: self.status,
            bytes,
        })
    }
}

/// Why a run ends in a way that no filter catches. A halt is boxed, so that what a run does next stays small.
#[derive(Drop)]
pub enum Stop {
    /// Too many calls were nested.
    Deep,
    /// A call of `halt` or `halt_error`.
    Halted(Box<Exit>),
}

impl Stop {
    ghost use Rattle.jq_state.specs.Nexts.{stop_of};

    /// An equal stop.
    pub fn copy(&self, alloc: Global) -> Result<Stop, NoMemory>
        ensures { IfOk result (λ s. stop_of s ≡ stop_of self.now) }
    {
        match self {
            Stop::Deep => Ok(Stop::Deep),
            Stop::Halted(exit) => Ok(Stop::Halted(Box::new(alloc, exit.copy(alloc)?)?)),
        }
    }
}

/// What is done next, with the frames and fork points of a state.
#[derive(Drop)]
pub enum Next<'p> {
    Evaluate(&'p Tree, Scope, Item),
    Give(Item),
    /// A pattern is matched with a value.
    Matching(&'p Pattern, Val, Box<Remaining<'p>>, Scope),
    /// A pattern is matched.
    Matched(Box<Remaining<'p>>, Scope),
    GoBack,
    Raise(Val),
    /// The label of this level ends.
    Leave(u32),
    /// The run ends.
    Quit(Stop),
}
