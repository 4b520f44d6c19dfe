// The line that is being read.
ghost use Rattle.std.specs.Prelude.{◌≡◌, ◌≤◌, ◌++◌, ℕ, List, [], OnOk, length, ◌==◌};
ghost use Rattle.jq_script.specs.Requests.{line_limit};

use crate::requests::{Instruction, Request, instruction_of};
use jv_data::NoMemory;
use std::alloc::Global;

// The most bytes of a line, its newline not counted.
const LIMIT: usize = 16_777_216;

/// The bytes of a line that were read, or that the line is over the limit.
#[derive(Drop)]
pub(crate) struct Line {
    kept: Vec<u8>,
    is_long: bool,
    ghost small: { length kept.items ≤ line_limit },
}

impl Line {
    ghost use Rattle.jq_script.specs.Requests.{instruction_of};
    ghost use Rattle.jq_script.specs.private.Reading.{instruction_in};
    ghost use Rattle.jq_script.specs.private.Lines.{HasRead};

    /// No bytes were read.
    pub(crate) fn new(alloc: Global) -> Line
        ensures { HasRead result [] }
    {
        Line {
            kept: Vec::new(alloc),
            is_long: false,
        }
    }

    /// Adds bytes of the line. No bytes are kept of a line over the limit.
    pub(crate) fn add(&mut self, bytes: &[u8]) -> Result<(), NoMemory>
        ensures { OnOk result ((line : List ℕ) → HasRead self.old line → HasRead self.new (line ++ bytes.now)) }
    {
        if self.is_long {
            return Ok(());
        }
        if bytes.len() > LIMIT - self.kept.len() {
            self.kept.clear();
            self.is_long = true;
            return Ok(());
        }
        self.kept.extend_from_slice(bytes)?;
        Ok(())
    }

    /// Whether no bytes were read.
    pub(crate) fn is_empty(&self) -> bool
        ensures { (line : List ℕ) → HasRead self.now line → result ≡ (length line == 0) }
    {
        !self.is_long && self.kept.is_empty()
    }

    /// The instruction of the line.
    pub(crate) fn instruction(&self) -> Instruction<'_>
        ensures { (line : List ℕ) → HasRead self.now line → instruction_in result ≡ instruction_of line }
    {
        if self.is_long {
            Instruction::Request(Request::Unknown)
        } else {
            instruction_of(&self.kept)
        }
    }

    /// Begins another line.
    pub(crate) fn clear(&mut self)
        ensures { HasRead self.new [] }
    {
        self.kept.clear();
        self.is_long = false;
    }
}
