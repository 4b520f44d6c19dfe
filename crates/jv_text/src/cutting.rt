// The values of a stream of texts, fed in pieces of any size.
ghost use Rattle.std.specs.Prelude.{◌≡◌, ◌≤◌, ◌<◌, ◌+◌, ◌^◌, ◌++◌, ℕ, List, [], length, true, false, Some, None, Err, IfOk, IfNone, IsOk, OnOk, OnErr};
ghost use Rattle.jv_cut.specs.Finds.{IsFirst};
ghost use Rattle.jv_cut.specs.Text.{max_text};
ghost use Rattle.jv_data.specs.Value.{Value};
ghost use Rattle.jv_text.specs.Cutting.{HasGiven, is_finished};
ghost use Rattle.jv_text.specs.private.Met.{met_by};
ghost use Rattle.jv_text.specs.Stream.{stream};
ghost use Rattle.jv_text.specs.declared.cutting.Cutter.{Cutter as SpecCutter};

use crate::faults::{Fault, fault_at};
use crate::texts::read_at;
use crate::tokens::Buffers;
use jv_cut::Splitter;
use jv_data::{NoMemory, Val};
use std::alloc::Global;

/// Takes the bytes of a stream of JSON texts, in pieces of any size, and returns the values of its texts one after the
/// other.
#[derive(Drop)]
pub struct Cutter {
    alloc: Global,
    splitter: Splitter,
    fault: Option<Fault>,
    // The buffer that each text is read in, and the names of earlier objects.
    buffers: Buffers,
}

impl Cutter {
    ghost use Rattle.jv_text.specs.Cutting.{rest_of, fault_of, is_finished, fed_count, HasGiven, GivesNext};
    ghost use Rattle.jv_text.specs.declared.faults.Fault.{Fault as SpecFault};

    /// A cutter that was fed nothing yet.
    pub fn new(alloc: Global) -> Cutter
        ensures given { HasGiven result [] [] }
        ensures finished { is_finished result ≡ false }
        ensures fault { fault_of result ≡ None }
        ensures count { fed_count result ≡ 0 }
    {
        Cutter {
            alloc,
            splitter: Splitter::new(alloc),
            fault: None,
            buffers: Buffers::new(alloc),
        }
    }

    /// Takes the next bytes of the stream. After a fault it does nothing.
    pub fn feed(&mut self, piece: &[u8]) -> Result<(), NoMemory>
        requires open { is_finished self.old ≡ false }
        requires count { fed_count self.old + length piece.now < 2 ^ 64 }
        ensures given { OnOk result ((given : List Value) (fed : List ℕ) → HasGiven self.old given fed → HasGiven self.new given (fed ++ piece.now)) }
        ensures finished { is_finished self.new ≡ false }
        ensures fault { fault_of self.new ≡ fault_of self.old }
        ensures count { fed_count self.new ≤ fed_count self.old + length piece.now }
        ensures faulted { (fault : SpecFault) → fault_of self.old ≡ Some fault → IsOk result × (self.new ≡ self.old) }
        ensures err { OnErr result (self.new ≡ self.old) }
    {
        if self.fault.is_some() {
            return Ok(());
        }
        self.splitter.feed(piece)?;
        Ok(())
    }

    /// Says that no more bytes follow.
    pub fn finish(&mut self)
        ensures given { (given : List Value) (fed : List ℕ) → HasGiven self.old given fed → HasGiven self.new given fed }
        ensures finished { is_finished self.new ≡ true }
        ensures fault { fault_of self.new ≡ fault_of self.old }
    {
        self.splitter.finish();
    }

    /// The value of the next text. None before `finish` means that more bytes are needed, and after it that the stream is
    /// done. After a fault other than out of memory every call returns that fault. After out of memory the same values
    /// remain.
    pub fn next(&mut self) -> Result<Option<Val>, Fault>
        ensures next { (given : List Value) (fed : List ℕ) → HasGiven self.old given fed → GivesNext result self.new given fed }
        ensures faulted { (fault : SpecFault) → fault_of self.old ≡ Some fault → result ≡ Err fault }
        ensures held { IfOk result (λ found. IfNone found (length (rest_of self.new).unread ≤ max_text)) }
        ensures finished { is_finished self.new ≡ is_finished self.old }
        ensures count { fed_count self.new ≡ fed_count self.old }
    {
        if let Some(fault) = self.fault {
            return Err(fault);
        }
        match self.splitter.find() {
            Ok(None) => Ok(None),
            Ok(Some(len)) => self.read_first(len),
            Err(cut_fault) => {
                let fault = fault_at(cut_fault, self.splitter.place());
                self.fault = Some(fault);
                Err(fault)
            }
        }
    }

    // Reads the first text, which has this length, and takes it.
    fn read_first(&mut self, len: usize) -> Result<Option<Val>, Fault>
        requires first { IsFirst (rest_of self.old) len }
        requires fault { fault_of self.old ≡ None }
        ensures next { (given : List Value) (fed : List ℕ) → HasGiven self.old given fed → GivesNext result self.new given fed }
        ensures held { IfOk result (λ found. IfNone found (length (rest_of self.new).unread ≤ max_text)) }
        ensures finished { is_finished self.new ≡ is_finished self.old }
        ensures count { fed_count self.new ≡ fed_count self.old }
    {
        match read_at(
            self.alloc,
            self.splitter.text(len),
            self.splitter.place(),
            &mut self.buffers,
        ) {
            Ok(value) => {
                self.splitter.take(len);
                Ok(Some(value))
            }
            Err(fault) => {
                self.fault = met_by(fault);
                Err(fault)
            }
        }
    }
}

/// The law of `HasGiven`: the values that a cutter returned are the first values of the stream that it was fed.
pub fn given_values_come_first()
    ensures { (cutter : SpecCutter) (given : List Value) (fed : List ℕ) → HasGiven cutter given fed → (rest : List Value) × ((stream (is_finished cutter) fed).values ≡ given ++ rest) }
{}

// The fault that the cutter keeps: out of memory is not kept, every other fault is.
fn met_by(fault: Fault) -> Option<Fault>
    ensures { result ≡ met_by fault }
{
    match fault {
        Fault::NoMemory => None,
        _ => Some(fault),
    }
}
