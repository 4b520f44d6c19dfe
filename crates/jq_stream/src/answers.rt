// The outputs of a filter's runs, one after the other.
ghost use Rattle.std.specs.Prelude.{◌≡◌, ◌≢◌, ◌++◌, ◌∷◌, ◌||◌, [], true, IfErr, IfOk, OnOk, OnErr};
ghost use Rattle.jv_data.specs.View.{view};
ghost use Rattle.jv_text.specs.Printed.{printed};
ghost use Rattle.jq_natives.specs.Answers.{is_true};
ghost use Rattle.jq_meaning.specs.Runs.{Run, Item, Stopped};
ghost use Rattle.jq_state.specs.Nexts.{stop_of};
ghost use Rattle.jq_transitions.specs.Outcomes.{ending_of};
ghost use Rattle.jq_engine.specs.Engine.{IsRest};
ghost use Rattle.jq_starts.specs.Starts.{HasStarted};
ghost use Rattle.jq_devices.specs.declared.faults.StreamFault.TheVariants.{Read as ReadFault, Write as WriteFault};
ghost use Rattle.jq_filters.specs.Outcomes.{error_line, error_prefix, end_status, ending_report, first_halt, halt_status, is_failure, last_by, stop_report};
ghost use Rattle.jq_filters.specs.Pieces.{last_of};
ghost use Rattle.jq_filters.specs.Runner.{job_of};
ghost use Rattle.jq_stream.specs.private.Blaming.{IsWriteBlamed, NoneFell};
ghost use Rattle.jq_stream.specs.private.Cutting.{IsCutting};

use crate::reports::note_input;
use crate::streams::Outputs;
use jq_devices::{StreamFault, Write, write};
use jq_engine::{Engine, Turn};
use jq_filters::{Runner, Settings, no_inputs};
use jq_natives::truth;
use jq_pages::Last;
use jq_starts::Starts;
use jq_state::next::Stop;
use jq_transitions::Ending;
use jv_data::{NoMemory, Val};
use jv_text::{Cutter, Fault, Printer, Style, print};
use std::alloc::Global;

const RAW: Style = Style {
    compact: true,
    raw: true,
    join: false,
};

// If one of the buffers has more bytes than this, both are written.
const WAITING: usize = 65_536;

// What `--exit-status` needs of an output.
fn last_of(value: &Val) -> Last
    ensures { last_of result ≡ last_by (is_true (view value.now)) }
{
    if truth(value) {
        Last::Truthy
    } else {
        Last::Falsy
    }
}

/// Up to where the values of a stream were answered.
#[derive(Drop)]
pub(crate) enum Reached {
    /// All that are complete so far.
    All,
    /// A faulty text.
    Fault(Fault),
    /// A run that halts, with this status.
    Halt(u8),
}

/// What runs printed and reported and was not written yet, whether one of them ended in an error or
/// nested calls too deep, and their last output.
#[derive(Drop)]
pub(crate) struct OutputBuffers {
    printed: Vec<u8>,
    reported: Vec<u8>,
    pub(crate) failed: bool,
    pub(crate) last: Last,
    // How many runs failed, and how many inputs were answered.
    failures: u64,
    inputs: u64,
}

impl OutputBuffers {
    ghost use Rattle.jq_stream.specs.private.Answering.{IsAnsweredBy, IsAnsweredFirstBy, IsRestAnswered, IsRestAnsweredFirst, IsPrinted, IsPrintedFirst, IsPiecePrinted, HasEmptyBuffers, IsFresh, IsWritten, IsWrittenFirst, IsEmptied, runs_on};
    ghost use Rattle.jq_stream.specs.private.Ready.{AnswersUpTo, AnswersFirst, WritesFirstReady, IsFedAlike};

    /// No run was made.
    pub(crate) fn new(alloc: Global) -> OutputBuffers
        ensures empty { HasEmptyBuffers result }
        ensures fresh { IsFresh result }
    {
        OutputBuffers {
            printed: Vec::new(alloc),
            reported: Vec::new(alloc),
            failed: false,
            last: Last::Nothing,
            failures: 0,
            inputs: 0,
        }
    }

    /// Runs the filter on every value that is complete so far, up to a faulty text or a run that halts, and writes the results. If
    /// memory runs out, the results up to then are written nevertheless. Notes on runs that fail name the file, which their texts
    /// end in.
    pub(crate) fn answer_ready<O: Write, E: Write>(
        &mut self,
        alloc: Global,
        runner: &Runner<'_>,
        settings: Settings,
        starts: &mut Starts,
        cutter: &mut Cutter,
        file: Option<&str>,
        outputs: &mut Outputs<O, E>,
    ) -> Result<Reached, StreamFault>
        requires stream { IsCutting cutter.old }
        requires empty { HasEmptyBuffers self.old }
        ensures answered { IfOk result (λ up_to. AnswersUpTo up_to settings runner.now cutter.old cutter.new self.old self.new outputs.old.bytes outputs.new.bytes) }
        ensures unfailed { OnOk result (outputs.new.failures ≡ outputs.old.failures) }
        ensures blamed { IfErr result (λ fault. IsWriteBlamed fault outputs.old.failures outputs.new.failures) }
        ensures stopped { OnErr result (WritesFirstReady settings runner.now cutter.old cutter.new outputs.old.bytes outputs.new.bytes) }
        ensures empty { HasEmptyBuffers self.new }
        ensures unfed { IsFedAlike cutter.old cutter.new }
    {
        let reached = self.answer_all(alloc, runner, settings, starts, cutter, file, outputs);
        self.write_buffers(outputs)?;
        reached
    }

    // Runs the filter on every value that is complete so far, up to a faulty text or a run that halts.
    fn answer_all<O: Write, E: Write>(
        &mut self,
        alloc: Global,
        runner: &Runner<'_>,
        settings: Settings,
        starts: &mut Starts,
        cutter: &mut Cutter,
        file: Option<&str>,
        outputs: &mut Outputs<O, E>,
    ) -> Result<Reached, StreamFault>
        requires { IsCutting cutter.old }
        ensures answered { IfOk result (λ up_to. AnswersUpTo up_to settings runner.now cutter.old cutter.new self.old self.new outputs.old.bytes outputs.new.bytes) }
        ensures unfailed { OnOk result (outputs.new.failures ≡ outputs.old.failures) }
        ensures blamed { IfErr result (λ fault. IsWriteBlamed fault outputs.old.failures outputs.new.failures) }
        ensures fault { IfErr result (λ fault. fault ≢ ReadFault) }
        ensures stopped { OnErr result (AnswersFirst settings runner.now cutter.old cutter.new self.old self.new outputs.old.bytes outputs.new.bytes) }
        ensures unfed { IsFedAlike cutter.old cutter.new }
    {
        loop {
            match cutter.next() {
                Ok(Some(value)) => {
                    let halt = self.answer_noted(
                        alloc, runner, settings, starts, value, file, outputs,
                    )?;
                    if let Some(status) = halt {
                        return Ok(Reached::Halt(status));
                    }
                }
                Ok(None) => return Ok(Reached::All),
                Err(Fault::NoMemory) => return Err(StreamFault::NoMemory),
                Err(fault) => return Ok(Reached::Fault(fault)),
            }
        }
    }

    // Answers a value. If the run fails and the errors take notes, its line is written, and then a note on its input.
    fn answer_noted<O: Write, E: Write>(
        &mut self,
        alloc: Global,
        runner: &Runner<'_>,
        settings: Settings,
        starts: &mut Starts,
        value: Val,
        file: Option<&str>,
        outputs: &mut Outputs<O, E>,
    ) -> Result<Option<u8>, StreamFault>
        ensures halt { IfOk result (λ halt. halt ≡ first_halt (runs_on (job_of settings runner.now) (view value ∷ []))) }
        ensures ok { OnOk result (IsAnsweredBy settings runner.now (view value ∷ []) self.old self.new outputs.old.bytes outputs.new.bytes) }
        ensures err { OnErr result (IsAnsweredFirstBy settings runner.now (view value ∷ []) self.old self.new outputs.old.bytes outputs.new.bytes) }
        ensures unfailed { OnOk result (outputs.new.failures ≡ outputs.old.failures) }
        ensures blamed { IfErr result (λ fault. IsWriteBlamed fault outputs.old.failures outputs.new.failures) }
        ensures fault { IfErr result (λ fault. fault ≢ ReadFault) }
    {
        let failures = self.failures;
        let halt = self.answer(alloc, runner, settings, starts, value, outputs)?;
        let has_failed = self.failures != failures;
        self.end_input(alloc, has_failed, file, outputs)?;
        Ok(halt)
    }

    // Counts an input. If its run failed and the errors take notes, the buffers are written, and then a note.
    fn end_input<O: Write, E: Write>(
        &mut self,
        alloc: Global,
        has_failed: bool,
        file: Option<&str>,
        outputs: &mut Outputs<O, E>,
    ) -> Result<(), StreamFault>
        ensures ok { OnOk result (IsPrinted [] self.old self.new outputs.old.bytes outputs.new.bytes) }
        ensures last { self.new.last ≡ self.old.last }
        ensures err { OnErr result (IsPrintedFirst [] self.old self.new outputs.old.bytes outputs.new.bytes) }
        ensures unfailed { OnOk result (outputs.new.failures ≡ outputs.old.failures) }
        ensures blamed { IfErr result (λ fault. IsWriteBlamed fault outputs.old.failures outputs.new.failures) }
        ensures fault { IfErr result (λ fault. fault ≢ ReadFault) }
    {
        let number = self.inputs;
        self.inputs = number.saturating_add(1);
        if !has_failed || !outputs.errors.takes_notes() {
            return Ok(());
        }
        self.write_buffers(outputs)?;
        note_input(alloc, number, file, &mut outputs.errors)
    }

    /// Runs the filter on a value, where `inputs` returns nothing, and returns the status if the run halts.
    pub(crate) fn answer<O: Write, E: Write>(
        &mut self,
        alloc: Global,
        runner: &Runner<'_>,
        settings: Settings,
        starts: &mut Starts,
        value: Val,
        outputs: &mut Outputs<O, E>,
    ) -> Result<Option<u8>, StreamFault>
        ensures halt { IfOk result (λ halt. halt ≡ first_halt (runs_on (job_of settings runner.now) (view value ∷ []))) }
        ensures ok { OnOk result (IsAnsweredBy settings runner.now (view value ∷ []) self.old self.new outputs.old.bytes outputs.new.bytes) }
        ensures err { OnErr result (IsAnsweredFirstBy settings runner.now (view value ∷ []) self.old self.new outputs.old.bytes outputs.new.bytes) }
        ensures unfailed { OnOk result (outputs.new.failures ≡ outputs.old.failures) }
        ensures blamed { IfErr result (λ fault. IsWriteBlamed fault outputs.old.failures outputs.new.failures) }
        ensures fault { IfErr result (λ fault. fault ≢ ReadFault) }
        ensures started { HasStarted 1 starts.old starts.new }
    {
        let engine = runner.start(alloc, starts, no_inputs(alloc), value)?;
        self.run(alloc, engine, settings.style, outputs)
    }

    /// Prints the outputs of a run, reports how it ends, and returns the status if it halts.
    pub(crate) fn run<O: Write, E: Write>(
        &mut self,
        alloc: Global,
        run: Engine<'_>,
        style: Style,
        outputs: &mut Outputs<O, E>,
    ) -> Result<Option<u8>, StreamFault>
        ensures halt { IfOk result (λ halt. (r : Run Item) → IsRest run.entry r → halt ≡ first_halt (r ∷ [])) }
        ensures ok { OnOk result (IsRestAnswered style run.entry self.old self.new outputs.old.bytes outputs.new.bytes) }
        ensures err { OnErr result (IsRestAnsweredFirst style run.entry self.old self.new outputs.old.bytes outputs.new.bytes) }
        ensures unfailed { OnOk result (outputs.new.failures ≡ outputs.old.failures) }
        ensures blamed { IfErr result (λ fault. IsWriteBlamed fault outputs.old.failures outputs.new.failures) }
        ensures fault { IfErr result (λ fault. fault ≢ ReadFault) }
    {
        let mut engine = run;
        self.run_engine(alloc, &mut engine, style, outputs)
    }

    // Prints the remaining outputs of an engine, reports how its run ends, and returns the status if it halts.
    fn run_engine<O: Write, E: Write>(
        &mut self,
        alloc: Global,
        engine: &mut Engine<'_>,
        style: Style,
        outputs: &mut Outputs<O, E>,
    ) -> Result<Option<u8>, StreamFault>
        ensures halt { IfOk result (λ halt. (r : Run Item) → IsRest engine.old r → halt ≡ first_halt (r ∷ [])) }
        ensures ok { OnOk result (IsRestAnswered style engine.old self.old self.new outputs.old.bytes outputs.new.bytes) }
        ensures err { OnErr result (IsRestAnsweredFirst style engine.old self.old self.new outputs.old.bytes outputs.new.bytes) }
        ensures unfailed { OnOk result (outputs.new.failures ≡ outputs.old.failures) }
        ensures blamed { IfErr result (λ fault. IsWriteBlamed fault outputs.old.failures outputs.new.failures) }
        ensures fault { IfErr result (λ fault. fault ≢ ReadFault) }
    {
        for _turn in 0..u64::MAX {
            match engine.next() {
                Turn::Output(value) => self.print(alloc, &value, style, outputs)?,
                Turn::End(ending) => {
                    self.report(alloc, &ending)?;
                    self.write_if_large(outputs)?;
                    return Ok(halt_status(&ending));
                }
                Turn::NoMemory => return Err(StreamFault::NoMemory),
            }
        }
        // A run of 2^64 - 1 outputs or more counts as out of memory.
        Err(StreamFault::NoMemory)
    }

    // Prints an output to the buffer, a large one piece by piece, and writes the buffers if one of them is large.
    fn print<O: Write, E: Write>(
        &mut self,
        alloc: Global,
        value: &Val,
        style: Style,
        outputs: &mut Outputs<O, E>,
    ) -> Result<(), StreamFault>
        ensures ok { OnOk result (IsPrinted (printed style (view value.now)) self.old self.new outputs.old.bytes outputs.new.bytes) }
        ensures last { OnOk result (last_of self.new.last ≡ last_by (is_true (view value.now))) }
        ensures err { OnErr result (IsPrintedFirst (printed style (view value.now)) self.old self.new outputs.old.bytes outputs.new.bytes) }
        ensures unfailed { OnOk result (outputs.new.failures ≡ outputs.old.failures) }
        ensures blamed { IfErr result (λ fault. IsWriteBlamed fault outputs.old.failures outputs.new.failures) }
        ensures fault { IfErr result (λ fault. fault ≢ ReadFault) }
    {
        self.last = last_of(value);
        match Printer::new(alloc, value, style)? {
            Some(printer) => {
                let mut rest = printer;
                self.print_pieces(alloc, &mut rest, outputs)
            }
            None => {
                print(alloc, value, style, &mut self.printed)?;
                self.write_if_large(outputs)
            }
        }
    }

    // Prints the remaining pieces of a large output, and writes the buffers whenever one of them is large.
    fn print_pieces<O: Write, E: Write>(
        &mut self,
        alloc: Global,
        printer: &mut Printer<'_>,
        outputs: &mut Outputs<O, E>,
    ) -> Result<(), StreamFault>
        ensures ok { OnOk result (IsPrinted printer.old self.old self.new outputs.old.bytes outputs.new.bytes) }
        ensures last { self.new.last ≡ self.old.last }
        ensures err { OnErr result (IsPrintedFirst printer.old self.old self.new outputs.old.bytes outputs.new.bytes) }
        ensures unfailed { OnOk result (outputs.new.failures ≡ outputs.old.failures) }
        ensures blamed { IfErr result (λ fault. IsWriteBlamed fault outputs.old.failures outputs.new.failures) }
        ensures fault { IfErr result (λ fault. fault ≢ ReadFault) }
    {
        for _piece in 0..u64::MAX {
            let more = self.print_piece(alloc, printer, outputs)?;
            if !more {
                return Ok(());
            }
        }
        // A text of 2^64 - 1 pieces or more counts as out of memory.
        Err(StreamFault::NoMemory)
    }

    // Prints the next piece of a large output, writes the buffers if one of them is large, and returns whether there is another
    // piece.
    fn print_piece<O: Write, E: Write>(
        &mut self,
        alloc: Global,
        printer: &mut Printer<'_>,
        outputs: &mut Outputs<O, E>,
    ) -> Result<bool, StreamFault>
        ensures ok { IfOk result (λ more. IsPiecePrinted more printer.old printer.new self.old self.new outputs.old.bytes outputs.new.bytes) }
        ensures last { self.new.last ≡ self.old.last }
        ensures err { OnErr result (IsPrintedFirst printer.old self.old self.new outputs.old.bytes outputs.new.bytes) }
        ensures unfailed { OnOk result (outputs.new.failures ≡ outputs.old.failures) }
        ensures blamed { IfErr result (λ fault. IsWriteBlamed fault outputs.old.failures outputs.new.failures) }
        ensures fault { IfErr result (λ fault. fault ≢ ReadFault) }
    {
        let more = printer.print_next(alloc, &mut self.printed)?;
        self.write_if_large(outputs)?;
        Ok(more)
    }

    // Writes the buffers if one of them is large.
    fn write_if_large<O: Write, E: Write>(
        &mut self,
        outputs: &mut Outputs<O, E>,
    ) -> Result<(), StreamFault>
        ensures ok { OnOk result (IsPrinted [] self.old self.new outputs.old.bytes outputs.new.bytes) }
        ensures last { self.new.last ≡ self.old.last }
        ensures err { OnErr result (IsPrintedFirst [] self.old self.new outputs.old.bytes outputs.new.bytes) }
        ensures unfailed { OnOk result (outputs.new.failures ≡ outputs.old.failures) }
        ensures blamed { IfErr result (λ fault. IsWriteBlamed fault outputs.old.failures outputs.new.failures) }
        ensures fault { IfErr result (λ fault. fault ≢ ReadFault) }
    {
        if self.printed.len() > WAITING || self.reported.len() > WAITING {
            self.write_buffers(outputs)?;
        }
        Ok(())
    }

    // Reports how a run ended.
    fn report(&mut self, alloc: Global, ending: &Ending) -> Result<(), NoMemory>
        ensures printed { self.new.printed.items ≡ self.old.printed.items }
        ensures last { self.new.last ≡ self.old.last }
        ensures ok { OnOk result (self.new.reported.items ≡ self.old.reported.items ++ ending_report (ending_of ending.now)) }
        ensures failed { OnOk result (self.new.failed ≡ (self.old.failed || is_failure (ending_of ending.now))) }
        ensures err { OnErr result (self.new.reported.items ≡ self.old.reported.items) }
    {
        match ending {
            Ending::Done => {}
            Ending::Raised(error) => {
                append_error_line(alloc, error, &mut self.reported)?;
                self.count_failure();
            }
            Ending::Broken(_) => {}
            Ending::Stopped(stop) => self.report_stop(stop)?,
        }
        Ok(())
    }

    // Reports the depth limit, or the bytes of a halt.
    fn report_stop(&mut self, stop: &Stop) -> Result<(), NoMemory>
        ensures printed { self.new.printed.items ≡ self.old.printed.items }
        ensures last { self.new.last ≡ self.old.last }
        ensures ok { OnOk result (self.new.reported.items ≡ self.old.reported.items ++ stop_report (stop_of stop.now)) }
        ensures failed { OnOk result (self.new.failed ≡ (self.old.failed || is_failure (Stopped (stop_of stop.now)))) }
        ensures err { OnErr result (self.new.reported.items ≡ self.old.reported.items) }
    {
        match stop {
            Stop::Deep => {
                self.reported
                    .extend_from_slice(b"jq: error: call depth limit reached\n")?;
                self.count_failure();
            }
            Stop::Halted(exit) => self.reported.extend_from_slice(&exit.bytes)?,
        }
        Ok(())
    }

    fn count_failure(&mut self)
        ensures printed { self.new.printed.items ≡ self.old.printed.items }
        ensures reported { self.new.reported.items ≡ self.old.reported.items }
        ensures failed { self.new.failed ≡ true }
        ensures last { self.new.last ≡ self.old.last }
    {
        self.failed = true;
        self.failures = self.failures.saturating_add(1);
    }

    /// Writes the buffers, the errors also if the output fails. After a fault, the first bytes of each were written, and the
    /// others are lost.
    pub(crate) fn write_buffers<O: Write, E: Write>(
        &mut self,
        outputs: &mut Outputs<O, E>,
    ) -> Result<(), StreamFault>
        ensures written { OnOk result (IsWritten self.old outputs.old.bytes outputs.new.bytes) }
        ensures kept { NoneFell outputs.old.failures outputs.new.failures }
        ensures unfailed { OnOk result (outputs.new.failures ≡ outputs.old.failures) }
        ensures blamed { IfErr result (λ fault. IsWriteBlamed fault outputs.old.failures outputs.new.failures) }
        ensures fault { IfErr result (λ fault. fault ≡ WriteFault) }
        ensures first { OnErr result (IsWrittenFirst self.old outputs.old.bytes outputs.new.bytes) }
        ensures emptied { IsEmptied self.old self.new }
    {
        let done = self.write_both(outputs);
        self.printed.clear();
        self.reported.clear();
        done
    }

    // Writes both buffers. What the errors say is not lost if the output fails.
    fn write_both<O: Write, E: Write>(&self, outputs: &mut Outputs<O, E>) -> Result<(), StreamFault>
        ensures written { OnOk result (IsWritten self.now outputs.old.bytes outputs.new.bytes) }
        ensures kept { NoneFell outputs.old.failures outputs.new.failures }
        ensures unfailed { OnOk result (outputs.new.failures ≡ outputs.old.failures) }
        ensures blamed { IfErr result (λ fault. IsWriteBlamed fault outputs.old.failures outputs.new.failures) }
        ensures fault { IfErr result (λ fault. fault ≡ WriteFault) }
        ensures first { OnErr result (IsWrittenFirst self.now outputs.old.bytes outputs.new.bytes) }
    {
        let printed = write(&mut outputs.output, &self.printed);
        write(&mut outputs.errors, &self.reported)?;
        printed
    }

    /// The status at the end of the stream, if no run halts.
    pub(crate) fn status(&self, exit: bool) -> u8
        ensures { result ≡ end_status exit self.now.failed (last_of self.now.last) }
    {
        if self.failed {
            return 5;
        }
        if !exit {
            return 0;
        }
        match self.last {
            Last::Nothing => 4,
            Last::Falsy => 1,
            Last::Truthy => 0,
        }
    }
}

// The status of a run that halts.
fn halt_status(ending: &Ending) -> Option<u8>
    ensures { result ≡ halt_status (ending_of ending.now) }
{
    match ending {
        Ending::Stopped(Stop::Halted(exit)) => Some(exit.status),
        _ => None,
    }
}

// Appends the line of an uncaught error.
fn append_error_line(alloc: Global, error: &Val, errors: &mut Vec<u8>) -> Result<(), NoMemory>
    ensures ok { OnOk result (errors.new.items ≡ errors.old.items ++ error_line (view error.now)) }
    ensures err { OnErr result (errors.new.items ≡ errors.old.items) }
{
    let mut line = Vec::new(alloc);
    line.extend_from_slice(error_prefix(error))?;
    print(alloc, error, RAW, &mut line)?;
    errors.extend_from_slice(&line)?;
    Ok(())
}

fn error_prefix(error: &Val) -> &'static [u8]
    ensures { result.now ≡ error_prefix (view error.now) }
{
    match error {
        Val::Text(_) => b"jq: error: ",
        _ => b"jq: error (not a string): ",
    }
}
