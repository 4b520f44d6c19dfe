// A filter on a stream of texts.
ghost use Rattle.std.specs.Prelude.{◌≡◌, ◌≢◌, IfErr, IfOk, OnErr, OnOk, map, true, false};
ghost use Rattle.jv_data.specs.Value.{null, array, items_of};
ghost use Rattle.jv_data.specs.View.{view};
ghost use Rattle.jq_starts.specs.Starts.{HasStarted, HasStartedAtMost};
ghost use Rattle.jq_state.specs.Inputs.{inputs_of, fault_ending};
ghost use Rattle.jq_devices.specs.Watched.{HasFailed};
ghost use Rattle.jq_devices.specs.declared.faults.StreamFault.TheVariants.{Read as ReadFault, Write as WriteFault};
ghost use Rattle.jq_filters.specs.Outcomes.{on_each, on_null, on_all};
ghost use Rattle.jq_filters.specs.Runner.{job_of};
ghost use Rattle.jq_filters.specs.Running.{run_on};
ghost use Rattle.jq_stream.specs.Runs.{HasRun, HasStopped};
ghost use Rattle.jq_stream.specs.Stopped.{IsOnePass, WritesFirst};
ghost use Rattle.jq_stream.specs.Failures.{AnOutputHasFailed};
ghost use Rattle.jq_stream.specs.private.Blaming.{IsWriteBlamed};
ghost use Rattle.jq_stream.specs.private.Gathering.{stop_ending};
ghost use Rattle.jq_stream.specs.private.Once.{IsRunOnce, run_on_array, run_outcome};
ghost use Rattle.jq_stream.specs.private.Modes.{Runs, Stops};
ghost use Rattle.jq_filters.specs.declared.settings.Mode.TheVariants.{OnEach, OnNull};

use crate::answers::{OutputBuffers, Reached};
use crate::feeding::feed_next;
use crate::gathering::gather;
use crate::reports::{fault_text, report_fault};
use crate::streams::{Outputs, Streams};
use jq_devices::{Read, StreamFault, Write, read_buffer};
use jq_filters::{Mode, Runner, Settings, no_inputs};
use jq_starts::Starts;
use jq_state::inputs::Inputs;
use jv_data::{Array, NoMemory, Val};
use jv_text::{Cutter, Fault};
use std::alloc::Global;

/// Runs a filter on a stream of texts, writes the outputs of its runs, and returns the status of the process.
///
/// If the filter runs on each input, a run that ends in an error or nests calls too deep is reported, and the
/// next input follows. A run that halts is the last one, and nothing more is read. A text that can't be read ends
/// the stream. The outputs for earlier texts are written before a fault of a later text is reported, and before a
/// read fault is returned. Every error of a read or a write is a failure, including an interrupted call. The status
/// is that of a halt, or 0, 1, 2, 4 or 5 (manual of jq 1.7, "Invoking jq"). After a write fault, or if memory runs
/// out, the first bytes of the outcome were written.
///
/// If the errors take notes, the line of a run that fails on an input is followed by a note with the input's number.
pub fn run_stream<R: Read, O: Write, E: Write>(
    alloc: Global,
    runner: &Runner<'_>,
    settings: Settings,
    starts: &mut Starts,
    streams: &mut Streams<R, O, E>,
) -> Result<u8, StreamFault>
    ensures ran { IfOk result (λ status. HasRun settings runner.now status streams.old.bytes streams.new.bytes) }
    ensures stopped { IfErr result (λ fault. HasStopped fault settings runner.now streams.old.bytes streams.new.bytes) }
    ensures one_pass { settings.mode ≡ OnEach → IsOnePass (job_of settings runner.now) streams.old.bytes streams.new.bytes }
    ensures read_failed { IfErr result (λ fault. fault ≡ ReadFault → HasFailed streams.old.failures.input streams.new.failures.input) }
    ensures write_failed { IfErr result (λ fault. fault ≡ WriteFault → AnOutputHasFailed streams.old.failures.outputs streams.new.failures.outputs) }
    ensures unread { settings.mode ≡ OnNull false → streams.new.input ≡ streams.old.input }
{
    match settings.mode {
        Mode::OnEach => run_on_each(alloc, runner, settings, starts, streams),
        Mode::OnNull { reads: true } => run_on_null(alloc, runner, settings, starts, streams),
        Mode::OnNull { reads: false } => {
            let inputs = no_inputs(alloc);
            run_with(
                alloc,
                runner,
                settings,
                starts,
                inputs,
                &mut streams.outputs,
            )
        }
        Mode::OnAll => run_on_all(alloc, runner, settings, starts, streams),
    }
}

// One run on each input.
fn run_on_each<R: Read, O: Write, E: Write>(
    alloc: Global,
    runner: &Runner<'_>,
    settings: Settings,
    starts: &mut Starts,
    streams: &mut Streams<R, O, E>,
) -> Result<u8, StreamFault>
    ensures ran { IfOk result (λ status. Runs on_each settings runner.now status streams.old.bytes streams.new.bytes) }
    ensures stopped { IfErr result (λ fault. Stops fault on_each settings runner.now streams.old.bytes streams.new.bytes) }
    ensures one_pass { IsOnePass (job_of settings runner.now) streams.old.bytes streams.new.bytes }
    ensures read_failed { IfErr result (λ fault. fault ≡ ReadFault → HasFailed streams.old.failures.input streams.new.failures.input) }
    ensures write_failed { IfErr result (λ fault. fault ≡ WriteFault → AnOutputHasFailed streams.old.failures.outputs streams.new.failures.outputs) }
{
    let mut cutter = Cutter::new(alloc);
    let mut answers = OutputBuffers::new(alloc);
    let mut piece = read_buffer(alloc)?;
    loop {
        let ended = feed_next(&mut streams.input, &mut piece, &mut cutter)?;
        let reached = answers.answer_ready(
            alloc,
            runner,
            settings,
            starts,
            &mut cutter,
            streams.input.device().file(),
            &mut streams.outputs,
        )?;
        match reached {
            Reached::All => {}
            Reached::Fault(fault) => return report_fault(alloc, fault, &mut streams.outputs.errors),
            Reached::Halt(status) => return Ok(status),
        }
        if ended {
            return Ok(answers.status(settings.exit));
        }
    }
}

// One run on null, after all inputs were read.
fn run_on_null<R: Read, O: Write, E: Write>(
    alloc: Global,
    runner: &Runner<'_>,
    settings: Settings,
    starts: &mut Starts,
    streams: &mut Streams<R, O, E>,
) -> Result<u8, StreamFault>
    ensures ran { IfOk result (λ status. Runs (on_null true) settings runner.now status streams.old.bytes streams.new.bytes) }
    ensures stopped { IfErr result (λ fault. Stops fault (on_null true) settings runner.now streams.old.bytes streams.new.bytes) }
    ensures read_failed { IfErr result (λ fault. fault ≡ ReadFault → HasFailed streams.old.failures.input streams.new.failures.input) }
    ensures write_failed { IfErr result (λ fault. fault ≡ WriteFault → AnOutputHasFailed streams.old.failures.outputs streams.new.failures.outputs) }
{
    let mut values = Vec::new(alloc);
    match gather(alloc, &mut streams.input, &mut values) {
        Ok(stop) => {
            let fault = inputs_fault(alloc, stop)?;
            let inputs = Inputs { values, fault };
            run_with(
                alloc,
                runner,
                settings,
                starts,
                inputs,
                &mut streams.outputs,
            )
        }
        Err(StreamFault::Read) => {
            let inputs = Inputs {
                values,
                fault: None,
            };
            run_with(
                alloc,
                runner,
                settings,
                starts,
                inputs,
                &mut streams.outputs,
            )?;
            Err(StreamFault::Read)
        }
        Err(fault) => Err(fault),
    }
}

/// One run on null, where `inputs` returns these inputs.
pub(crate) fn run_with<O: Write, E: Write>(
    alloc: Global,
    runner: &Runner<'_>,
    settings: Settings,
    starts: &mut Starts,
    inputs: Inputs,
    outputs: &mut Outputs<O, E>,
) -> Result<u8, StreamFault>
    ensures ok { IfOk result (λ status. IsRunOnce settings (run_on runner.now (inputs_of inputs) null) status outputs.old.bytes outputs.new.bytes) }
    ensures err { OnErr result (WritesFirst (run_outcome settings (run_on runner.now (inputs_of inputs) null)) outputs.old.bytes outputs.new.bytes) }
    ensures unfailed { OnOk result (outputs.new.failures ≡ outputs.old.failures) }
    ensures blamed { IfErr result (λ fault. IsWriteBlamed fault outputs.old.failures outputs.new.failures) }
    ensures fault { IfErr result (λ fault. fault ≢ ReadFault) }
    ensures started { HasStarted 1 starts.old starts.new }
{
    run_once(alloc, runner, settings, starts, inputs, Val::Null, outputs)
}

// The error of `inputs` after the last input.
fn inputs_fault(alloc: Global, stop: Option<Fault>) -> Result<Option<Val>, NoMemory>
    ensures { IfOk result (λ fault. fault_ending fault ≡ stop_ending stop) }
{
    match stop {
        Some(fault) => Ok(Some(Val::from_string(alloc, fault_text(alloc, fault)?)?)),
        None => Ok(None),
    }
}

// One run on the array of all inputs.
fn run_on_all<R: Read, O: Write, E: Write>(
    alloc: Global,
    runner: &Runner<'_>,
    settings: Settings,
    starts: &mut Starts,
    streams: &mut Streams<R, O, E>,
) -> Result<u8, StreamFault>
    ensures ran { IfOk result (λ status. Runs on_all settings runner.now status streams.old.bytes streams.new.bytes) }
    ensures stopped { IfErr result (λ fault. Stops fault on_all settings runner.now streams.old.bytes streams.new.bytes) }
    ensures read_failed { IfErr result (λ fault. fault ≡ ReadFault → HasFailed streams.old.failures.input streams.new.failures.input) }
    ensures write_failed { IfErr result (λ fault. fault ≡ WriteFault → AnOutputHasFailed streams.old.failures.outputs streams.new.failures.outputs) }
{
    let mut values = Vec::new(alloc);
    match gather(alloc, &mut streams.input, &mut values) {
        Ok(Some(fault)) => report_fault(alloc, fault, &mut streams.outputs.errors),
        Ok(None) => run_on_array(
            alloc,
            runner,
            settings,
            starts,
            values,
            &mut streams.outputs,
        ),
        Err(StreamFault::Read) => {
            run_on_array(
                alloc,
                runner,
                settings,
                starts,
                values,
                &mut streams.outputs,
            )?;
            Err(StreamFault::Read)
        }
        Err(fault) => Err(fault),
    }
}

/// One run on the array of these values.
pub(crate) fn run_on_array<O: Write, E: Write>(
    alloc: Global,
    runner: &Runner<'_>,
    settings: Settings,
    starts: &mut Starts,
    values: Vec<Val>,
    outputs: &mut Outputs<O, E>,
) -> Result<u8, StreamFault>
    ensures ok { IfOk result (λ status. IsRunOnce settings (run_on_array runner.now (map view values.items)) status outputs.old.bytes outputs.new.bytes) }
    ensures err { OnErr result (WritesFirst (run_outcome settings (run_on_array runner.now (map view values.items))) outputs.old.bytes outputs.new.bytes) }
    ensures unfailed { OnOk result (outputs.new.failures ≡ outputs.old.failures) }
    ensures blamed { IfErr result (λ fault. IsWriteBlamed fault outputs.old.failures outputs.new.failures) }
    ensures fault { IfErr result (λ fault. fault ≢ ReadFault) }
    ensures started { OnOk result (HasStarted 1 starts.old starts.new) }
    ensures at_most { OnErr result (HasStartedAtMost 1 starts.old starts.new) }
{
    let inputs = no_inputs(alloc);
    let value = array_value(alloc, values)?;
    run_once(alloc, runner, settings, starts, inputs, value, outputs)
}

fn array_value(alloc: Global, values: Vec<Val>) -> Result<Val, NoMemory>
    ensures { IfOk result (λ value. view value ≡ array (items_of (map view values.items))) }
{
    Ok(Val::List(Array::from_vec(alloc, values)?))
}

// Runs the filter on a value, and returns the status after this one run.
fn run_once<O: Write, E: Write>(
    alloc: Global,
    runner: &Runner<'_>,
    settings: Settings,
    starts: &mut Starts,
    inputs: Inputs,
    value: Val,
    outputs: &mut Outputs<O, E>,
) -> Result<u8, StreamFault>
    ensures ok { IfOk result (λ status. IsRunOnce settings (run_on runner.now (inputs_of inputs) (view value)) status outputs.old.bytes outputs.new.bytes) }
    ensures err { OnErr result (WritesFirst (run_outcome settings (run_on runner.now (inputs_of inputs) (view value))) outputs.old.bytes outputs.new.bytes) }
    ensures unfailed { OnOk result (outputs.new.failures ≡ outputs.old.failures) }
    ensures blamed { IfErr result (λ fault. IsWriteBlamed fault outputs.old.failures outputs.new.failures) }
    ensures fault { IfErr result (λ fault. fault ≢ ReadFault) }
    ensures started { HasStarted 1 starts.old starts.new }
{
    let engine = runner.start(alloc, starts, inputs, value)?;
    let mut answers = OutputBuffers::new(alloc);
    let done = answers.run(alloc, engine, settings.style, outputs);
    answers.write_buffers(outputs)?;
    let status = answers.status(settings.exit);
    Ok(done?.unwrap_or(status))
}
