// A filter on values that are all present.
ghost use Rattle.std.specs.Prelude.{◌≡◌, IfOk, OnErr, OnOk, map};
ghost use Rattle.jv_data.specs.View.{view};
ghost use Rattle.jq_starts.specs.Starts.{HasStarted, HasStartedAtMost};
ghost use Rattle.jq_filters.specs.Outcomes.{first_halt, on_each};
ghost use Rattle.jq_filters.specs.Present.{values_outcome, run_count};
ghost use Rattle.jq_filters.specs.Runner.{job_of, mode_of};
ghost use Rattle.jq_stream.specs.private.Answering.{IsAnsweredToHalt, runs_on};
ghost use Rattle.jq_stream.specs.private.Valued.{HasRunOn, runs_by_mode};

use crate::answers::OutputBuffers;
use crate::running::{run_on_array, run_with};
use crate::streams::Outputs;
use jq_devices::{StreamFault, Write};
use jq_filters::{Mode, Runner, Settings, no_inputs};
use jq_starts::Starts;
use jq_starts::laws::starts_add_up;
use jq_state::inputs::Inputs;
use jv_data::{NoMemory, Val, copies};
use std::alloc::Global;

/// What the runs on some values write, the status after them, and the number of runs.
#[derive(Drop)]
pub struct Written {
    pub output: Vec<u8>,
    pub errors: Vec<u8>,
    pub status: u8,
    pub runs: u64,
}

/// Runs a filter on values as `run_stream` does on a stream of their texts, and keeps what the runs write. On success it starts
/// exactly the runs of the definition, on an error at most that many.
#[tactic(auto, using(crate::proofs::Once::counted_by_mode))]
pub fn run_values(
    alloc: Global,
    runner: &Runner<'_>,
    settings: Settings,
    starts: &mut Starts,
    values: &[Val],
) -> Result<Written, NoMemory>
    ensures output { IfOk result (λ w. w.output.items ≡ (values_outcome (mode_of settings.mode) (job_of settings runner.now) (map view values.now)).output) }
    ensures errors { IfOk result (λ w. w.errors.items ≡ (values_outcome (mode_of settings.mode) (job_of settings runner.now) (map view values.now)).errors) }
    ensures status { IfOk result (λ w. w.status ≡ (values_outcome (mode_of settings.mode) (job_of settings runner.now) (map view values.now)).status) }
    ensures runs { IfOk result (λ w. w.runs ≡ run_count (mode_of settings.mode) (job_of settings runner.now) (map view values.now)) }
    ensures started { OnOk result (HasStarted (run_count (mode_of settings.mode) (job_of settings runner.now) (map view values.now)) starts.old starts.new) }
    ensures at_most { OnErr result (HasStartedAtMost (run_count (mode_of settings.mode) (job_of settings runner.now) (map view values.now)) starts.old starts.new) }
{
    let mut outputs = Outputs::new(Vec::new(alloc), Vec::new(alloc));
    match write_values(alloc, runner, settings, starts, values, &mut outputs) {
        Ok((status, runs)) => {
            let (output, errors) = outputs.into_devices();
            Ok(Written {
                output,
                errors,
                status,
                runs,
            })
        }
        // A write to a vector fails only if memory runs out.
        Err(_) => Err(NoMemory),
    }
}

// Writes the outputs of the runs, and returns the status and the number of runs.
fn write_values<O: Write, E: Write>(
    alloc: Global,
    runner: &Runner<'_>,
    settings: Settings,
    starts: &mut Starts,
    values: &[Val],
    outputs: &mut Outputs<O, E>,
) -> Result<(u8, u64), StreamFault>
    ensures ran { IfOk result (λ done. HasRunOn (mode_of settings.mode) settings runner.now (map view values.now) done outputs.old.bytes outputs.new.bytes) }
    ensures started { OnOk result (HasStarted (runs_by_mode (mode_of settings.mode) (job_of settings runner.now) (map view values.now)) starts.old starts.new) }
    ensures at_most { OnErr result (HasStartedAtMost (runs_by_mode (mode_of settings.mode) (job_of settings runner.now) (map view values.now)) starts.old starts.new) }
{
    let status = match settings.mode {
        Mode::OnEach => return write_each(alloc, runner, settings, starts, values, outputs),
        Mode::OnNull { reads: true } => {
            let inputs = Inputs {
                values: copy_all(alloc, values)?,
                fault: None,
            };
            run_with(alloc, runner, settings, starts, inputs, outputs)?
        }
        Mode::OnNull { reads: false } => {
            let inputs = no_inputs(alloc);
            run_with(alloc, runner, settings, starts, inputs, outputs)?
        }
        Mode::OnAll => {
            let values = copy_all(alloc, values)?;
            run_on_array(alloc, runner, settings, starts, values, outputs)?
        }
    };
    Ok((status, 1))
}

// One run on each value, up to one that halts.
fn write_each<O: Write, E: Write>(
    alloc: Global,
    runner: &Runner<'_>,
    settings: Settings,
    starts: &mut Starts,
    values: &[Val],
    outputs: &mut Outputs<O, E>,
) -> Result<(u8, u64), StreamFault>
    ensures ran { IfOk result (λ done. HasRunOn on_each settings runner.now (map view values.now) done outputs.old.bytes outputs.new.bytes) }
    ensures started { OnOk result (HasStarted (run_count on_each (job_of settings runner.now) (map view values.now)) starts.old starts.new) }
    ensures at_most { OnErr result (HasStartedAtMost (run_count on_each (job_of settings runner.now) (map view values.now)) starts.old starts.new) }
{
    let mut answers = OutputBuffers::new(alloc);
    let (halt, runs) = answer_each(
        alloc,
        runner,
        settings,
        starts,
        values,
        &mut answers,
        outputs,
    )?;
    answers.write_buffers(outputs)?;
    let status = answers.status(settings.exit);
    Ok((halt.unwrap_or(status), runs))
}

// Answers each value, up to one whose run halts. Returns the status of this halt, and the number of runs.
fn answer_each<O: Write, E: Write>(
    alloc: Global,
    runner: &Runner<'_>,
    settings: Settings,
    starts: &mut Starts,
    values: &[Val],
    answers: &mut OutputBuffers,
    outputs: &mut Outputs<O, E>,
) -> Result<(Option<u8>, u64), StreamFault>
    ensures answered { OnOk result (IsAnsweredToHalt settings runner.now (map view values.now) answers.old answers.new outputs.old.bytes outputs.new.bytes) }
    ensures halt { IfOk result (λ done. done.0 ≡ first_halt (runs_on (job_of settings runner.now) (map view values.now))) }
    ensures runs { IfOk result (λ done. done.1 ≡ run_count on_each (job_of settings runner.now) (map view values.now)) }
    ensures started { OnOk result (HasStarted (run_count on_each (job_of settings runner.now) (map view values.now)) starts.old starts.new) }
    ensures at_most { OnErr result (HasStartedAtMost (run_count on_each (job_of settings runner.now) (map view values.now)) starts.old starts.new) }
{
    starts_add_up();
    for (i, value) in values.iter().enumerate() {
        let value = value.copy()?;
        let halt = answers.answer(alloc, runner, settings, starts, value, outputs)?;
        if let Some(status) = halt {
            return Ok((Some(status), i as u64 + 1));
        }
    }
    Ok((None, values.len() as u64))
}

fn copy_all(alloc: Global, values: &[Val]) -> Result<Vec<Val>, NoMemory>
    ensures { IfOk result (λ copies. map view copies.items ≡ map view values.now) }
{
    Ok(copies(alloc, values)?)
}
