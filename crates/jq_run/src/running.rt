// The run of a filter over an input.
ghost use Rattle.std.specs.Prelude.{◌≡◌, ℕ, List, IfErr, IfOk};
ghost use Rattle.std.specs.Str.{chars};
ghost use Rattle.jq_devices.specs.Watched.{HasFailed};
ghost use Rattle.jq_devices.specs.declared.faults.StreamFault.TheVariants.{Read as ReadFault, Write as WriteFault};
ghost use Rattle.jq_filters.specs.Filters.{IsFilterOf};
ghost use Rattle.jq_stream.specs.Failures.{AnOutputHasFailed};
ghost use Rattle.jq_syntax.specs.Chosen.{Chosen, chosen};
ghost use Rattle.jq_run.specs.Filters.{FilterNeedsInput};
ghost use Rattle.jq_run.specs.Runs.{HasRunCompiled, HasStoppedCompiled, IsTextDone, IsTextStopped};

use crate::refusals::refuse_filter;
use jq_devices::{Read, StreamFault, Write};
use jq_filters::Filter;
use jq_starts::Starts;
use jq_stream::{Streams, run_stream};
use jq_syntax::Options;
use std::alloc::Global;

/// Compiles a filter and runs it over the input, or reports why it is refused, and returns the status of the process (manual of
/// jq 1.7, "Invoking jq"). After an error the first bytes of the outcome were written; the error's line is not.
pub fn run_filter<R: Read, O: Write, E: Write>(
    alloc: Global,
    filter: &str,
    options: Options,
    starts: &mut Starts,
    streams: &mut Streams<R, O, E>,
) -> Result<u8, StreamFault>
    ensures done { IfOk result (λ status. IsTextDone options filter.now status streams.old.bytes streams.new.bytes) }
    ensures stopped { IfErr result (λ fault. IsTextStopped options filter.now fault streams.old.bytes streams.new.bytes) }
    ensures read_failed { IfErr result (λ fault. fault ≡ ReadFault → HasFailed streams.old.failures.input streams.new.failures.input) }
    ensures write_failed { IfErr result (λ fault. fault ≡ WriteFault → AnOutputHasFailed streams.old.failures.outputs streams.new.failures.outputs) }
    ensures unread { ¬ (FilterNeedsInput (chosen options) (chars filter.now)) → streams.new.input ≡ streams.old.input }
{
    match Filter::compile(alloc, filter, options) {
        Ok(compiled) => run_compiled(alloc, &compiled, starts, streams),
        Err(fault) => refuse_filter(alloc, filter, fault, &mut streams.outputs.errors),
    }
}

/// Runs a compiled filter over the input, and returns the status of the process (manual of jq 1.7, "Invoking jq"). After an
/// error the first bytes of the outcome were written; the error's line is not.
pub fn run_compiled<R: Read, O: Write, E: Write>(
    alloc: Global,
    filter: &Filter,
    starts: &mut Starts,
    streams: &mut Streams<R, O, E>,
) -> Result<u8, StreamFault>
    ensures ran { IfOk result (λ status. HasRunCompiled filter.now status streams.old.bytes streams.new.bytes) }
    ensures stopped { IfErr result (λ fault. HasStoppedCompiled filter.now fault streams.old.bytes streams.new.bytes) }
    ensures read_failed { IfErr result (λ fault. fault ≡ ReadFault → HasFailed streams.old.failures.input streams.new.failures.input) }
    ensures write_failed { IfErr result (λ fault. fault ≡ WriteFault → AnOutputHasFailed streams.old.failures.outputs streams.new.failures.outputs) }
    ensures unread { (o : Chosen) (text : List ℕ) → IsFilterOf o text filter.now → ¬ (FilterNeedsInput o text) → streams.new.input ≡ streams.old.input }
{
    let runner = filter.runner();
    let settings = filter.settings();
    run_stream(alloc, &runner, settings, starts, streams)
}
