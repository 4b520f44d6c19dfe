// What the command does if its words ask for a session.
ghost use Rattle.std.specs.Prelude.{◌≡◌, ◌≢◌, ℕ, Ok, Err, IfErr, IfOk, OnOk};
ghost use Rattle.std.specs.Str.{chars};
ghost use Rattle.jq_devices.specs.Watched.{HasFailed, device_of, failures_of};
ghost use Rattle.jq_devices.specs.declared.faults.StreamFault.TheVariants.{Read as ReadFault, Write as WriteFault, NoMemory as MemoryFault};
ghost use Rattle.jq_session.specs.declared.refusals.Refusal.TheVariants as refusals;
ghost use Rattle.jq_syntax.specs.Chosen.{chosen, setting_of};
ghost use Rattle.jq_syntax.specs.Compiled.{IsRefusal};
ghost use Rattle.jq_filters.specs.Filters.{IsFilterOf};
ghost use Rattle.jq_app.specs.Blaming.{IsBlamed, failures};
ghost use Rattle.jq_app.specs.Sessions.{IsAccepted, too_many};
ghost use Rattle.jq_run.specs.Reports.{IsReport};
ghost use Rattle.jq_app.specs.private.Calls.{OnFault, OnStatus};
ghost use Rattle.jq_app.specs.private.Served.{IsAnswered, IsCutOff, OnServing};
ghost use Rattle.jq_app.specs.private.Sessions.{IsFilterSessionDone, IsFilterSessionStopped, IsSessionOverTextsDone, IsSessionOverTextsStopped, IsTextSessionDone, IsTextSessionStopped};

use crate::counts::Counts;
use crate::refusals::refuse_inputs;
use jq_devices::{Read, StreamFault, Watched, Write};
use jq_filters::Filter;
use jq_run::refuse_filter;
use jq_script::{Host, copy_options, serve};
use jq_session::laws::plans_are_by_the_tree;
use jq_session::{Refusal, Session};
use jq_stream::{InputTexts, Streams, read_texts, report_fault};
use jq_syntax::{CompileFault, Options};
use jv_data::NoMemory;
use std::alloc::Global;

/// Compiles a filter and serves a session over the texts of the files: the lines of the script are read from the input and
/// answered. Returns the status of the process, and the counts of starts.
pub(crate) fn run_session<I: Read, R: Read, O: Write, E: Write>(
    alloc: Global,
    filter: &str,
    options: Options,
    follow: bool,
    counts: Counts,
    files: &mut Watched<I>,
    streams: &mut Streams<R, O, E>,
) -> (Result<u8, StreamFault>, Counts)
    ensures done { OnStatus counts streams.old result streams.new (IsTextSessionDone I.remaining files.old follow options filter.now) }
    ensures stopped { OnFault counts streams.old result streams.new (IsTextSessionStopped I.remaining files.old follow options filter.now) }
    ensures blamed { IfErr result.0 (λ fault. IsBlamed fault (failures (failures_of files.old) streams.old) (failures (failures_of files.new) streams.new)) }
    ensures unread { ¬ (IsAccepted (chosen options) (chars filter.now)) → streams.new.input ≡ streams.old.input }
{
    match compile_keeping(alloc, filter, options) {
        Ok(parts) => {
            let (compiled, kept) = parts;
            serve_filter(alloc, compiled, kept, follow, counts, files, streams)
        }
        Err(fault) => (
            refuse_filter(alloc, filter, fault, &mut streams.outputs.errors),
            counts,
        ),
    }
}

// Compiles a filter, and keeps a copy of its options.
fn compile_keeping(
    alloc: Global,
    filter: &str,
    options: Options,
) -> Result<(Filter, Options), CompileFault>
    ensures accepted { IfOk result (λ r. IsFilterOf (chosen options) (chars filter.now) r.0) }
    ensures kept { IfOk result (λ r. chosen r.1 ≡ chosen options) }
    ensures refused { IfErr result (IsRefusal (chars filter.now) (setting_of options)) }
{
    match copy_options(alloc, &options) {
        Ok(kept) => match Filter::compile(alloc, filter, options) {
            Ok(compiled) => Ok((compiled, kept)),
            Err(fault) => Err(fault),
        },
        Err(NoMemory) => Err(CompileFault::NoMemory),
    }
}

// Reads the texts of the files, and serves a session of a filter over them.
fn serve_filter<I: Read, R: Read, O: Write, E: Write>(
    alloc: Global,
    filter: Filter,
    options: Options,
    follow: bool,
    counts: Counts,
    files: &mut Watched<I>,
    streams: &mut Streams<R, O, E>,
) -> (Result<u8, StreamFault>, Counts)
    ensures done { OnStatus counts streams.old result streams.new (IsFilterSessionDone I.remaining files.old follow options filter) }
    ensures stopped { OnFault counts streams.old result streams.new (IsFilterSessionStopped I.remaining files.old follow options filter) }
    ensures blamed { IfErr result.0 (λ fault. IsBlamed fault (failures (failures_of files.old) streams.old) (failures (failures_of files.new) streams.new)) }
{
    match read_texts(alloc, files) {
        Ok(texts) => serve_texts(alloc, filter, options, follow, counts, texts, streams),
        Err(fault) => (Err(fault), counts),
    }
}

// Serves a session of a filter over these texts.
fn serve_texts<R: Read, O: Write, E: Write>(
    alloc: Global,
    filter: Filter,
    options: Options,
    follow: bool,
    counts: Counts,
    texts: InputTexts,
    streams: &mut Streams<R, O, E>,
) -> (Result<u8, StreamFault>, Counts)
    ensures done { OnStatus counts streams.old result streams.new (IsSessionOverTextsDone texts follow options filter) }
    ensures stopped { OnFault counts streams.old result streams.new (IsSessionOverTextsStopped texts follow options filter) }
    ensures blamed { IfErr result.0 (λ fault. (files : ℕ) → IsBlamed fault (failures files streams.old) (failures files streams.new)) }
{
    let InputTexts { values, fault } = texts;
    if let Some(fault) = fault {
        return (
            report_fault(alloc, fault, &mut streams.outputs.errors),
            counts,
        );
    }
    plans_are_by_the_tree();
    let Counts { starts, spare } = counts;
    match Session::start(alloc, starts, options, filter, values) {
        Ok(session) => serve_host(
            alloc,
            follow,
            Host::new(session, spare),
            &mut streams.input,
            &mut streams.outputs.output,
        ),
        Err(refused) => (
            refuse_start(refused.refusal, &mut streams.outputs.errors),
            Counts {
                starts: refused.starts,
                spare,
            },
        ),
    }
}

// Serves a session, and returns the status and the counts of starts.
fn serve_host<R: Read, O: Write>(
    alloc: Global,
    follow: bool,
    host: Host,
    input: &mut Watched<R>,
    output: &mut Watched<O>,
) -> (Result<u8, StreamFault>, Counts)
    ensures served { IfOk result.0 (λ status. OnServing R.remaining O.contents host input.old output.old result.1 input.new output.new (IsAnswered follow status)) }
    ensures stopped { IfErr result.0 (λ fault. OnServing R.remaining O.contents host input.old output.old result.1 input.new output.new (IsCutOff follow fault)) }
    ensures read_failed { IfErr result.0 (λ fault. fault ≡ ReadFault → HasFailed (failures_of input.old) (failures_of input.new)) }
    ensures write_failed { IfErr result.0 (λ fault. fault ≡ WriteFault → HasFailed (failures_of output.old) (failures_of output.new)) }
{
    let mut host = host;
    let served = serve(alloc, follow, &mut host, input, output);
    let (starts, spare) = host.into_starts();
    (status_of(served), Counts { starts, spare })
}

// The status of a session that was served.
fn status_of(served: Result<(), StreamFault>) -> Result<u8, StreamFault>
    ensures ok { OnOk served (result ≡ Ok 0) }
    ensures err { IfErr served (λ fault. result ≡ Err fault) }
{
    match served {
        Ok(()) => Ok(0),
        Err(fault) => Err(fault),
    }
}

// Reports that there are too many inputs, if a session was refused for this reason. Otherwise memory ran out.
fn refuse_start<E: Write>(refusal: Refusal, errors: &mut Watched<E>) -> Result<u8, StreamFault>
    ensures full { refusal ≡ refusals.Full → IsReport result too_many.errors 2 (E.contents (device_of errors.old)) (E.contents (device_of errors.new)) }
    ensures memory { refusal ≢ refusals.Full → (result ≡ Err MemoryFault) × (errors.new ≡ errors.old) }
    ensures failed { IfErr result (λ fault. fault ≡ WriteFault → HasFailed (failures_of errors.old) (failures_of errors.new)) }
    ensures fault { IfErr result (λ fault. fault ≢ ReadFault) }
{
    match refusal {
        Refusal::Full => refuse_inputs(errors),
        Refusal::NoPlace | Refusal::Write | Refusal::NoMemory => Err(StreamFault::NoMemory),
    }
}
