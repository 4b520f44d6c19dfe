// What the command does with its configuration.
ghost use Rattle.std.specs.Prelude.{◌≡◌, IfErr, IfOk};
ghost use Rattle.jq_cli.specs.Configuration.{shown};
ghost use Rattle.jq_devices.specs.Watched.{HasFailed, failures_of};
ghost use Rattle.jq_devices.specs.declared.faults.StreamFault.TheVariants.{Read as ReadFault, Write as WriteFault};
ghost use Rattle.jq_stream.specs.Failures.{AnOutputHasFailed};
ghost use Rattle.jq_run.specs.Runs.{IsTextDone, IsTextStopped};
ghost use Rattle.jq_app.specs.Blaming.{IsBlamed, failures};
ghost use Rattle.jq_app.specs.Served.{ReadsInput};
ghost use Rattle.jq_app.specs.private.Calls.{OnFilesFault, OnFilesStatus, over};
ghost use Rattle.jq_app.specs.private.Commands.{IsConfigDone, IsConfigStopped};

use crate::counts::Counts;
use crate::sessions::run_session;
use jq_cli::Config;
use jq_devices::{FileReader, Opener, Read, StreamFault, UnnamedFiles, Watched, Write};
use jq_run::run_filter;
use jq_stream::Streams;
use jq_syntax::Options;
use std::alloc::Global;

/// What a command returns, with the counts of its starts, the reader of its files and its other devices.
#[derive(Drop)]
pub(crate) struct Ended<'a, F: Opener, R: Read, O: Write, E: Write> {
    pub(crate) result: Result<u8, StreamFault>,
    pub(crate) counts: Counts,
    pub(crate) files: Watched<FileReader<'a, F>>,
    pub(crate) streams: Streams<R, O, E>,
}

/// Compiles the filter of a configuration, runs it over the files or the standard input or serves a session, and returns the
/// status of the process.
pub(crate) fn run_config<'a, F: Opener, R: Read, O: Write, E: Write>(
    alloc: Global,
    config: Config,
    counts: Counts,
    files: UnnamedFiles<'a, F>,
    streams: Streams<R, O, E>,
) -> Ended<'a, F, R, O, E>
    ensures done { OnFilesStatus F.Opener F.File.Read files.entry counts streams result (IsConfigDone config) }
    ensures stopped { OnFilesFault F.Opener F.File.Read files.entry counts streams result (IsConfigStopped config) }
    ensures blamed { IfErr result.result (λ fault. IsBlamed fault (failures 0 streams) (failures (failures_of result.files) result.streams)) }
    ensures unread { ¬ (ReadsInput (shown config)) → result.streams.input ≡ streams.input }
{
    let Config {
        options,
        filter,
        files: names,
        live,
        follow,
        explain,
    } = config;
    if explain {
        streams.outputs.errors.take_notes();
    }
    let text = filter.as_str();
    let no_file = names.as_slice().is_empty();
    let mut files = Watched::new(files.named(names));
    let mut counts = counts;
    let mut streams = streams;
    if live {
        let (result, counts) = run_session(
            alloc,
            text,
            options,
            follow,
            counts,
            &mut files,
            &mut streams,
        );
        return Ended {
            result,
            counts,
            files,
            streams,
        };
    }
    if no_file {
        let result = run_filter(alloc, text, options, &mut counts.starts, &mut streams);
        return Ended {
            result,
            counts,
            files,
            streams,
        };
    }
    run_over_files(alloc, text, options, counts, files, streams)
}

// Runs a filter over the files: they are the input, and the outputs are those of the command.
fn run_over_files<'a, F: Opener, R: Read, O: Write, E: Write>(
    alloc: Global,
    text: &str,
    options: Options,
    counts: Counts,
    files: Watched<FileReader<'a, F>>,
    streams: Streams<R, O, E>,
) -> Ended<'a, F, R, O, E>
    ensures done { IfOk result.result (λ status. IsTextDone options text.now status (over F.Opener F.File.Read files.entry streams) (over F.Opener F.File.Read result.files result.streams)) }
    ensures stopped { IfErr result.result (λ fault. IsTextStopped options text.now fault (over F.Opener F.File.Read files.entry streams) (over F.Opener F.File.Read result.files result.streams)) }
    ensures read_failed { IfErr result.result (λ fault. fault ≡ ReadFault → HasFailed (failures_of files.entry) (failures_of result.files)) }
    ensures write_failed { IfErr result.result (λ fault. fault ≡ WriteFault → AnOutputHasFailed streams.failures.outputs result.streams.failures.outputs) }
    ensures input { result.streams.input ≡ streams.input }
    ensures remaining { result.streams.bytes.remaining ≡ streams.bytes.remaining }
{
    let mut counts = counts;
    let Streams { input, outputs } = streams;
    let mut over_files = Streams {
        input: files,
        outputs,
    };
    let result = run_filter(alloc, text, options, &mut counts.starts, &mut over_files);
    let Streams {
        input: files,
        outputs,
    } = over_files;
    Ended {
        result,
        counts,
        files,
        streams: Streams { input, outputs },
    }
}
