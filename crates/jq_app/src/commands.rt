// The command: its words, its input and its two outputs.
ghost use Rattle.std.specs.Prelude.{◌≡◌, IfErr, map, string_bytes};
ghost use Rattle.jq_devices.specs.Watched.{failures_of};
ghost use Rattle.jq_app.specs.Blaming.{IsBlamed, failures};
ghost use Rattle.jq_app.specs.Commands.{HasRunWords};
ghost use Rattle.jq_app.specs.Served.{ReadsTheStandardInput, WordsNeedInput};
ghost use Rattle.jq_app.specs.private.Calls.{OnFilesFault, OnFilesStatus};
ghost use Rattle.jq_app.specs.private.Commands.{AreWordsServed, AreWordsStopped, HasReported};

use crate::counts::Counts;
use crate::notes::{asks_for_notes, fault_note, usage_note};
use crate::refusals::{refuse_words, write_text};
use crate::serving::{Ended, run_config};
use crate::words::report_noted;
use jq_cli::{HELP_TEXT, UsageFault, VERSION_TEXT, config_of};
use jq_devices::{FileReader, Opener, Read, StreamFault, UnnamedFiles, Watched, Write};
use jq_run::refuse;
use jq_stream::Streams;
use std::alloc::Global;

/// What is left of a command: the status of the process, the counts of its starts, the reader of the files that its words name,
/// and its other devices.
#[derive(Drop)]
pub struct Finished<'a, F: Opener, R: Read, O: Write, E: Write> {
    pub status: u8,
    pub counts: Counts,
    pub files: Watched<FileReader<'a, F>>,
    pub streams: Streams<R, O, E>,
}

/// Runs the command with the words after the program's name, reports a fault on standard error, and returns the status of
/// the process (manual of jq 1.7, "Invoking jq").
///
/// The files that the words name are read one after the other: they are the input in place of the standard input, or with
/// `--live` the first inputs of a session, whose script is the standard input. A file that cannot be opened is a read fault when
/// the reader reaches it. The standard input is read only if the words ask for a filter that is accepted and, without `--live`,
/// name no file and the filter runs on inputs. If the words ask for help or for the version, that text is written in place of a
/// run. If a fault's line cannot be written either, the fault is not reported. A read fault is reported only if the files or the
/// standard input failed, and a write fault only if one of the outputs failed.
///
/// The counts of starts and the reader of the files come back: the starts of a session are counted there, and what the reader has
/// left was not read.
///
/// If `--explain` is one of the words, standard error may have notes after its lines. Without them, the bytes on it are those of
/// the same command without notes.
pub fn run_words<'a, F: Opener, R: Read, O: Write, E: Write>(
    alloc: Global,
    words: Vec<String>,
    counts: Counts,
    files: UnnamedFiles<'a, F>,
    streams: Streams<R, O, E>,
) -> Finished<'a, F, R, O, E>
    ensures served { HasRunWords F.Opener F.File.Read words.items files.entry counts streams result }
    ensures unread { ¬ (ReadsTheStandardInput (map string_bytes words.items)) → result.streams.input ≡ streams.input }
{
    let asks = asks_for_notes(words.as_slice());
    if !asks {
        return run_reported(alloc, words, counts, files, streams);
    }
    let Finished {
        status,
        counts,
        files,
        streams,
    } = run_reported(alloc, words, counts, files, streams.noting(alloc));
    Finished {
        status,
        counts,
        files,
        streams: streams.into_noted(),
    }
}

// Runs the command with its words, and reports a fault.
fn run_reported<'a, F: Opener, R: Read, O: Write, E: Write>(
    alloc: Global,
    words: Vec<String>,
    counts: Counts,
    files: UnnamedFiles<'a, F>,
    streams: Streams<R, O, E>,
) -> Finished<'a, F, R, O, E>
    ensures served { HasReported F.Opener F.File.Read words.items files.entry counts streams result }
    ensures unread { ¬ (ReadsTheStandardInput (map string_bytes words.items)) → result.streams.input ≡ streams.input }
{
    let Ended {
        result,
        counts,
        files,
        streams,
    } = run_command(alloc, words, counts, files, streams);
    match result {
        Ok(status) => Finished {
            status,
            counts,
            files,
            streams,
        },
        Err(fault) => {
            let mut streams = streams;
            let note = fault_note(alloc, fault, &files, &streams);
            let status = report_noted(fault, note.as_deref(), &mut streams.outputs.errors);
            Finished {
                status,
                counts,
                files,
                streams,
            }
        }
    }
}

// Runs the command with its words.
fn run_command<'a, F: Opener, R: Read, O: Write, E: Write>(
    alloc: Global,
    words: Vec<String>,
    counts: Counts,
    files: UnnamedFiles<'a, F>,
    streams: Streams<R, O, E>,
) -> Ended<'a, F, R, O, E>
    ensures served { OnFilesStatus F.Opener F.File.Read files.entry counts streams result (AreWordsServed words.items) }
    ensures stopped { OnFilesFault F.Opener F.File.Read files.entry counts streams result (AreWordsStopped words.items) }
    ensures blamed { IfErr result.result (λ fault. IsBlamed fault (failures 0 streams) (failures (failures_of result.files) result.streams)) }
    ensures unread { ¬ (WordsNeedInput (map string_bytes words.items)) → result.streams.input ≡ streams.input }
{
    let note = usage_note(alloc, words.as_slice());
    let mut streams = streams;
    match config_of(alloc, words) {
        Ok(config) => run_config(alloc, config, counts, files, streams),
        Err(UsageFault::Help) => Ended {
            result: write_text(HELP_TEXT, &mut streams.outputs.output),
            counts,
            files: unread(alloc, files),
            streams,
        },
        Err(UsageFault::Version) => Ended {
            result: write_text(VERSION_TEXT, &mut streams.outputs.output),
            counts,
            files: unread(alloc, files),
            streams,
        },
        Err(UsageFault::Usage) => Ended {
            result: refuse_words(note, &mut streams.outputs.errors),
            counts,
            files: unread(alloc, files),
            streams,
        },
        Err(UsageFault::Line(text)) => Ended {
            result: refuse(text.as_bytes(), 2, None, &mut streams.outputs.errors),
            counts,
            files: unread(alloc, files),
            streams,
        },
        Err(UsageFault::NoMemory) => Ended {
            result: Err(StreamFault::NoMemory),
            counts,
            files: unread(alloc, files),
            streams,
        },
    }
}

// The reader of a command that names no file.
fn unread<'a, F: Opener>(alloc: Global, files: UnnamedFiles<'a, F>) -> Watched<FileReader<'a, F>> {
    Watched::new(files.named(Vec::new(alloc)))
}
