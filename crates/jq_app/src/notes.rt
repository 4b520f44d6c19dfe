// The notes of `--explain`, which say what a line on standard error does not.
ghost use Rattle.std.specs.Prelude.{◌≡◌, map, string_bytes};
ghost use Rattle.jq_app.specs.Explained.{asks_for_notes, is_explain};

use jq_cli::{UsageFault, take_args};
use jq_devices::{FileReader, Opener, Read, StreamFault, Watched, Write};
use jq_stream::Streams;
use jv_data::NoMemory;
use std::alloc::Global;
use std::io::Error;

/// Whether one of the words is the option.
pub(crate) fn asks_for_notes(words: &[String]) -> bool
    ensures { result ≡ asks_for_notes (map string_bytes words.now) }
{
    words.iter().any(|word| is_explain(word.as_str()))
}

fn is_explain(word: &str) -> bool
    ensures { result ≡ is_explain word.now }
{
    word == "--explain"
}

/// Which check of the words fails if they are no command line; nothing if they do not have the option, or memory runs out.
pub(crate) fn usage_note(alloc: Global, words: &[String]) -> Option<&'static str> {
    if !has_option(words, "--explain") {
        return None;
    }
    let words = copies(alloc, words).ok()?;
    match take_args(alloc, words) {
        Ok((left, _vars)) => Some(clash_note(left.as_slice())),
        Err(UsageFault::NoMemory) => None,
        Err(_) => Some("--arg takes a name and a text, --argjson a name and a JSON text"),
    }
}

// Which options exclude each other.
fn clash_note(words: &[String]) -> &'static str {
    if has_option(words, "--follow") && !has_option(words, "--live") {
        "--follow needs --live"
    } else {
        "-n and -s exclude each other"
    }
}

// Whether a word before the first `--` is this option.
fn has_option(words: &[String], option: &str) -> bool {
    for word in words {
        if word.as_str() == "--" {
            return false;
        }
        if word.as_str() == option {
            return true;
        }
    }
    false
}

fn copies(alloc: Global, words: &[String]) -> Result<Vec<String>, NoMemory> {
    let mut copies = Vec::new(alloc);
    for word in words {
        copies.push(String::from_str(alloc, word.as_str())?)?;
    }
    Ok(copies)
}

// The file that could not be read, and the system's reason.
fn file_note<O: Opener>(alloc: Global, files: &Watched<FileReader<'_, O>>) -> Option<String> {
    let name = files.device().name()?;
    cause_note(alloc, name, files.error())
}

// What failed and the system's reason.
fn cause_note(alloc: Global, name: &str, error: Option<&Error>) -> Option<String> {
    let error = error?;
    format!(in alloc; "{name}: {error}").ok()
}

/// The file, the input or the output that failed, and the system's reason; nothing if standard error takes no notes.
pub(crate) fn fault_note<F: Opener, R: Read, O: Write, E: Write>(
    alloc: Global,
    fault: StreamFault,
    files: &Watched<FileReader<'_, F>>,
    streams: &Streams<R, O, E>,
) -> Option<String> {
    if !streams.outputs.errors.takes_notes() {
        return None;
    }
    match fault {
        StreamFault::Read => match file_note(alloc, files) {
            Some(note) => Some(note),
            None => cause_note(alloc, "standard input", streams.input.error()),
        },
        StreamFault::Write => cause_note(alloc, "standard output", streams.outputs.output.error()),
        StreamFault::NoMemory => None,
    }
}
