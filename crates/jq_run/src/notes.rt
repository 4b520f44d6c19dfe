// The notes of `--explain` on a filter that is refused.
ghost use Rattle.std.specs.Prelude.{◌≡◌, ◌≤◌, IfErr, OnErr, OnOk};
ghost use Rattle.std.specs.Io.KnownBytes.{Keeps};
ghost use Rattle.jq_devices.specs.Watched.{HasFailed, device_of, failures_of};
ghost use Rattle.jq_devices.specs.declared.faults.StreamFault.TheVariants.{Write as WriteFault};

use crate::builtins::{KNOWN, LEFT_OUT};
use jq_devices::{StreamFault, Watched, Write};
use jq_resolver::Undefined;
use jq_syntax::{CompileFault, SyntaxPlace, place_of_syntax_error};
use jv_data::NoMemory;
use std::alloc::Global;
use strsim::levenshtein;

/// Puts the note after the line that was written last, if there is a note.
pub fn put_note<E: Write>(text: Option<&str>, errors: &mut Watched<E>) -> Result<(), StreamFault>
    ensures kept { Keeps (E.contents (device_of errors.old)) (E.contents (device_of errors.new)) }
    ensures rising { failures_of errors.old ≤ failures_of errors.new }
    ensures unfailed { OnOk result (failures_of errors.new ≡ failures_of errors.old) }
    ensures failed { OnErr result (HasFailed (failures_of errors.old) (failures_of errors.new)) }
    ensures fault { IfErr result (λ fault. fault ≡ WriteFault) }
{
    match text {
        Some(text) => errors.note(text).map_err(|_| StreamFault::Write),
        None => Ok(()),
    }
}

/// What is known of the name for which this text of a filter is refused, or of the place of its syntax error, if notes are taken;
/// nothing if memory runs out.
pub(crate) fn filter_note(
    alloc: Global,
    takes_notes: bool,
    text: &str,
    fault: &CompileFault,
) -> Option<String> {
    if !takes_notes {
        return None;
    }
    match fault {
        CompileFault::Undefined(name) => name_note(alloc, name).unwrap_or(None),
        CompileFault::Syntax => place_note(alloc, text).unwrap_or(None),
        CompileFault::Lex { at: _ }
        | CompileFault::TooManyTokens
        | CompileFault::TooNested
        | CompileFault::InputsPlace
        | CompileFault::InputsNeedNull
        | CompileFault::NoMemory => None,
    }
}

// Where the grammar refuses a text.
fn place_note(alloc: Global, text: &str) -> Result<Option<String>, NoMemory> {
    match place_of_syntax_error(alloc, text)? {
        Some(SyntaxPlace::At(at)) => Ok(Some(format!(in alloc; "at byte {at} of the filter")?)),
        Some(SyntaxPlace::AtEnd) => Ok(Some(String::from_str(alloc, "at the end of the filter")?)),
        None => Ok(None),
    }
}

fn name_note(alloc: Global, name: &Undefined) -> Result<Option<String>, NoMemory> {
    let printed = format!(in alloc; "{name}")?;
    let printed = printed.as_str();
    if is_listed(printed, LEFT_OUT) {
        return Ok(Some(format!(in alloc; "{printed} is in jq and left out of jql: see FROM_JQ")?));
    }
    match name {
        Undefined::Function { name: _, arity } => nearest_note(alloc, printed, *arity),
        Undefined::Variable(_) | Undefined::Label(_) | Undefined::Format(_) => Ok(None),
    }
}

fn nearest_note(alloc: Global, name: &str, arity: usize) -> Result<Option<String>, NoMemory> {
    let end = format!(in alloc; "/{arity}")?;
    match nearest(alloc, name, end.as_str())? {
        Some(near) => Ok(Some(format!(in alloc; "the nearest name is {near}")?)),
        None => Ok(None),
    }
}

fn is_listed(name: &str, names: &str) -> bool {
    for listed in names.split(' ') {
        if listed == name {
            return true;
        }
    }
    false
}

// The first of the nearest functions whose names have this end, if one is at most two edits away.
fn nearest(alloc: Global, name: &str, end: &str) -> Result<Option<&'static str>, NoMemory> {
    let mut near = None;
    let mut least = 3;
    for known in KNOWN.split(' ') {
        if known.ends_with(end) {
            let edits = levenshtein(alloc, name, known)?;
            if edits < least {
                least = edits;
                near = Some(known);
            }
        }
    }
    Ok(near)
}
