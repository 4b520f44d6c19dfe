// The words of the process, and the report of a fault that ends it.
ghost use Rattle.std.specs.Prelude.{◌≡◌, ◌≤◌};
ghost use Rattle.jq_devices.specs.Faults.{fault_line};
ghost use Rattle.jq_devices.specs.Watched.{device_of, failures_of};
ghost use Rattle.jq_app.specs.Blaming.{IsWritten};
ghost use Rattle.jq_app.specs.Served.{usage};

use crate::refusals::USAGE;
use jq_devices::{StreamFault, Watched, Write, write};
use jq_run::put_note;
use std::env;
use std::io::ErrorKind;
use std::rt::Env;

/// The words after the program's name, or none if one of them is not UTF-8: the command takes no such word. The only
/// fault is `NoMemory`.
pub fn arguments<S: Env + AllocGlobal>(rt: &S) -> Result<Option<Vec<String>>, StreamFault> {
    match env::args(rt).and_then(|words| Ok(words.skip(1).collect(rt.alloc())?)) {
        Ok(words) => Ok(Some(words)),
        Err(error) if error.kind() == ErrorKind::OutOfMemory => Err(StreamFault::NoMemory),
        Err(_) => Ok(None),
    }
}

/// Reports words that are not UTF-8 on standard error, and returns the status.
pub fn report_misuse<E: Write>(errors: &mut Watched<E>) -> u8
    ensures status { result ≡ 2 }
    ensures reported { IsWritten usage.errors (failures_of errors.old) (failures_of errors.new) (E.contents (device_of errors.old)) (E.contents (device_of errors.new)) }
{
    let _ = write(errors, USAGE);
    2
}

/// Reports a fault on standard error, and returns its status. If its line cannot be
/// written either, the fault is not reported.
pub fn report<E: Write>(fault: StreamFault, errors: &mut Watched<E>) -> u8
    ensures status { result ≡ 2 }
    ensures reported { IsWritten (fault_line fault) (failures_of errors.old) (failures_of errors.new) (E.contents (device_of errors.old)) (E.contents (device_of errors.new)) }
    ensures kept { failures_of errors.old ≤ failures_of errors.new }
{
    let _ = write(errors, fault.line());
    2
}

/// Reports a fault on standard error, puts the note after its line if there is one, and returns its status.
pub(crate) fn report_noted<E: Write>(
    fault: StreamFault,
    note: Option<&str>,
    errors: &mut Watched<E>,
) -> u8
    ensures status { result ≡ 2 }
    ensures reported { IsWritten (fault_line fault) (failures_of errors.old) (failures_of errors.new) (E.contents (device_of errors.old)) (E.contents (device_of errors.new)) }
    ensures kept { failures_of errors.old ≤ failures_of errors.new }
{
    let status = report(fault, errors);
    let _ = put_note(note, errors);
    status
}
