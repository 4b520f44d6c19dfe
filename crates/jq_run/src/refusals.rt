// The report of why a filter is refused.
ghost use Rattle.std.specs.Prelude.{◌≡◌, ◌≢◌, ◌++◌, Err, IfErr, IfOk, string_bytes, true, false};
ghost use Rattle.jq_syntax.specs.Reasons.{reason};
ghost use Rattle.jq_syntax.specs.declared.faults.CompileFault.TheVariants as compile_fault;
ghost use Rattle.jq_devices.specs.Faults.{line, error_start};
ghost use Rattle.jq_devices.specs.Watched.{HasFailed, device_of, failures_of};
ghost use Rattle.jq_devices.specs.declared.faults.StreamFault.TheVariants.{Read as ReadFault, Write as WriteFault, NoMemory as MemoryFault};
ghost use Rattle.jq_run.specs.Reports.{IsReport};

use crate::notes::{filter_note, put_note};
use jq_devices::{StreamFault, Watched, Write, write};
use jq_syntax::CompileFault;
use jv_data::NoMemory;
use std::alloc::Global;

/// Reports why this text of a filter is refused, and returns the status. If memory ran out, nothing is written.
pub fn refuse_filter<E: Write>(
    alloc: Global,
    text: &str,
    fault: CompileFault,
    errors: &mut Watched<E>,
) -> Result<u8, StreamFault>
    ensures report { IsReport result (line (error_start ++ reason fault)) 3 (E.contents (device_of errors.old)) (E.contents (device_of errors.new)) }
    ensures memory { fault ≡ compile_fault.NoMemory → result ≡ Err MemoryFault }
    ensures failed { IfErr result (λ fault. fault ≡ WriteFault → HasFailed (failures_of errors.old) (failures_of errors.new)) }
    ensures fault { IfErr result (λ fault. fault ≢ ReadFault) }
{
    if is_out_of_memory(&fault) {
        return Err(StreamFault::NoMemory);
    }
    let line = filter_line(alloc, &fault)?;
    let note = filter_note(alloc, errors.takes_notes(), text, &fault);
    refuse(line.as_bytes(), 3, note.as_deref(), errors)
}

// Whether memory ran out.
fn is_out_of_memory(fault: &CompileFault) -> bool
    ensures memory { result ≡ true → fault.now ≡ compile_fault.NoMemory }
    ensures other { result ≡ false → fault.now ≢ compile_fault.NoMemory }
{
    match fault {
        CompileFault::NoMemory => true,
        CompileFault::Lex { at: _ }
        | CompileFault::Syntax
        | CompileFault::TooManyTokens
        | CompileFault::TooNested
        | CompileFault::Undefined(_)
        | CompileFault::InputsPlace
        | CompileFault::InputsNeedNull => false,
    }
}

fn filter_line(alloc: Global, fault: &CompileFault) -> Result<String, NoMemory>
    ensures { IfOk result (λ text. string_bytes text ≡ line (error_start ++ reason fault.now)) }
{
    Ok(format!(in alloc; "jq: error: {fault}\n")?)
}

/// Reports these bytes, puts the note after them, and returns the status.
pub fn refuse<E: Write>(
    bytes: &[u8],
    status: u8,
    note: Option<&str>,
    errors: &mut Watched<E>,
) -> Result<u8, StreamFault>
    ensures report { IsReport result bytes.now status (E.contents (device_of errors.old)) (E.contents (device_of errors.new)) }
    ensures failed { IfErr result (λ fault. fault ≡ WriteFault → HasFailed (failures_of errors.old) (failures_of errors.new)) }
    ensures fault { IfErr result (λ fault. fault ≢ ReadFault) }
{
    write(errors, bytes)?;
    put_note(note, errors)?;
    Ok(status)
}
