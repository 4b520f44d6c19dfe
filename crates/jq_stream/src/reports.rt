// The report of a text that can't be read.
ghost use Rattle.std.specs.Prelude.{◌≡◌, ◌≢◌, IfErr, IfOk, OnErr, OnOk, string_bytes};
ghost use Rattle.std.specs.Io.KnownBytes.{Appends, Keeps};
ghost use Rattle.jv_data.specs.Text.{text_of};
ghost use Rattle.jv_text.specs.FaultWords.{fault_text};
ghost use Rattle.jq_devices.specs.Watched.{HasFailed, device_of, failures_of};
ghost use Rattle.jq_devices.specs.Writing.{AppendsFirst};
ghost use Rattle.jq_devices.specs.declared.faults.StreamFault.TheVariants.{Read as ReadFault, Write as WriteFault, NoMemory as MemoryFault};
ghost use Rattle.jq_filters.specs.Outcomes.{text_line};

use jq_devices::{StreamFault, Watched, Write, write};
use jv_data::NoMemory;
use jv_text::Fault;
use std::alloc::Global;

/// Reports a text that can't be read on standard error, and returns the status, 2. After a fault of the writer, the first bytes
/// of the line were written.
pub fn report_fault<E: Write>(
    alloc: Global,
    fault: Fault,
    errors: &mut Watched<E>,
) -> Result<u8, StreamFault>
    ensures status { IfOk result (λ status. status ≡ 2) }
    ensures ok { OnOk result (Appends (E.contents (device_of errors.old)) (E.contents (device_of errors.new)) (text_line fault)) }
    ensures err { OnErr result (AppendsFirst (E.contents (device_of errors.old)) (E.contents (device_of errors.new)) (text_line fault)) }
    ensures unfailed { OnOk result (failures_of errors.new ≡ failures_of errors.old) }
    ensures failed { IfErr result (λ fault. fault ≡ WriteFault → HasFailed (failures_of errors.old) (failures_of errors.new)) }
    ensures fault { IfErr result (λ fault. fault ≢ ReadFault) }
{
    let line = text_line(alloc, fault)?;
    write(errors, line.as_bytes())?;
    Ok(2)
}

fn text_line(alloc: Global, fault: Fault) -> Result<String, NoMemory>
    ensures { IfOk result (λ text. string_bytes text ≡ text_line fault) }
{
    Ok(format!(in alloc; "jq: error: {fault}\n")?)
}

/// Where the text begins and what is wrong with it.
pub(crate) fn fault_text(alloc: Global, fault: Fault) -> Result<String, NoMemory>
    ensures bytes { IfOk result (λ text. string_bytes text ≡ fault_text fault) }
    ensures chars { IfOk result (λ text. text_of text ≡ fault_text fault) }
{
    Ok(format!(in alloc; "{fault}")?)
}

/// Notes the number of an input, from 0, and the file that it ends in.
pub(crate) fn note_input<E: Write>(
    alloc: Global,
    number: u64,
    file: Option<&str>,
    errors: &mut Watched<E>,
) -> Result<(), StreamFault>
    ensures kept { Keeps (E.contents (device_of errors.old)) (E.contents (device_of errors.new)) }
    ensures unfailed { OnOk result (failures_of errors.new ≡ failures_of errors.old) }
    ensures memory { IfErr result (λ fault. fault ≡ MemoryFault → failures_of errors.new ≡ failures_of errors.old) }
    ensures failed { IfErr result (λ fault. fault ≡ WriteFault → HasFailed (failures_of errors.old) (failures_of errors.new)) }
    ensures fault { IfErr result (λ fault. fault ≢ ReadFault) }
{
    let text = input_text(alloc, number, file)?;
    errors.note(text.as_str()).map_err(|_| StreamFault::Write)
}

fn input_text(alloc: Global, number: u64, file: Option<&str>) -> Result<String, NoMemory> {
    match file {
        Some(name) => Ok(format!(in alloc; "input {number}, in the file {name}")?),
        None => Ok(format!(in alloc; "input {number}")?),
    }
}
