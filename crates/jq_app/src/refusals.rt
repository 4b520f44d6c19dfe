// What is written in place of a run, by the words alone or by the files of a session.
ghost use Rattle.std.specs.Prelude.{◌≡◌, ◌≢◌, IfErr};
ghost use Rattle.jq_devices.specs.Watched.{HasFailed, device_of, failures_of};
ghost use Rattle.jq_devices.specs.declared.faults.StreamFault.TheVariants.{Read as ReadFault, Write as WriteFault};
ghost use Rattle.jq_run.specs.Reports.{IsReport};
ghost use Rattle.jq_app.specs.Served.{usage};
ghost use Rattle.jq_app.specs.Sessions.{too_many};

use jq_devices::{StreamFault, Watched, Write, write};
use jq_run::refuse;

/// The line for words that are no command line.
pub(crate) const USAGE: &[u8] = b"jq: error: usage\n";

/// Writes a text that the words ask for, and returns the status.
pub(crate) fn write_text<O: Write>(text: &str, output: &mut Watched<O>) -> Result<u8, StreamFault>
    ensures report { IsReport result text.now 0 (O.contents (device_of output.old)) (O.contents (device_of output.new)) }
    ensures failed { IfErr result (λ fault. fault ≡ WriteFault → HasFailed (failures_of output.old) (failures_of output.new)) }
    ensures fault { IfErr result (λ fault. fault ≢ ReadFault) }
{
    write(output, text.as_bytes())?;
    Ok(0)
}

/// Reports that the words are no command line, and returns the status. The errors take notes if there is one.
pub(crate) fn refuse_words<E: Write>(
    note: Option<&str>,
    errors: &mut Watched<E>,
) -> Result<u8, StreamFault>
    ensures report { IsReport result usage.errors 2 (E.contents (device_of errors.old)) (E.contents (device_of errors.new)) }
    ensures failed { IfErr result (λ fault. fault ≡ WriteFault → HasFailed (failures_of errors.old) (failures_of errors.new)) }
    ensures fault { IfErr result (λ fault. fault ≢ ReadFault) }
{
    if note.is_some() {
        errors.take_notes();
    }
    refuse(USAGE, 2, note, errors)
}

/// Reports that there are more first inputs than a session takes, and returns the status.
pub(crate) fn refuse_inputs<E: Write>(errors: &mut Watched<E>) -> Result<u8, StreamFault>
    ensures report { IsReport result too_many.errors 2 (E.contents (device_of errors.old)) (E.contents (device_of errors.new)) }
    ensures failed { IfErr result (λ fault. fault ≡ WriteFault → HasFailed (failures_of errors.old) (failures_of errors.new)) }
    ensures fault { IfErr result (λ fault. fault ≢ ReadFault) }
{
    refuse(b"jq: error: too many inputs\n", 2, None, errors)
}
