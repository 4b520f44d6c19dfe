// All inputs of a stream, read before the run.
ghost use Rattle.std.specs.Prelude.{◌≡◌, ◌≢◌, ℕ, List, [], IfErr, IfOk, OnOk, map, true};
ghost use Rattle.jv_data.specs.View.{view};
ghost use Rattle.jv_text.specs.Cutting.{HasGiven, is_finished, fed_count};
ghost use Rattle.jv_text.specs.Stream.{stream};
ghost use Rattle.jq_devices.specs.Watched.{HasFailed, device_of, failures_of};
ghost use Rattle.jq_devices.specs.declared.faults.StreamFault.TheVariants.{Read as ReadFault, Write as WriteFault};
ghost use Rattle.jq_devices.specs.Reading.{IsWhole};
ghost use Rattle.jq_stream.specs.Texts.{EndsAs};
ghost use Rattle.jq_stream.specs.private.Cutting.{GivesUpTo};
ghost use Rattle.jq_stream.specs.private.Gathering.{IsGathered};

use crate::feeding::feed_next;
use jq_devices::{Read, StreamFault, Watched, read_buffer};
use jv_data::{NoMemory, Val};
use jv_text::{Cutter, Fault};
use std::alloc::Global;

/// The values of an input's texts, and the fault that ends them, if one does.
#[derive(Drop)]
pub struct InputTexts {
    pub values: Vec<Val>,
    pub fault: Option<Fault>,
}

/// Reads the values of all texts, up to a faulty one.
pub fn read_texts<R: Read>(alloc: Global, input: &mut Watched<R>) -> Result<InputTexts, StreamFault>
    ensures texts { IfOk result (λ texts. (bytes : List ℕ) × IsWhole bytes (R.remaining (device_of input.old)) × EndsAs (stream true bytes) (map view texts.values.items) texts.fault) }
    ensures unfailed { OnOk result (failures_of input.new ≡ failures_of input.old) }
    ensures failed { IfErr result (λ fault. fault ≡ ReadFault → HasFailed (failures_of input.old) (failures_of input.new)) }
    ensures fault { IfErr result (λ fault. fault ≢ WriteFault) }
{
    let mut values = Vec::new(alloc);
    let fault = gather(alloc, input, &mut values)?;
    Ok(InputTexts { values, fault })
}

/// Reads the values of all texts, up to a faulty one. After a read fault there are the
/// values of the complete texts in front of it.
pub(crate) fn gather<R: Read>(
    alloc: Global,
    input: &mut Watched<R>,
    values: &mut Vec<Val>,
) -> Result<Option<Fault>, StreamFault>
    requires { values.old.items ≡ [] }
    ensures gathered { IsGathered result (map view values.new.items) (R.remaining (device_of input.old)) (R.remaining (device_of input.new)) }
    ensures unfailed { OnOk result (failures_of input.new ≡ failures_of input.old) }
    ensures failed { IfErr result (λ fault. fault ≡ ReadFault → HasFailed (failures_of input.old) (failures_of input.new)) }
    ensures fault { IfErr result (λ fault. fault ≢ WriteFault) }
{
    let mut cutter = Cutter::new(alloc);
    let mut piece = read_buffer(alloc)?;
    loop {
        let ended = feed_next(input, &mut piece, &mut cutter)?;
        if let Some(fault) = keep_ready(&mut cutter, values)? {
            return Ok(Some(fault));
        }
        if ended {
            return Ok(None);
        }
    }
}

// Adds every value that is complete so far, up to a faulty text.
fn keep_ready(cutter: &mut Cutter, values: &mut Vec<Val>) -> Result<Option<Fault>, NoMemory>
    requires { (fed : List ℕ) × HasGiven cutter.old (map view values.old.items) fed }
    ensures given { IfOk result (λ stop. GivesUpTo stop cutter.old cutter.new (map view values.old.items) (map view values.new.items)) }
    ensures finished { is_finished cutter.new ≡ is_finished cutter.old }
    ensures count { fed_count cutter.new ≡ fed_count cutter.old }
{
    loop {
        match cutter.next() {
            Ok(Some(value)) => values.push(value)?,
            Ok(None) => return Ok(None),
            Err(Fault::NoMemory) => return Err(NoMemory),
            Err(fault) => return Ok(Some(fault)),
        }
    }
}
