// A buffer to read through, the fault of a read, and the write of all bytes. Every error of a read or a write is a failure,
// including an interrupted call.
ghost use Rattle.std.specs.Prelude.{◌≡◌, ◌≢◌, ◌≤◌, true, vec_len, IfOk, IfErr, OnOk, OnErr};
ghost use Rattle.std.specs.Io.KnownBytes.{Appends};
ghost use Rattle.jq_devices.specs.Faults.{IsReadFault};
ghost use Rattle.jq_devices.specs.Watched.{HasFailed, device_of, failures_of};
ghost use Rattle.jq_devices.specs.Writing.{AppendsFirst, IsFlushed};
ghost use Rattle.jq_devices.specs.declared.faults.StreamFault.TheVariants.{Write as WriteFault};

use crate::watched::Watched;
use crate::{StreamFault, Write};
use jv_data::NoMemory;
use std::alloc::Global;
use std::io;
use std::io::ErrorKind;

// How many bytes one read asks for.
const PIECE: usize = 65_536;

/// A buffer for one read.
pub fn read_buffer(alloc: Global) -> Result<Vec<u8>, NoMemory>
    ensures { IfOk result (λ buffer. vec_len buffer ≡ 65536) }
{
    Ok(vec![in alloc; 0; PIECE]?)
}

/// The fault for an error of a read: `NoMemory` if the reader itself ran out of memory, and `Read` for every other error,
/// also if the operating system reports that it has no memory.
pub fn read_fault(error: &io::Error) -> StreamFault
    ensures fault { IsReadFault error.now result }
    ensures unwritten { result ≢ WriteFault }
{
    if error.kind() == ErrorKind::OutOfMemory && error.raw_os_error().is_none() {
        StreamFault::NoMemory
    } else {
        StreamFault::Read
    }
}

/// Writes all the bytes and flushes the writer. After a fault a first part of them was written: perhaps none, or all.
pub fn write<W: Write>(writer: &mut Watched<W>, bytes: &[u8]) -> Result<(), StreamFault>
    ensures ok { OnOk result (Appends (W.contents (device_of writer.old)) (W.contents (device_of writer.new)) bytes.now) }
    ensures err { OnErr result (AppendsFirst (W.contents (device_of writer.old)) (W.contents (device_of writer.new)) bytes.now) }
    ensures kept { failures_of writer.old ≤ failures_of writer.new }
    ensures unfailed { OnOk result (failures_of writer.new ≡ failures_of writer.old) }
    ensures failed { OnErr result (HasFailed (failures_of writer.old) (failures_of writer.new)) }
    ensures fault { IfErr result (λ fault. fault ≡ WriteFault) }
    ensures flushed { OnOk result (IsFlushed (W.contents (device_of writer.new)) (W.flushed (device_of writer.new))) }
    ensures blamed { OnErr result (W.has_failed (device_of writer.new) ≡ true) }
{
    let mut rest = bytes;
    while !rest.is_empty() {
        match writer.write(rest) {
            Ok(0) | Err(_) => return Err(StreamFault::Write),
            Ok(len) => rest = rest.split_at(len).1,
        }
    }
    writer.flush().map_err(|_| StreamFault::Write)
}
