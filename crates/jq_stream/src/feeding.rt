// Feeding a cutter with the bytes of an input, piece by piece.
ghost use Rattle.std.specs.Prelude.{◌≡◌, ◌≤◌, ◌<◌, ◌+◌, ◌^◌, false, length, IfOk, IfErr, OnOk};
ghost use Rattle.jv_text.specs.Cutting.{is_finished, fed_count};
ghost use Rattle.jq_devices.specs.Watched.{device_of, failures_of, reads_left};
ghost use Rattle.jq_stream.specs.private.Feeding.{IsFed, IsUnfed};

use jq_devices::{Read, StreamFault, Watched, read_fault};
use jv_text::Cutter;

/// Feeds the next bytes of the input to the cutter, through the buffer `piece`, and returns whether the input has ended.
pub(crate) fn feed_next<R: Read>(
    input: &mut Watched<R>,
    piece: &mut [u8],
    cutter: &mut Cutter,
) -> Result<bool, StreamFault>
    requires open { is_finished cutter.old ≡ false }
    requires room { 0 < length piece.old }
    requires count { fed_count cutter.old + length piece.old < 2 ^ 64 }
    ensures fed { IfOk result (λ ended. IsFed ended (length piece.old) (R.remaining (device_of input.old)) (R.remaining (device_of input.new)) cutter.old cutter.new) }
    ensures unfed { IfErr result (λ fault. IsUnfed fault (length piece.old)
        (R.remaining (device_of input.old)) (R.remaining (device_of input.new)) (failures_of input.old) (failures_of input.new)) }
    ensures few { reads_left input.old ≤ 2 ^ 40 }
    ensures reads { OnOk result (reads_left input.old ≡ reads_left input.new + 1) }
    ensures unfailed { OnOk result (failures_of input.new ≡ failures_of input.old) }
{
    match input.read(piece) {
        Ok(0) => {
            cutter.finish();
            Ok(true)
        }
        Ok(len) => {
            cutter.feed(&piece[..len])?;
            Ok(false)
        }
        Err(error) => Err(read_fault(&error)),
    }
}
