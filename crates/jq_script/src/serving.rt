// A script is read in pieces, and each of its lines is answered.
ghost use Rattle.std.specs.Prelude.{◌≡◌, ◌≢◌, ◌∷◌, ℕ, List, [], IfErr, OnErr, OnOk};
ghost use Rattle.jq_devices.specs.Watched.{HasFailed, failures_of};
ghost use Rattle.jq_devices.specs.declared.faults.StreamFault.TheVariants.{Read as ReadFault, Write as WriteFault};
ghost use Rattle.jq_script.specs.Serving.{Answers, AnswersFirst, IsOnePass, IsServed, IsStopped, serving_of};
ghost use Rattle.jq_script.specs.private.Lines.{HasRead, last_line};
ghost use Rattle.jq_script.specs.private.Pieces.{AnswersBytes, AnswersBytesFirst, progress_of};

use crate::host::Host;
use crate::instructions::carry_out;
use crate::lines::Line;
use crate::parts::around;
use crate::writing::write_reply;
use jq_devices::{Read, StreamFault, Watched, Write, read_buffer, read_fault};
use std::alloc::Global;

/// Serves the lines of a script from the input. Each line's answer is written and flushed before more is read. With `follow`, the
/// answer to an accepted edit or filter tells what it changed in the output and in the errors.
///
/// An edit and another filter start filters no more often than `Session` allows; no other line starts one. If memory runs out in
/// an edit or for another filter, the line is refused, and the lines after it are served. A line over the limit is read to its
/// end, and no more than the limit is kept of it. The input ends when a read returns no bytes, and is not read again. Every error
/// of a read or a write is a failure, including an interrupted call. After a fault, the answers to all lines but those that end in
/// the last piece that was read were written.
pub fn serve<R: Read, W: Write>(
    alloc: Global,
    follow: bool,
    host: &mut Host,
    input: &mut Watched<R>,
    output: &mut Watched<W>,
) -> Result<(), StreamFault>
    ensures served { OnOk result (IsServed follow
        (serving_of R.remaining W.contents input.old output.old host.old) (serving_of R.remaining W.contents input.new output.new host.new)) }
    ensures stopped { IfErr result (λ fault. IsStopped follow fault
        (serving_of R.remaining W.contents input.old output.old host.old) (serving_of R.remaining W.contents input.new output.new host.new)) }
    ensures one_pass { OnErr result (IsOnePass follow
        (serving_of R.remaining W.contents input.old output.old host.old) (serving_of R.remaining W.contents input.new output.new host.new)) }
    ensures read_failed { IfErr result (λ fault. fault ≡ ReadFault → HasFailed (failures_of input.old) (failures_of input.new)) }
    ensures write_failed { IfErr result (λ fault. fault ≡ WriteFault → HasFailed (failures_of output.old) (failures_of output.new)) }
{
    let mut piece = read_buffer(alloc)?;
    let mut line = Line::new(alloc);
    loop {
        match input.read(&mut piece) {
            Ok(0) => return serve_last(alloc, follow, &line, host, output),
            Ok(len) => serve_bytes(alloc, follow, &piece[..len], &mut line, host, output)?,
            Err(error) => return Err(read_fault(&error)),
        }
    }
}

// Answers the lines that end in these bytes, and keeps the bytes after them.
fn serve_bytes<W: Write>(
    alloc: Global,
    follow: bool,
    bytes: &[u8],
    line: &mut Line,
    host: &mut Host,
    output: &mut Watched<W>,
) -> Result<(), StreamFault>
    ensures ok { OnOk result (AnswersBytes follow bytes.now line.old line.new
        (progress_of W.contents output.old host.old) (progress_of W.contents output.new host.new)) }
    ensures err { OnErr result (AnswersBytesFirst follow bytes.now line.old
        (progress_of W.contents output.old host.old) (progress_of W.contents output.new host.new)) }
    ensures unfailed { OnOk result (failures_of output.new ≡ failures_of output.old) }
    ensures failed { IfErr result (λ fault. fault ≡ WriteFault → HasFailed (failures_of output.old) (failures_of output.new)) }
    ensures fault { IfErr result (λ fault. fault ≢ ReadFault) }
{
    let mut rest = bytes;
    while let Some((end, others)) = around(b'\n', rest) {
        line.add(end)?;
        serve_line(alloc, follow, line, host, output)?;
        line.clear();
        rest = others;
    }
    line.add(rest)?;
    Ok(())
}

// Answers the last line, if the script does not end with a newline.
fn serve_last<W: Write>(
    alloc: Global,
    follow: bool,
    line: &Line,
    host: &mut Host,
    output: &mut Watched<W>,
) -> Result<(), StreamFault>
    ensures ok { OnOk result ((last : List ℕ) → HasRead line.now last
        → Answers follow (last_line last) (progress_of W.contents output.old host.old) (progress_of W.contents output.new host.new)) }
    ensures err { OnErr result ((last : List ℕ) → HasRead line.now last
        → AnswersFirst follow (last_line last) (progress_of W.contents output.old host.old) (progress_of W.contents output.new host.new)) }
    ensures unfailed { OnOk result (failures_of output.new ≡ failures_of output.old) }
    ensures failed { IfErr result (λ fault. fault ≡ WriteFault → HasFailed (failures_of output.old) (failures_of output.new)) }
    ensures fault { IfErr result (λ fault. fault ≢ ReadFault) }
{
    if line.is_empty() {
        Ok(())
    } else {
        serve_line(alloc, follow, line, host, output)
    }
}

fn serve_line<W: Write>(
    alloc: Global,
    follow: bool,
    line: &Line,
    host: &mut Host,
    output: &mut Watched<W>,
) -> Result<(), StreamFault>
    ensures ok { OnOk result ((l : List ℕ) → HasRead line.now l
        → Answers follow (l ∷ []) (progress_of W.contents output.old host.old) (progress_of W.contents output.new host.new)) }
    ensures err { OnErr result ((l : List ℕ) → HasRead line.now l
        → AnswersFirst follow (l ∷ []) (progress_of W.contents output.old host.old) (progress_of W.contents output.new host.new)) }
    ensures unfailed { OnOk result (failures_of output.new ≡ failures_of output.old) }
    ensures failed { IfErr result (λ fault. fault ≡ WriteFault → HasFailed (failures_of output.old) (failures_of output.new)) }
    ensures fault { IfErr result (λ fault. fault ≢ ReadFault) }
{
    let reply = carry_out(alloc, line.instruction(), host);
    write_reply(alloc, follow, &reply, &host.session, output)
}
