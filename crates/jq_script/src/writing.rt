// Answers are written.
ghost use Rattle.std.specs.Prelude.{◌≡◌, ◌≢◌, ◌++◌, IfErr, IfOk, OnErr, OnOk};
ghost use Rattle.std.specs.Io.KnownBytes.{Appends};
ghost use Rattle.jq_devices.specs.Watched.{HasFailed, device_of, failures_of};
ghost use Rattle.jq_devices.specs.Writing.{AppendsFirst};
ghost use Rattle.jq_devices.specs.declared.faults.StreamFault.TheVariants.{Read as ReadFault, Write as WriteFault};
ghost use Rattle.jq_session.specs.Sessions.{state_of};
ghost use Rattle.jq_session.specs.States.{outcome};
ghost use Rattle.jq_script.specs.Answers.{answer_line, changes, err_answer, out_answer, spaced, splice_answer};
ghost use Rattle.jq_script.specs.private.Replies.{answer_of, made_answer, moved_answer};

use crate::replies::{Reply, refused_line};
use itoa::Buffer;
use jq_devices::{StreamFault, Watched, Write, write};
use jq_pages::Splice;
use jq_session::{Follow, Session};
use jv_data::NoMemory;
use std::alloc::Global;

/// Writes an answer and flushes the writer. With `follow`, that to an edit, a move or another filter has what it changed. After a
/// fault, the first bytes of the answer were written. A refusal allocates nothing.
pub(crate) fn write_reply<W: Write>(
    alloc: Global,
    follow: bool,
    reply: &Reply,
    session: &Session,
    output: &mut Watched<W>,
) -> Result<(), StreamFault>
    ensures ok { OnOk result (Appends (W.contents (device_of output.old)) (W.contents (device_of output.new)) (answer_of follow reply.now (state_of session.now))) }
    ensures err { OnErr result (AppendsFirst (W.contents (device_of output.old)) (W.contents (device_of output.new)) (answer_of follow reply.now (state_of session.now))) }
    ensures unfailed { OnOk result (failures_of output.new ≡ failures_of output.old) }
    ensures failed { IfErr result (λ fault. fault ≡ WriteFault → HasFailed (failures_of output.old) (failures_of output.new)) }
    ensures fault { IfErr result (λ fault. fault ≢ ReadFault) }
{
    match reply {
        Reply::Made(made) => write_made(alloc, follow, made, output),
        Reply::Moved(removal, insertion) => write_moved(alloc, follow, removal, insertion, output),
        Reply::Refused(refused) => write(output, refused_line(refused)),
        Reply::Output => write_output(alloc, session, output),
        Reply::Errors => write_errors(alloc, session, output),
        Reply::Status => write_number(alloc, b"status", u128::from(session.status()), output),
    }
}

// Writes the answer to an accepted edit or filter, all of it at once.
fn write_made<W: Write>(
    alloc: Global,
    follow: bool,
    made: &Follow,
    output: &mut Watched<W>,
) -> Result<(), StreamFault>
    ensures ok { OnOk result (Appends (W.contents (device_of output.old)) (W.contents (device_of output.new)) (made_answer follow made.now)) }
    ensures err { OnErr result (AppendsFirst (W.contents (device_of output.old)) (W.contents (device_of output.new)) (made_answer follow made.now)) }
    ensures unfailed { OnOk result (failures_of output.new ≡ failures_of output.old) }
    ensures failed { IfErr result (λ fault. fault ≡ WriteFault → HasFailed (failures_of output.old) (failures_of output.new)) }
    ensures fault { IfErr result (λ fault. fault ≢ ReadFault) }
{
    let answer = made_answer(alloc, follow, made)?;
    write(output, &answer)
}

// Writes the answer to an accepted move, all of it at once.
fn write_moved<W: Write>(
    alloc: Global,
    follow: bool,
    removal: &Follow,
    insertion: &Follow,
    output: &mut Watched<W>,
) -> Result<(), StreamFault>
    ensures ok { OnOk result (Appends (W.contents (device_of output.old)) (W.contents (device_of output.new)) (moved_answer follow removal.now insertion.now)) }
    ensures err { OnErr result (AppendsFirst (W.contents (device_of output.old)) (W.contents (device_of output.new)) (moved_answer follow removal.now insertion.now)) }
    ensures unfailed { OnOk result (failures_of output.new ≡ failures_of output.old) }
    ensures failed { IfErr result (λ fault. fault ≡ WriteFault → HasFailed (failures_of output.old) (failures_of output.new)) }
    ensures fault { IfErr result (λ fault. fault ≢ ReadFault) }
{
    let answer = moved_answer(alloc, follow, removal, insertion)?;
    write(output, &answer)
}

fn made_answer(alloc: Global, follow: bool, made: &Follow) -> Result<Vec<u8>, NoMemory>
    ensures { IfOk result (λ answer. answer.items ≡ made_answer follow made.now) }
{
    let mut answer = number_line(alloc, b"ok", u128::from(made.status))?;
    if !follow {
        return Ok(answer);
    }
    add_changes(&mut answer, made)?;
    Ok(answer)
}

fn moved_answer(
    alloc: Global,
    follow: bool,
    removal: &Follow,
    insertion: &Follow,
) -> Result<Vec<u8>, NoMemory>
    ensures { IfOk result (λ answer. answer.items ≡ moved_answer follow removal.now insertion.now) }
{
    let mut answer = number_line(alloc, b"ok", u128::from(insertion.status))?;
    if !follow {
        return Ok(answer);
    }
    add_changes(&mut answer, removal)?;
    add_changes(&mut answer, insertion)?;
    Ok(answer)
}

fn add_changes(answer: &mut Vec<u8>, made: &Follow) -> Result<(), NoMemory>
    ensures { OnOk result (answer.new.items ≡ answer.old.items ++ changes made.now) }
{
    add_splice(answer, b"out", &made.out)?;
    add_splice(answer, b"err", &made.err)?;
    Ok(())
}

fn add_splice(answer: &mut Vec<u8>, word: &[u8], splice: &Splice) -> Result<(), NoMemory>
    ensures { OnOk result (answer.new.items ≡ answer.old.items ++ splice_answer word.now splice.now) }
{
    answer.extend_from_slice(word)?;
    add_number(answer, splice.at)?;
    add_number(answer, splice.cut)?;
    add_number(answer, splice.put.len() as u128)?;
    answer.push(b'\n')?;
    answer.extend_from_slice(&splice.put)?;
    Ok(())
}

fn write_output<W: Write>(
    alloc: Global,
    session: &Session,
    output: &mut Watched<W>,
) -> Result<(), StreamFault>
    ensures ok { OnOk result (Appends (W.contents (device_of output.old)) (W.contents (device_of output.new)) (out_answer (outcome (state_of session.now)).output)) }
    ensures err { OnErr result (AppendsFirst (W.contents (device_of output.old)) (W.contents (device_of output.new)) (out_answer (outcome (state_of session.now)).output)) }
    ensures unfailed { OnOk result (failures_of output.new ≡ failures_of output.old) }
    ensures failed { IfErr result (λ fault. fault ≡ WriteFault → HasFailed (failures_of output.old) (failures_of output.new)) }
    ensures fault { IfErr result (λ fault. fault ≢ ReadFault) }
{
    write_number(alloc, b"out", session.out_len(), output)?;
    session.write_out(output).map_err(|_| StreamFault::Write)
}

fn write_errors<W: Write>(
    alloc: Global,
    session: &Session,
    output: &mut Watched<W>,
) -> Result<(), StreamFault>
    ensures ok { OnOk result (Appends (W.contents (device_of output.old)) (W.contents (device_of output.new)) (err_answer (outcome (state_of session.now)).errors)) }
    ensures err { OnErr result (AppendsFirst (W.contents (device_of output.old)) (W.contents (device_of output.new)) (err_answer (outcome (state_of session.now)).errors)) }
    ensures unfailed { OnOk result (failures_of output.new ≡ failures_of output.old) }
    ensures failed { IfErr result (λ fault. fault ≡ WriteFault → HasFailed (failures_of output.old) (failures_of output.new)) }
    ensures fault { IfErr result (λ fault. fault ≢ ReadFault) }
{
    write_number(alloc, b"err", session.err_len(), output)?;
    session.write_err(output).map_err(|_| StreamFault::Write)
}

// Writes a word, a number and a newline.
fn write_number<W: Write>(
    alloc: Global,
    word: &[u8],
    number: u128,
    output: &mut Watched<W>,
) -> Result<(), StreamFault>
    ensures ok { OnOk result (Appends (W.contents (device_of output.old)) (W.contents (device_of output.new)) (answer_line word.now number)) }
    ensures err { OnErr result (AppendsFirst (W.contents (device_of output.old)) (W.contents (device_of output.new)) (answer_line word.now number)) }
    ensures unfailed { OnOk result (failures_of output.new ≡ failures_of output.old) }
    ensures failed { IfErr result (λ fault. fault ≡ WriteFault → HasFailed (failures_of output.old) (failures_of output.new)) }
    ensures fault { IfErr result (λ fault. fault ≢ ReadFault) }
{
    let line = number_line(alloc, word, number)?;
    write(output, &line)
}

fn number_line(alloc: Global, word: &[u8], number: u128) -> Result<Vec<u8>, NoMemory>
    ensures { IfOk result (λ line. line.items ≡ answer_line word.now number) }
{
    let mut line = Vec::from_slice(alloc, word)?;
    add_number(&mut line, number)?;
    line.push(b'\n')?;
    Ok(line)
}

// Adds a space and a number.
fn add_number(line: &mut Vec<u8>, number: u128) -> Result<(), NoMemory>
    ensures { OnOk result (line.new.items ≡ line.old.items ++ spaced number) }
{
    line.push(b' ')?;
    line.extend_from_slice(Buffer::new().format(number).as_bytes())?;
    Ok(())
}
