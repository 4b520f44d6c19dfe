// The reply to what is requested of a session.
ghost use Rattle.std.specs.Prelude.{◌≡◌, Ok, IfErr, IfOk, OnErr, OnOk};
ghost use Rattle.jv_data.specs.View.{view};
ghost use Rattle.jq_session.specs.Sessions.{IsRefusal, options_of, starts_of, state_of};
ghost use Rattle.jq_session.specs.Splices.{Follows};
ghost use Rattle.jq_session.specs.Starts.{IsStarted};
ghost use Rattle.jq_session.specs.States.{after};
ghost use Rattle.jq_script.specs.Answers.{refused_answer};
ghost use Rattle.jq_script.specs.Requests as requests;
ghost use Rattle.jq_script.specs.Script.{MayStart, edit_of, fault_number, if_null_fits};
ghost use Rattle.jq_script.specs.private.Reading.{change_in, request_in};
ghost use Rattle.jq_script.specs.private.Replies.{IsObstacle, IsReplied, move_reply, number_in, refused_as, reply_of, unread_as};

use crate::requests::{Change, Request};
use jq_session::{Follow, MOST_INPUTS, Refusal, Session};
use jq_syntax::CompileFault;
use jv_data::Val;
use jv_text::{Fault, read_text};
use std::alloc::Global;

/// Why a line changed nothing.
#[derive(Drop)]
pub(crate) enum Refused {
    Unknown,
    NoPlace,
    BadText,
    Full,
    NoMemory,
    /// The text is no filter.
    Filter(CompileFault),
}

/// The reply to a line.
#[derive(Drop)]
pub(crate) enum Reply {
    /// An edit was made or another filter was taken, which changed this.
    Made(Follow),
    /// An input was moved; its removal and its insertion changed this.
    Moved(Follow, Follow),
    Refused(Refused),
    Output,
    Errors,
    Status,
}

/// The line of a refusal.
pub(crate) fn refused_line(refused: &Refused) -> &'static [u8]
    ensures { result.now ≡ refused_answer (number_in refused.now) }
{
    match refused {
        Refused::Unknown => b"refused 0\n",
        Refused::NoPlace => b"refused 20\n",
        Refused::BadText => b"refused 21\n",
        Refused::Full => b"refused 22\n",
        Refused::NoMemory => b"refused 40\n",
        Refused::Filter(fault) => fault_line(fault),
    }
}

fn fault_line(fault: &CompileFault) -> &'static [u8]
    ensures { result.now ≡ refused_answer (fault_number fault.now) }
{
    match fault {
        CompileFault::Lex { at: _ } => b"refused 10\n",
        CompileFault::Syntax => b"refused 11\n",
        CompileFault::TooManyTokens => b"refused 12\n",
        CompileFault::TooNested => b"refused 13\n",
        CompileFault::Undefined(_) => b"refused 14\n",
        CompileFault::InputsPlace => b"refused 15\n",
        CompileFault::InputsNeedNull => b"refused 16\n",
        CompileFault::NoMemory => b"refused 40\n",
    }
}

/// Does what is requested of a session. A refused edit or move changes nothing.
#[tactic(auto, using(crate::proofs::Starting::none_may))]
pub(crate) fn reply_to(alloc: Global, request: Request<'_>, session: &mut Session) -> Reply
    ensures turn { IsReplied (request_in request.entry) (state_of session.old) (state_of session.new) result }
    ensures starts { MayStart (request_in request.entry) (state_of session.old) (starts_of session.old) (starts_of session.new) }
    ensures options { options_of session.new ≡ options_of session.old }
{
    match request {
        Request::Change(change, text) => make(alloc, change, text, session),
        Request::Remove(place) => made(session.remove(place)),
        Request::Move(k, l) => moved(session.shift(k, l)),
        Request::Show => Reply::Output,
        Request::Errors => Reply::Errors,
        Request::Status => Reply::Status,
        Request::Unknown => Reply::Refused(Refused::Unknown),
    }
}

// Makes an edit with the value of a text. The input's number and the room in the session are checked before the text.
#[tactic(auto, using(crate::proofs::Starting::none_may, crate::proofs::Starting::edit_may))]
fn make(alloc: Global, change: Change, text: &[u8], session: &mut Session) -> Reply
    ensures turn { IsReplied (requests.change (change_in change) text.now) (state_of session.old) (state_of session.new) result }
    ensures starts { MayStart (requests.change (change_in change) text.now) (state_of session.old) (starts_of session.old) (starts_of session.new) }
    ensures options { options_of session.new ≡ options_of session.old }
{
    if let Some(refused) = obstacle(change, session) {
        return Reply::Refused(refused);
    }
    match read_text(alloc, text) {
        Ok(value) => made(edit(change, value, session)),
        Err(fault) => Reply::Refused(unread(&fault)),
    }
}

// Why an edit is refused whose text cannot be read.
fn unread(fault: &Fault) -> Refused
    ensures { result ≡ unread_as fault.now }
{
    match fault {
        Fault::NoMemory => Refused::NoMemory,
        Fault::Malformed { at: _ }
        | Fault::Unfinished { at: _ }
        | Fault::NotWhole { at: _ }
        | Fault::TooDeep { at: _ }
        | Fault::TooLong { at: _ } => Refused::BadText,
    }
}

// Why an edit is refused whatever its value is.
fn obstacle(change: Change, session: &Session) -> Option<Refused>
    ensures { IsObstacle result (if_null_fits (change_in change) (state_of session.now)) }
{
    let count = session.len();
    let has_place = match change {
        Change::Insert(place) => place <= count,
        Change::Replace(place) => place < count,
        Change::Append => true,
    };
    let has_room = matches!(change, Change::Replace(_)) || count < MOST_INPUTS as u64;
    if !has_place {
        Some(Refused::NoPlace)
    } else if !has_room {
        Some(Refused::Full)
    } else {
        None
    }
}

fn edit(change: Change, value: Val, session: &mut Session) -> Result<Follow, Refusal>
    ensures edited { OnOk result (after (edit_of (change_in change) (state_of session.old) (view value)) (state_of session.old) ≡ Ok (state_of session.new)) }
    ensures follow { IfOk result (λ follow. Follows follow (edit_of (change_in change) (state_of session.old) (view value)) (state_of session.old) (state_of session.new)) }
    ensures refused { IfErr result (λ refusal. IsRefusal refusal (after (edit_of (change_in change) (state_of session.old) (view value)) (state_of session.old))) }
    ensures unchanged { OnErr result (state_of session.new ≡ state_of session.old) }
    ensures started { IsStarted (edit_of (change_in change) (state_of session.old) (view value)) (state_of session.old) (starts_of session.old) (starts_of session.new) }
    ensures options { options_of session.new ≡ options_of session.old }
{
    match change {
        Change::Insert(place) => session.insert(place, value),
        Change::Replace(place) => session.replace(place, value),
        Change::Append => session.append(value),
    }
}

// The reply for a session's answer to an edit.
fn made(edited: Result<Follow, Refusal>) -> Reply
    ensures { result ≡ reply_of edited }
{
    match edited {
        Ok(follow) => Reply::Made(follow),
        Err(refusal) => Reply::Refused(refused_for(refusal)),
    }
}

// The reply for a session's answer to a move.
fn moved(shifted: Result<(Follow, Follow), Refusal>) -> Reply
    ensures { result ≡ move_reply shifted }
{
    match shifted {
        Ok((removal, insertion)) => Reply::Moved(removal, insertion),
        Err(refusal) => Reply::Refused(refused_for(refusal)),
    }
}

// An edit and a move write nothing, so there is no refusal because of a write.
fn refused_for(refusal: Refusal) -> Refused
    ensures { result ≡ refused_as refusal }
{
    match refusal {
        Refusal::NoPlace => Refused::NoPlace,
        Refusal::Full => Refused::Full,
        Refusal::Write | Refusal::NoMemory => Refused::NoMemory,
    }
}
