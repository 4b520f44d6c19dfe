// The instruction of a line of a script.
ghost use Rattle.std.specs.Prelude.{◌≡◌, ◌≤◌, ℕ, length, true};
ghost use Rattle.std.specs.List.{list_all};
ghost use Rattle.std.specs.Char.{is_ascii_digit};
ghost use Rattle.std.specs.Str.Parse.{digits_value};
ghost use Rattle.jq_script.specs.Requests.{around_space, change_by, command, instruction_of, instruction_with, place_of, move_by, remove_at, word_alone, line_limit, insert, replace};
ghost use Rattle.jq_script.specs.private.Reading.{changing, instruction_in, moving, request_in};
ghost use Rattle.jq_script.specs.Requests as requests;

use crate::parts::around;

// The most digits of an input's number. Such a number fits in 64 bits.
const DIGITS: usize = 19;

/// An edit with an input.
#[derive(Clone, Copy)]
pub(crate) enum Change {
    Insert(u64),
    Replace(u64),
    Append,
}

/// What is requested of a session with its present filter.
#[derive(Clone, Copy)]
pub(crate) enum Request<'l> {
    Change(Change, &'l [u8]),
    Remove(u64),
    Move(u64, u64),
    Show,
    Errors,
    Status,
    Unknown,
}

/// The instruction of a line.
#[derive(Clone, Copy)]
pub(crate) enum Instruction<'l> {
    Request(Request<'l>),
    /// Another filter.
    Filter(&'l [u8]),
}

/// The instruction of a line that is not over the limit.
pub(crate) fn instruction_of(line: &[u8]) -> Instruction<'_>
    requires { length line.now ≤ line_limit }
    ensures { instruction_in result ≡ instruction_of line.now }
{
    match around(b' ', line) {
        Some((word, rest)) => instruction_with(word, rest),
        None => Instruction::Request(word_alone(line)),
    }
}

fn instruction_with<'l>(word: &[u8], rest: &'l [u8]) -> Instruction<'l>
    ensures { instruction_in result ≡ instruction_with word.now rest.now }
{
    if word == b"filter".as_slice() {
        Instruction::Filter(rest)
    } else {
        Instruction::Request(command(word, rest))
    }
}

fn command<'l>(word: &[u8], rest: &'l [u8]) -> Request<'l>
    ensures { request_in result ≡ command word.now rest.now }
{
    if word == b"insert".as_slice() {
        insert(rest)
    } else if word == b"replace".as_slice() {
        replace(rest)
    } else if word == b"remove".as_slice() {
        remove(rest)
    } else if word == b"move".as_slice() {
        move_input(rest)
    } else if word == b"append".as_slice() {
        Request::Change(Change::Append, rest)
    } else {
        Request::Unknown
    }
}

fn word_alone(word: &[u8]) -> Request<'_>
    ensures { request_in result ≡ word_alone word.now }
{
    if word == b"show".as_slice() {
        Request::Show
    } else if word == b"errors".as_slice() {
        Request::Errors
    } else if word == b"status".as_slice() {
        Request::Status
    } else {
        Request::Unknown
    }
}

fn insert(rest: &[u8]) -> Request<'_>
    ensures { request_in result ≡ change_by insert (around_space rest.now) }
{
    match place_and_text(rest) {
        Some((place, text)) => Request::Change(Change::Insert(place), text),
        None => Request::Unknown,
    }
}

fn replace(rest: &[u8]) -> Request<'_>
    ensures { request_in result ≡ change_by replace (around_space rest.now) }
{
    match place_and_text(rest) {
        Some((place, text)) => Request::Change(Change::Replace(place), text),
        None => Request::Unknown,
    }
}

fn remove(rest: &[u8]) -> Request<'_>
    ensures { request_in result ≡ remove_at (place_of rest.now) }
{
    match place_of(rest) {
        Some(place) => Request::Remove(place),
        None => Request::Unknown,
    }
}

fn move_input(rest: &[u8]) -> Request<'_>
    ensures { request_in result ≡ move_by (around_space rest.now) }
{
    match two_places(rest) {
        Some((k, l)) => Request::Move(k, l),
        None => Request::Unknown,
    }
}

// A number, exactly one space, and a number.
fn two_places(rest: &[u8]) -> Option<(u64, u64)>
    ensures { move_by (around_space rest.now) ≡ moving result }
{
    let (first, second) = around(b' ', rest)?;
    Some((place_of(first)?, place_of(second)?))
}

// A number, exactly one space, and a text.
fn place_and_text(rest: &[u8]) -> Option<(u64, &[u8])>
    ensures { (edit : ℕ → requests.Change) → change_by edit (around_space rest.now) ≡ changing edit result }
{
    let (place, text) = around(b' ', rest)?;
    Some((place_of(place)?, text))
}

// The number of an input that a part of a line is.
fn place_of(part: &[u8]) -> Option<u64>
    ensures { result ≡ place_of part.now }
{
    let fits = !part.is_empty() && part.len() <= DIGITS;
    if fits && are_digits(part) {
        Some(number(part))
    } else {
        None
    }
}

fn are_digits(part: &[u8]) -> bool
    ensures { result ≡ list_all is_ascii_digit part.now }
{
    part.iter().all(|byte| byte.is_ascii_digit())
}

// The number with these digits, which are at most 19.
fn number(digits: &[u8]) -> u64
    requires few { length digits.now ≤ 19 }
    requires all { list_all is_ascii_digit digits.now ≡ true }
    ensures { result ≡ digits_value 10 digits.now }
{
    let mut number = 0;
    for digit in digits {
        number = number * 10 + u64::from(digit - b'0');
    }
    number
}
