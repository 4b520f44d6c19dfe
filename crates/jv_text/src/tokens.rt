// Reading a value from the tokens of a text.
ghost use Rattle.std.specs.Prelude.{◌≡◌, ◌<◌, [], length, Some, IfOk, IfSome, OnOk, option_map, option_and_then, true, false};
ghost use Rattle.serde_json.specs.Find.{as_i64};
ghost use Rattle.serde_json.specs.Read.{number_of, number_from};
ghost use Rattle.json.specs.Json.{value, items, members};
ghost use Rattle.jv_data.specs.Value.{Value};
ghost use Rattle.jv_data.specs.Held.{members_in};
ghost use Rattle.jv_data.specs.View.{view, items_view};
ghost use Rattle.jv_cut.specs.declared.nesting.Quote.TheVariants.{Outside};
ghost use Rattle.jv_text.specs.Numbers.{run_text, whole_numbers};
ghost use Rattle.jv_text.specs.Plain.{plain_value};
ghost use Rattle.jv_text.specs.private.PlainTokens.{KeepsPlain, IsPlainNumber, IsSmallText};
ghost use Rattle.jv_text.specs.private.Tokens.{IsValueRead, AreItemsRead, AreMembersRead};

use crate::numbers::{has_minus, is_printed, short_number};
use crate::reading::Unread;
use fast_float::Numeral;
use json::{Reader, Scratch, Token};
use jv_data::{Array, Draft, KnownNames, Object, Val};
use std::alloc::Global;
use std::str;

// How many arrays and objects may be nested.
const MAX_NESTING: usize = 127;

// The length of `-` and 18 digits.
const SMALL: usize = 19;

// The buffer of a text of at most this many bytes is kept for the texts after it.
const KEPT_ROOM: usize = 1_048_576;

/// What is kept from one text to the next: the buffer that each text is read in, and the names of objects.
#[derive(Drop)]
pub(crate) struct Buffers {
    scratch: Scratch,
    known: KnownNames,
}

impl Buffers {
    pub(crate) fn new(alloc: Global) -> Buffers {
        Buffers {
            scratch: Scratch::new(alloc),
            known: KnownNames::new(alloc),
        }
    }
}

/// The value of a text whose numbers are all in the form in which whole numbers are printed. It refuses other texts.
pub(crate) fn read_tokens(alloc: Global, text: &[u8], buffers: &mut Buffers) -> Result<Val, Unread>
    ensures value { IfOk result (λ v. plain_value text.now ≡ Some (view v)) }
    ensures plain { OnOk result (whole_numbers Outside [] text.now ≡ Some text.now) }
{
    match small_value(text) {
        Some(value) => Ok(value),
        None => read_text(alloc, text, buffers),
    }
}

// The value of a text that is one number of at most 18 digits, or a literal. Most lines of numbers are such texts.
fn small_value(text: &[u8]) -> Option<Val>
    ensures { IfSome result (λ v. IsSmallText text.now (view v)) }
{
    if text.len() > SMALL {
        return None;
    }
    match short_number(text) {
        Some(n) => Some(Val::Num(n)),
        None => literal(text),
    }
}

// The value of one of the three literals.
fn literal(text: &[u8]) -> Option<Val>
    ensures { IfSome result (λ v. IsSmallText text.now (view v)) }
{
    if text == b"null".as_slice() {
        Some(Val::Null)
    } else if text == b"true".as_slice() {
        Some(Val::Bool(true))
    } else if text == b"false".as_slice() {
        Some(Val::Bool(false))
    } else {
        None
    }
}

fn read_text(alloc: Global, text: &[u8], buffers: &mut Buffers) -> Result<Val, Unread>
    ensures value { IfOk result (λ v. plain_value text.now ≡ Some (view v)) }
    ensures plain { OnOk result (whole_numbers Outside [] text.now ≡ Some text.now) }
{
    let Ok(text) = str::from_utf8(text) else {
        return Err(Unread::NoValue);
    };
    if text.len() > KEPT_ROOM {
        read_large(alloc, text, &mut buffers.known)
    } else {
        read_all(alloc, text, &mut buffers.scratch, &mut buffers.known)
    }
}

// A function of its own, since a buffer is 16 KB, which each call of a function with one among its locals clears.
#[inline(never)]
fn read_large(alloc: Global, text: &str, known: &mut KnownNames) -> Result<Val, Unread>
    ensures value { IfOk result (λ v. plain_value text.now ≡ Some (view v)) }
    ensures plain { OnOk result (whole_numbers Outside [] text.now ≡ Some text.now) }
{
    read_all(alloc, text, &mut Scratch::new(alloc), known)
}

fn read_all(
    alloc: Global,
    text: &str,
    scratch: &mut Scratch,
    known: &mut KnownNames,
) -> Result<Val, Unread>
    ensures value { IfOk result (λ v. plain_value text.now ≡ Some (view v)) }
    ensures plain { OnOk result (whole_numbers Outside [] text.now ≡ Some text.now) }
{
    let mut reader = Reader::new(text, scratch)?;
    let value = read_value(alloc, &mut reader, known, MAX_NESTING)?;
    if reader.next().is_some() {
        return Err(Unread::NoValue);
    }
    Ok(value)
}

// Inlined into the loops over items and members, so that only an array or an object costs a call.
#[cycle(taking)]
#[inline(always)]
fn read_value(
    alloc: Global,
    reader: &mut Reader<'_>,
    known: &mut KnownNames,
    depth: usize,
) -> Result<Val, Unread>
    ensures ok { IfOk result (λ v. IsValueRead (value depth reader.old) (view v) reader.new) }
    ensures shorter { OnOk result (length reader.new < length reader.old) }
    ensures plain { OnOk result (KeepsPlain reader.old reader.new) }
{
    let token = reader.next().ok_or(Unread::NoValue)?;
    match token {
        Token::Null => Ok(Val::Null),
        Token::Bool(b) => Ok(Val::Bool(b)),
        Token::Number(text) => match number(text) {
            Some(n) => Ok(Val::Num(n)),
            None => Err(Unread::NoValue),
        },
        Token::String(text) => Ok(Val::from_text(alloc, text)?),
        Token::BeginArray if depth > 0 => {
            let items = read_items(alloc, reader, known, depth - 1)?;
            Ok(Val::List(Array::from_vec(alloc, items)?))
        }
        Token::BeginObject if depth > 0 => {
            let members = read_members(alloc, reader, known, depth - 1)?;
            Ok(Val::Table(members))
        }
        _ => Err(Unread::NoValue),
    }
}

// The items after the bracket that opens an array.
#[cycle(taking)]
#[inline(never)]
fn read_items(
    alloc: Global,
    reader: &mut Reader<'_>,
    known: &mut KnownNames,
    depth: usize,
) -> Result<Vec<Val>, Unread>
    ensures ok { IfOk result (λ v. AreItemsRead (items (value depth) (length reader.old) reader.old) (items_view v.items) reader.new) }
    ensures shorter { OnOk result (length reader.new < length reader.old) }
    ensures plain { OnOk result (KeepsPlain reader.old reader.new) }
{
    let mut found = Vec::new(alloc);
    'items: while !reader.take_end_array() {
        found.push(read_value(alloc, reader, known, depth)?)?;
    }
    Ok(found)
}

// The members after the brace that opens an object. Objects of one text share their lists of names.
#[cycle(taking)]
#[inline(never)]
fn read_members(
    alloc: Global,
    reader: &mut Reader<'_>,
    known: &mut KnownNames,
    depth: usize,
) -> Result<Object<Val>, Unread>
    ensures ok { IfOk result (λ o. AreMembersRead (members (value depth) (length reader.old) reader.old) (members_in o) reader.new) }
    ensures shorter { OnOk result (length reader.new < length reader.old) }
    ensures plain { OnOk result (KeepsPlain reader.old reader.new) }
{
    let mut found = Draft::new();
    'members: while let Some(name) = reader.next_key()? {
        let place = found.place(alloc, name, known)?;
        let member = read_value(alloc, reader, known, depth)?;
        found.put(place, member)?;
    }
    Ok(found.finish(alloc, known)?)
}

// The value of a number in the form in which whole numbers are printed.
fn number(text: &str) -> Option<i64>
    ensures { IfSome result (λ n. IsPlainNumber text.now n) }
{
    match short_number(text.as_bytes()) {
        Some(n) => Some(n),
        None => long_number(text),
    }
}

// The same for any number of digits.
#[inline(never)]
fn long_number(text: &str) -> Option<i64>
    ensures { IfSome result (λ n. IsPlainNumber text.now n) }
{
    if is_printed(text.as_bytes()) {
        plain_number(text)
    } else {
        None
    }
}

// The value of a number's text that has an optional minus and digits, and is not `-0`.
fn plain_number(text: &str) -> Option<i64>
    ensures { IfSome result (λ n. option_and_then as_i64 (number_of text.now) ≡ Some n) }
{
    let bytes = text.as_bytes();
    if has_minus(bytes) {
        below_zero(&Numeral::scan(&bytes[1..]))
    } else {
        above_zero(&Numeral::scan(bytes))
    }
}

fn above_zero(numeral: &Numeral<'_>) -> Option<i64>
    ensures { IfSome result (λ n. option_and_then as_i64 (number_from false numeral.now) ≡ Some n) }
{
    numeral.to_i64(false)
}

fn below_zero(numeral: &Numeral<'_>) -> Option<i64>
    ensures { IfSome result (λ n. option_and_then as_i64 (number_from true numeral.now) ≡ Some n) }
{
    match numeral.to_i64(true) {
        Some(n) if n < 0 => Some(n),
        _ => None,
    }
}
