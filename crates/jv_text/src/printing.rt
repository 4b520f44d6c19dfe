// Printing values.
ghost use Rattle.std.specs.Prelude.{◌≡◌, ◌++◌, ◌∷◌, [], IfOk, OnOk, OnErr, List, ℕ, MatchOption, string_bytes};
ghost use Rattle.std.specs.Cow.{cow_str_bytes};
ghost use Rattle.std.specs.Str.{IsUtf8, chars};
ghost use Rattle.std.specs.Fmt.{signed_decimal};
ghost use Rattle.json.specs.Token.{begin_array, begin_object, number};
ghost use Rattle.jv_data.specs.Text.{text_of};
ghost use Rattle.jv_data.specs.Held.{members_in};
ghost use Rattle.jv_data.specs.View.{view, items_view};
ghost use Rattle.jv_text.specs.Printed.{printed, value_text, laid_out, bytes_or, compact, pretty, json_text, text_of_value, tokens_of};
ghost use Rattle.jv_text.specs.PrintedTokens.{tokens_of_items, tokens_of_members};

use crate::nested::write_in_list;
use crate::sinks::Tokens;
use json::{Pretty, Token, Writer};
use jv_data::{NoMemory, Object, Val};
use std::alloc::{AllocError, Global};
use std::borrow::CowStr;
use std::mem;

// Most texts of values are shorter than this, in bytes.
const SHORT: usize = 512;

// How many levels of a value are printed by recursion. For what is deeper there is a list, which takes memory.
pub(crate) const NEAR: usize = 100;

/// How values are printed. Each field is an option of the command `jql`.
#[derive(Clone, Copy, Debug, PartialEq, Eq)]
pub struct Style {
    /// On one line without spaces; otherwise with a line for each item and member.
    pub compact: bool,
    /// A string that is a whole output is printed as its own bytes, without quotes.
    pub raw: bool,
    /// As `raw`, and without a newline after an output.
    pub join: bool,
}

/// Appends the text of a value, and a newline unless `join`.
pub fn print(alloc: Global, value: &Val, style: Style, out: &mut Vec<u8>) -> Result<(), NoMemory>
    ensures ok { OnOk result (out.new.items ≡ out.old.items ++ printed style (view value.now)) }
    ensures err { OnErr result (out.new.items ≡ out.old.items) }
{
    let len = out.len();
    match print_all(alloc, value, style, out) {
        Ok(()) => Ok(()),
        Err(_) => {
            out.truncate(len);
            Err(NoMemory)
        }
    }
}

/// A value's JSON text on one line without spaces: `tojson` in the manual of jq 1.7.
pub fn to_compact_string(alloc: Global, value: &Val) -> Result<String, NoMemory>
    ensures { IfOk result (λ text. string_bytes text ≡ compact (view value.now)) }
{
    let bytes = compact_bytes(value, Vec::new(alloc))?;
    Ok(String::from_utf8(bytes).unwrap())
}

/// A string itself, or another value's JSON text on one line without spaces: `tostring` in the manual of jq 1.7.
pub fn tostring(alloc: Global, value: &Val) -> Result<String, NoMemory>
    ensures { IfOk result (λ text. text_of text ≡ text_of_value (view value.now)) }
{
    Ok(text_of_value(alloc, value)?.into_owned(alloc)?)
}

/// The same text, allocated only if the value is no string.
pub(crate) fn text_of_value(alloc: Global, value: &Val) -> Result<CowStr<'_, Global>, NoMemory>
    ensures { IfOk result (λ text. chars (cow_str_bytes text) ≡ text_of_value (view value.now)) }
{
    match as_text(value) {
        Some(text) => Ok(CowStr::Borrowed(text)),
        None => Ok(CowStr::Owned(to_compact_string(alloc, value)?)),
    }
}

// The bytes that were written before memory ran out stay.
fn print_all(alloc: Global, value: &Val, style: Style, out: &mut Vec<u8>) -> Result<(), AllocError>
    ensures ok { OnOk result (out.new.items ≡ out.old.items ++ printed style (view value.now)) }
    ensures front { (more : List ℕ) × (out.new.items ≡ out.old.items ++ more) }
{
    print_value(alloc, value, style, out)?;
    if !style.join {
        out.push(b'\n')?;
    }
    Ok(())
}

fn print_value(
    alloc: Global,
    value: &Val,
    style: Style,
    out: &mut Vec<u8>,
) -> Result<(), AllocError>
    ensures ok { OnOk result (out.new.items ≡ out.old.items ++ value_text style (view value.now)) }
    ensures front { (more : List ℕ) × (out.new.items ≡ out.old.items ++ more) }
{
    if style.raw || style.join {
        if let Some(text) = as_text(value) {
            return out.extend_from_slice(text.as_bytes());
        }
    }
    print_laid_out(alloc, value, style, out)
}

fn print_laid_out(
    alloc: Global,
    value: &Val,
    style: Style,
    out: &mut Vec<u8>,
) -> Result<(), AllocError>
    ensures ok { OnOk result (out.new.items ≡ out.old.items ++ laid_out style (view value.now)) }
    ensures front { (more : List ℕ) × (out.new.items ≡ out.old.items ++ more) }
{
    if style.compact {
        print_compact(alloc, value, out)
    } else {
        print_pretty(alloc, value, out)
    }
}

// The text of a value that is a string.
pub(crate) fn as_text(value: &Val) -> Option<&str>
    ensures bytes { (other : List ℕ) → MatchOption result (bytes_or other (view value.now) ≡ other) (λ text. bytes_or other (view value.now) ≡ text.now) }
    ensures characters { MatchOption result (text_of_value (view value.now) ≡ json_text (view value.now)) (λ text. text_of_value (view value.now) ≡ chars text.now) }
{
    match value {
        Val::Null => None,
        Val::Bool(_) => None,
        Val::Num(_) => None,
        Val::Text(text) => Some(text.as_str()),
        Val::List(_) => None,
        Val::Table(_) => None,
    }
}

// A printer that appends to other text fills its buffer with zeros, up to 16,384 bytes, for each value. So a value after
// other text is printed in a small buffer of its own.
fn print_compact(alloc: Global, value: &Val, out: &mut Vec<u8>) -> Result<(), AllocError>
    ensures ok { OnOk result (out.new.items ≡ out.old.items ++ compact (view value.now)) }
    ensures front { (more : List ℕ) × (out.new.items ≡ out.old.items ++ more) }
{
    if out.is_empty() {
        print_after(alloc, value, out)
    } else {
        print_apart(alloc, value, out)
    }
}

// The printer appends to the bytes that are there already.
fn print_after(alloc: Global, value: &Val, out: &mut Vec<u8>) -> Result<(), AllocError>
    ensures ok { OnOk result (out.new.items ≡ out.old.items ++ compact (view value.now)) }
    ensures front { (more : List ℕ) × (out.new.items ≡ out.old.items ++ more) }
{
    let mut writer = Writer::new(mem::replace(out, Vec::new(alloc)));
    let written = write(alloc, value, NEAR, &mut writer);
    *out = writer.into_inner();
    written
}

fn print_apart(alloc: Global, value: &Val, out: &mut Vec<u8>) -> Result<(), AllocError>
    ensures ok { OnOk result (out.new.items ≡ out.old.items ++ compact (view value.now)) }
    ensures front { (more : List ℕ) × (out.new.items ≡ out.old.items ++ more) }
{
    let text = compact_bytes(value, Vec::with_capacity(alloc, SHORT)?)?;
    out.extend_from_slice(text.as_slice())
}

// Prints a value into an empty buffer.
fn compact_bytes(value: &Val, room: Vec<u8>) -> Result<Vec<u8>, AllocError>
    requires { room.items ≡ [] }
    ensures text { IfOk result (λ bytes. bytes.items ≡ compact (view value.now)) }
    ensures utf8 { IfOk result (λ bytes. IsUtf8 bytes.items) }
{
    let alloc = *room.allocator();
    let mut writer = Writer::new(room);
    write(alloc, value, NEAR, &mut writer)?;
    Ok(writer.into_inner())
}

fn print_pretty(alloc: Global, value: &Val, out: &mut Vec<u8>) -> Result<(), AllocError>
    ensures ok { OnOk result (out.new.items ≡ out.old.items ++ pretty (view value.now)) }
    ensures front { (more : List ℕ) × (out.new.items ≡ out.old.items ++ more) }
{
    let mut writer = Pretty::new(alloc);
    write(alloc, value, NEAR, &mut writer)?;
    let bytes = writer.into_inner();
    out.extend_from_slice(bytes.as_slice())
}

// The tokens of a value, this many levels of it by recursion. Inlined into the loops over items and members, so that only an
// array or an object costs a call.
#[cycle(writing)]
#[inline(always)]
pub(crate) fn write<W: Tokens>(
    alloc: Global,
    value: &Val,
    levels: usize,
    out: &mut W,
) -> Result<(), AllocError>
    ensures ok { OnOk result (W.Tokens.written out.new ≡ W.Tokens.written out.old ++ tokens_of (view value.now)) }
    ensures before { W.Tokens.before out.new ≡ W.Tokens.before out.old }
{
    match value {
        Val::Null => out.token(Token::Null),
        Val::Bool(b) => out.token(Token::Bool(*b)),
        Val::Num(n) => write_number(*n, out),
        Val::Text(text) => out.token(Token::String(text.as_str())),
        Val::List(items) => {
            if levels == 0 {
                return write_in_list(alloc, value, out);
            }
            write_items(alloc, items.as_slice(), levels - 1, out)
        }
        Val::Table(members) => {
            if levels == 0 {
                return write_in_list(alloc, value, out);
            }
            write_members(alloc, members, levels - 1, out)
        }
    }
}

pub(crate) fn write_number<W: Tokens>(n: i64, out: &mut W) -> Result<(), AllocError>
    ensures ok { OnOk result (W.Tokens.written out.new ≡ W.Tokens.written out.old ++ number (signed_decimal n) ∷ []) }
    ensures before { W.Tokens.before out.new ≡ W.Tokens.before out.old }
{
    let mut buffer = itoa::Buffer::new();
    out.token(Token::Number(buffer.format(n)))
}

#[cycle(writing)]
#[inline(never)]
fn write_items<W: Tokens>(
    alloc: Global,
    items: &[Val],
    levels: usize,
    out: &mut W,
) -> Result<(), AllocError>
    ensures ok { OnOk result (W.Tokens.written out.new ≡ W.Tokens.written out.old ++ begin_array ∷ tokens_of_items (items_view items.now)) }
    ensures before { W.Tokens.before out.new ≡ W.Tokens.before out.old }
{
    out.token(Token::BeginArray)?;
    for item in items {
        write(alloc, item, levels, out)?;
    }
    out.token(Token::EndArray)
}

#[cycle(writing)]
#[inline(never)]
fn write_members<W: Tokens>(
    alloc: Global,
    members: &Object<Val>,
    levels: usize,
    out: &mut W,
) -> Result<(), AllocError>
    ensures ok { OnOk result (W.Tokens.written out.new ≡ W.Tokens.written out.old ++ begin_object ∷ tokens_of_members (members_in members.now)) }
    ensures before { W.Tokens.before out.new ≡ W.Tokens.before out.old }
{
    out.token(Token::BeginObject)?;
    for (key, member) in members.iter() {
        out.token(Token::Key(key.as_str()))?;
        write(alloc, member, levels, out)?;
    }
    out.token(Token::EndObject)
}
