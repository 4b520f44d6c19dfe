// The tokens of values that are nested deep. What is open is in a list, so that depth takes no stack.
ghost use Rattle.std.specs.Prelude.{◌≡◌, ◌++◌, ◌∷◌, [], IfOk, OnOk, List, String};
ghost use Rattle.std.specs.declared.alloc.Global.{Global};
ghost use Rattle.jv_data.specs.View.{view};
ghost use Rattle.jv_text.specs.Printed.{tokens_of};
ghost use Rattle.jv_text.specs.PrintedTokens.{open_tokens, rest_tokens};
ghost use Rattle.jv_text.specs.private.Pieces.{tokens_left};

use crate::printing::write_number;
use crate::sinks::Tokens;
use json::Token;
use jv_data::{Iter, Val};
use std::alloc::{AllocError, Global};

// A value of which nothing is written, or the rest of an array or an object whose opening bracket is written.
#[derive(Drop)]
pub(crate) enum Open<'a> {
    Whole(&'a Val),
    Array(&'a [Val]),
    Object(Iter<'a, Val>),
}

pub(crate) fn write_in_list<W: Tokens>(
    alloc: Global,
    value: &Val,
    out: &mut W,
) -> Result<(), AllocError>
    ensures ok { OnOk result (W.Tokens.written out.new ≡ W.Tokens.written out.old ++ tokens_of (view value.now)) }
    ensures before { W.Tokens.before out.new ≡ W.Tokens.before out.old }
{
    let mut opened = Vec::new(alloc);
    opened.push(Open::Whole(value))?;
    // (this many steps are never made, but show that the loop ends)
    for _ in 0..u64::MAX {
        match opened.pop() {
            None => return Ok(()),
            Some(container) => write_next(container, &mut opened, out)?,
        }
    }
    Err(AllocError)
}

// Writes a value that is no container, or the opening bracket of one.
pub(crate) fn begin<'a, W: Tokens>(
    value: &'a Val,
    opened: &mut Vec<Open<'a>>,
    out: &mut W,
) -> Result<(), AllocError>
    ensures ok { OnOk result (W.Tokens.written out.new ++ open_tokens opened.new.items [] ≡ W.Tokens.written out.old ++ (tokens_of (view value.now) ++ open_tokens opened.old.items [])) }
    ensures before { W.Tokens.before out.new ≡ W.Tokens.before out.old }
{
    match value {
        Val::Null => out.token(Token::Null),
        Val::Bool(b) => out.token(Token::Bool(*b)),
        Val::Num(n) => write_number(*n, out),
        Val::Text(text) => out.token(Token::String(text.as_str())),
        Val::List(items) => {
            out.token(Token::BeginArray)?;
            Ok(opened.push(Open::Array(items.as_slice()))?)
        }
        Val::Table(members) => {
            out.token(Token::BeginObject)?;
            Ok(opened.push(Open::Object(members.iter()))?)
        }
    }
}

// Writes what comes next in a container.
fn write_next<'a, W: Tokens>(
    container: Open<'a>,
    opened: &mut Vec<Open<'a>>,
    out: &mut W,
) -> Result<(), AllocError>
    ensures ok { OnOk result (W.Tokens.written out.new ++ open_tokens opened.new.items [] ≡ W.Tokens.written out.old ++ (rest_tokens container.entry ++ open_tokens opened.old.items [])) }
    ensures before { W.Tokens.before out.new ≡ W.Tokens.before out.old }
{
    match next_value(container, opened, out)? {
        None => Ok(()),
        Some(value) => begin(value, opened, out),
    }
}

// Puts the rest of a container back and returns its next value, with the key written, or closes the container.
pub(crate) fn next_value<'a, W: Tokens>(
    container: Open<'a>,
    opened: &mut Vec<Open<'a>>,
    out: &mut W,
) -> Result<Option<&'a Val>, AllocError>
    ensures ok { IfOk result (λ next. W.Tokens.written out.new ++ tokens_left next opened.new.items ≡ W.Tokens.written out.old ++ (rest_tokens container.entry ++ open_tokens opened.old.items [])) }
    ensures before { W.Tokens.before out.new ≡ W.Tokens.before out.old }
{
    match container {
        Open::Whole(value) => Ok(Some(value)),
        Open::Array(items) => match items.split_first() {
            None => {
                out.token(Token::EndArray)?;
                Ok(None)
            }
            Some((item, rest)) => {
                opened.push(Open::Array(rest))?;
                Ok(Some(item))
            }
        },
        Open::Object(members) => {
            let mut rest = members;
            match rest.next() {
                None => {
                    out.token(Token::EndObject)?;
                    Ok(None)
                }
                Some((key, member)) => {
                    out.token(Token::Key(key.as_str()))?;
                    opened.push(Open::Object(rest))?;
                    Ok(Some(member))
                }
            }
        }
    }
}
