// Printing large values piece by piece.
ghost use Rattle.std.specs.Prelude.{◌≡◌, ◌++◌, ◌≤◌, [], List, ℕ, true, false, if◌then◌else◌, drop, length, IfOk, IfSome, OnOk, OnErr};
ghost use Rattle.json.specs.Layout.{pretty};
ghost use Rattle.jv_data.specs.View.{view};
ghost use Rattle.std.specs.Bool.{OnTrue};
ghost use Rattle.jv_text.specs.Printed.{bytes_or, laid_out, printed, tokens_of};
ghost use Rattle.jv_text.specs.Pieces.{line_end, text_from};
ghost use Rattle.jv_text.specs.private.Pieces.{AppendsPiece};
ghost use Rattle.jv_text.specs.Places.{replayed};
ghost use Rattle.jv_text.specs.PrintedTokens.{open_tokens, rest_tokens};

use crate::nested::{Open, begin, next_value};
use crate::places::{Line, Lines, Place, replay};
use crate::printing::{NEAR, Style, as_text, write};
use crate::sinks::Tokens;
use jv_data::{NoMemory, Object, Val};
use std::alloc::{AllocError, Global};
use std::marker::Model;

// About how many bytes a piece has. A text of fewer bytes is not printed in pieces.
const PIECE: usize = 32_768;

// How many bytes are counted for an item or a member, beside those of its key and its string.
const ITEM: usize = 8;

// How many levels of a value are interrupted between two pieces. What is deeper is printed as a whole.
const LEVELS: usize = 32;

/// Prints an array or an object piece by piece. A contract sees the bytes that are not printed yet.
#[derive(Drop)]
pub struct Printer<'a> {
    opened: Vec<Open<'a>>,
    place: Place,
    style: Style,
}

impl<'a> Model for Printer<'a> {
    ghost use Rattle.std.specs.Prelude.{List, ℕ};
    ghost use Rattle.jv_text.specs.Pieces.{rest_of};

    ghost Value = { List ℕ };

    ghost view = { rest_of };
}

impl<'a> Printer<'a> {
    /// The printer of an array or an object whose text is large. There is none for another value.
    pub fn new(alloc: Global, value: &'a Val, style: Style) -> Result<Option<Printer<'a>>, NoMemory>
        ensures { IfOk result (λ found. IfSome found (λ printer. printer ≡ printed style (view value.now))) }
    {
        if !is_large(value) {
            return Ok(None);
        }
        Ok(Some(printer_of(alloc, value, style)?))
    }

    /// Appends the next piece of the text, and returns whether there is another one.
    pub fn print_next(&mut self, alloc: Global, out: &mut Vec<u8>) -> Result<bool, NoMemory>
        ensures ok { IfOk result (λ more. (piece : List ℕ) × (out.new.items ≡ out.old.items ++ piece) × (self.old ≡ piece ++ (if more then self.new else []))) }
        ensures err { OnErr result (out.new.items ≡ out.old.items) }
    {
        let len = out.len();
        match self.append_next(alloc, out) {
            Ok(more) => Ok(more),
            Err(_) => {
                out.truncate(len);
                Err(NoMemory)
            }
        }
    }

    // The bytes that were appended before memory ran out stay.
    fn append_next(&mut self, alloc: Global, out: &mut Vec<u8>) -> Result<bool, AllocError>
        ensures ok { IfOk result (λ more. AppendsPiece out.old.items out.new.items self.old (if more then self.new else [])) }
        ensures front { (more : List ℕ) × (out.new.items ≡ out.old.items ++ more) }
    {
        self.place = append_piece(alloc, &mut self.opened, self.place, self.style.compact, out)?;
        if self.opened.as_slice().len() > 0 {
            return Ok(true);
        }
        end_line(self.style.join, out)?;
        Ok(false)
    }
}

// Whether a value is an array or an object with a large text.
fn is_large(value: &Val) -> bool
    ensures { OnTrue result ((text : List ℕ) → bytes_or text (view value.now) ≡ text) }
{
    match as_text(value) {
        Some(_) => false,
        None => left_after(value, LEVELS, PIECE) == 0,
    }
}

fn printer_of<'a>(alloc: Global, value: &'a Val, style: Style) -> Result<Printer<'a>, AllocError>
    ensures { IfOk result (λ printer. printer ≡ laid_out style (view value.now) ++ line_end style.join) }
{
    let mut opened = Vec::new(alloc);
    opened.push(Open::Whole(value))?;
    Ok(Printer {
        opened,
        place: Place::Nothing,
        style,
    })
}

// Appends the newline after an output.
fn end_line(join: bool, out: &mut Vec<u8>) -> Result<(), AllocError>
    ensures ok { OnOk result (out.new.items ≡ out.old.items ++ line_end join) }
    ensures front { (more : List ℕ) × (out.new.items ≡ out.old.items ++ more) }
{
    if join {
        return Ok(());
    }
    Ok(out.push(b'\n')?)
}

// Appends the next piece of what is open, and returns the place at its end.
fn append_piece<'a>(
    alloc: Global,
    opened: &mut Vec<Open<'a>>,
    place: Place,
    compact: bool,
    out: &mut Vec<u8>,
) -> Result<Place, AllocError>
    ensures ok { IfOk result (λ next. AppendsPiece out.old.items out.new.items (text_from compact place (open_tokens opened.old.items [])) (text_from compact next (open_tokens opened.new.items []))) }
    ensures front { (more : List ℕ) × (out.new.items ≡ out.old.items ++ more) }
{
    if compact {
        append_line(alloc, opened, place, out)
    } else {
        append_lines(alloc, opened, place, out)
    }
}

fn append_line<'a>(
    alloc: Global,
    opened: &mut Vec<Open<'a>>,
    place: Place,
    out: &mut Vec<u8>,
) -> Result<Place, AllocError>
    ensures ok { IfOk result (λ next. AppendsPiece out.old.items out.new.items (text_from true place (open_tokens opened.old.items [])) (text_from true next (open_tokens opened.new.items []))) }
    ensures front { (more : List ℕ) × (out.new.items ≡ out.old.items ++ more) }
{
    let mut before = Line::new(alloc, 0)?;
    replay(place, &mut before)?;
    let (replayed, _) = before.finish();
    let skipped = replayed.as_slice().len();
    let mut line = Line::new(alloc, 2 * PIECE)?;
    replay(place, &mut line)?;
    write_some(alloc, opened, &mut line)?;
    let (text, next) = line.finish();
    append_after(text.as_slice(), skipped, out)?;
    Ok(next)
}

fn append_lines<'a>(
    alloc: Global,
    opened: &mut Vec<Open<'a>>,
    place: Place,
    out: &mut Vec<u8>,
) -> Result<Place, AllocError>
    ensures ok { IfOk result (λ next. AppendsPiece out.old.items out.new.items (text_from false place (open_tokens opened.old.items [])) (text_from false next (open_tokens opened.new.items []))) }
    ensures front { (more : List ℕ) × (out.new.items ≡ out.old.items ++ more) }
{
    let mut before = Lines::new(alloc);
    replay(place, &mut before)?;
    let (replayed, _) = before.finish();
    let skipped = replayed.as_slice().len();
    let mut lines = Lines::new(alloc);
    replay(place, &mut lines)?;
    write_some(alloc, opened, &mut lines)?;
    let (text, next) = lines.finish();
    append_after(text.as_slice(), skipped, out)?;
    Ok(next)
}

// Appends the bytes of a text after the first ones. A text has these always.
fn append_after(text: &[u8], skipped: usize, out: &mut Vec<u8>) -> Result<(), AllocError>
    ensures ok { OnOk result ((skipped ≤ length text.now) × (out.new.items ≡ out.old.items ++ drop skipped text.now)) }
    ensures front { (more : List ℕ) × (out.new.items ≡ out.old.items ++ more) }
{
    match text.get(skipped..) {
        Some(piece) => out.extend_from_slice(piece),
        None => Err(AllocError),
    }
}

// Writes some of the tokens of what is open.
fn write_some<'a, W: Tokens>(
    alloc: Global,
    opened: &mut Vec<Open<'a>>,
    out: &mut W,
) -> Result<(), AllocError>
    ensures { OnOk result (W.Tokens.written out.new ++ open_tokens opened.new.items [] ≡ W.Tokens.written out.old ++ open_tokens opened.old.items []) }
{
    let mut left = PIECE;
    for _ in 0..PIECE {
        if left == 0 {
            return Ok(());
        }
        match opened.pop() {
            None => return Ok(()),
            Some(container) => left = write_next(alloc, container, opened, left, out)?,
        }
    }
    Ok(())
}

// Writes what comes next in a container, and returns how many bytes are left of the piece.
fn write_next<'a, W: Tokens>(
    alloc: Global,
    container: Open<'a>,
    opened: &mut Vec<Open<'a>>,
    left: usize,
    out: &mut W,
) -> Result<usize, AllocError>
    ensures { OnOk result (W.Tokens.written out.new ++ open_tokens opened.new.items [] ≡ W.Tokens.written out.old ++ (rest_tokens container.entry ++ open_tokens opened.old.items [])) }
{
    match next_value(container, opened, out)? {
        None => Ok(left.saturating_sub(ITEM)),
        Some(value) => write_or_begin(alloc, value, opened, left, out),
    }
}

// Writes a value that fits into the piece or is nested deep, and begins another one, which ends the piece.
fn write_or_begin<'a, W: Tokens>(
    alloc: Global,
    value: &'a Val,
    opened: &mut Vec<Open<'a>>,
    left: usize,
    out: &mut W,
) -> Result<usize, AllocError>
    ensures { OnOk result (W.Tokens.written out.new ++ open_tokens opened.new.items [] ≡ W.Tokens.written out.old ++ (tokens_of (view value.now) ++ open_tokens opened.old.items [])) }
{
    let rest = left_after(value, LEVELS, left);
    if rest > 0 || opened.len() >= LEVELS {
        write(alloc, value, NEAR, out)?;
        return Ok(rest);
    }
    begin(value, opened, out)?;
    Ok(0)
}

// How many bytes about are left of a piece after a value. It is 0 if the value does not fit, or has more levels than this.
#[cycle(fitting)]
fn left_after(value: &Val, levels: usize, left: usize) -> usize {
    match value {
        Val::Null => left.saturating_sub(ITEM),
        Val::Bool(_) => left.saturating_sub(ITEM),
        Val::Num(_) => left.saturating_sub(ITEM),
        Val::Text(text) => left
            .saturating_sub(ITEM)
            .saturating_sub(text.as_str().len()),
        Val::List(items) => {
            if levels == 0 {
                return 0;
            }
            left_after_items(items.as_slice(), levels - 1, left)
        }
        Val::Table(members) => {
            if levels == 0 {
                return 0;
            }
            left_after_members(members, levels - 1, left)
        }
    }
}

#[cycle(fitting)]
fn left_after_items(items: &[Val], levels: usize, left: usize) -> usize {
    let mut rest = left.saturating_sub(ITEM);
    for item in items {
        if rest == 0 {
            return 0;
        }
        rest = left_after(item, levels, rest);
    }
    rest
}

#[cycle(fitting)]
fn left_after_members(members: &Object<Val>, levels: usize, left: usize) -> usize {
    let mut rest = left.saturating_sub(ITEM);
    for (key, member) in members.iter() {
        if rest == 0 {
            return 0;
        }
        rest = left_after(member, levels, rest).saturating_sub(key.as_str().len());
    }
    rest
}
