// Finding the end of the text at the start of some bytes.
ghost use Rattle.std.specs.Prelude.{◌≡◌, ◌+◌, ◌<◌, ◌≤◌, length, false};
ghost use Rattle.jv_cut.specs.Text.{max_nesting, max_text, level, after_byte, is_level, bare, nested};
ghost use Rattle.jv_cut.specs.private.Scan.{Scanned, Finds, Leads};
ghost use Rattle.jv_cut.specs.private.Walk.{Walks};

use crate::marks::{BLOCK, marks, next_place};
use crate::nesting::{Nest, Quote, after_byte, enters, is_bare, is_level, keeps};
use crate::splitting::CutFault;

// The greatest length of a text, in bytes, and how many brackets may be open at once.
const MAX_TEXT: usize = 67_108_864;

const MAX_NESTING: u32 = 127;

/// How far the first text was read.
#[derive(Clone, Copy)]
pub(crate) enum Scan {
    Fresh,
    /// This many bytes of a text that is no array, object or string.
    Bare(usize),
    /// This many bytes of an array, an object or a string, and the brackets and strings that are open after them.
    Nested(usize, Nest),
}

/// What was found at the start of the bytes.
#[derive(Clone, Copy)]
pub(crate) enum Found {
    /// A text of this many bytes.
    Text(usize),
    /// The bytes end inside the text.
    More(Scan),
    Fault(CutFault),
}

/// What the bytes of a block led to.
#[derive(Clone, Copy)]
pub(crate) enum Walked {
    /// The text ends in the block, or no text can be read.
    Stopped(Found),
    /// The brackets and strings that are open after the block.
    Open(Nest),
}

/// Continues to read the first text of bytes that do not begin with white space.
pub(crate) fn find(bytes: &[u8], scan: Scan, ended: bool) -> Found
    requires some { 0 < length bytes.now }
    requires scanned { Scanned scan bytes.now }
    ensures { Finds result bytes.now ended }
{
    match scan {
        Scan::Fresh => begin(bytes, ended),
        Scan::Bare(read) => bare(bytes, read, ended),
        Scan::Nested(read, nest) => nested(bytes, read, nest, ended),
    }
}

fn begin(bytes: &[u8], ended: bool) -> Found
    requires { 0 < length bytes.now }
    ensures { Finds result bytes.now ended }
{
    let first = bytes[0];
    if enters(first) {
        nested(bytes, 1, begun(first), ended)
    } else if is_bare(first) {
        bare(bytes, 1, ended)
    } else {
        Found::Fault(CutFault::Misplaced)
    }
}

fn begun(first: u8) -> Nest
    ensures { result ≡ after_byte level first }
{
    let level = Nest {
        depth: 0,
        quote: Quote::Outside,
    };
    after_byte(level, first)
}

// Continues a text that is no array, object or string, after its first `read` bytes.
fn bare(bytes: &[u8], read: usize, ended: bool) -> Found
    requires { Leads bytes.now read (λ later more. bare read later more) }
    ensures { Finds result bytes.now ended }
{
    for i in read..bytes.len() {
        if !is_bare(bytes[i]) {
            return Found::Text(i);
        }
        if i >= MAX_TEXT {
            return Found::Fault(CutFault::TooLong);
        }
    }
    if ended {
        Found::Text(bytes.len())
    } else {
        Found::More(Scan::Bare(bytes.len()))
    }
}

// Continues an array, an object or a string, after its first `read` bytes.
fn nested(bytes: &[u8], read: usize, nest: Nest, ended: bool) -> Found
    requires unclosed { is_level nest ≡ false }
    requires shallow { nest.depth ≤ max_nesting }
    requires leads { Leads bytes.now read (λ later more. nested read nest more) }
    ensures { Finds result bytes.now ended }
{
    let mut nest = nest;
    let mut at = read;
    let end = bytes.len().min(MAX_TEXT);
    'whole: while end - at >= BLOCK {
        match walk(bytes, at, nest) {
            Walked::Stopped(found) => return found,
            Walked::Open(after) => nest = after,
        }
        at += BLOCK;
    }
    nested_slowly(bytes, at, nest, ended)
}

// The same for the bytes of a block.
fn walk(bytes: &[u8], at: usize, nest: Nest) -> Walked
    requires room { at + 64 ≤ length bytes.now }
    requires short { at + 64 ≤ max_text }
    requires unclosed { is_level nest ≡ false }
    requires shallow { nest.depth ≤ max_nesting }
    requires leads { Leads bytes.now at (λ later more. nested at nest more) }
    ensures { Walks result bytes.now at }
{
    let mut nest = nest;
    let marks = marks(bytes, at);
    let mut place = next_place(marks, 0, nest.quote);
    'marks: while place < BLOCK {
        nest = after_byte(nest, bytes[at + place]);
        if is_level(nest) {
            return Walked::Stopped(Found::Text(at + place + 1));
        }
        if nest.depth > MAX_NESTING {
            return Walked::Stopped(Found::Fault(CutFault::TooDeep));
        }
        place = next_place(marks, place + 1, nest.quote);
    }
    Walked::Open(nest)
}

// The same for a few bytes, one by one.
fn nested_slowly(bytes: &[u8], read: usize, nest: Nest, ended: bool) -> Found
    requires unclosed { is_level nest ≡ false }
    requires shallow { nest.depth ≤ max_nesting }
    requires leads { Leads bytes.now read (λ later more. nested read nest more) }
    ensures { Finds result bytes.now ended }
{
    let mut nest = nest;
    for i in read..bytes.len().min(MAX_TEXT) {
        let byte = bytes[i];
        if keeps(nest.quote, byte) {
            continue;
        }
        nest = after_byte(nest, byte);
        if is_level(nest) {
            return Found::Text(i + 1);
        }
        if nest.depth > MAX_NESTING {
            return Found::Fault(CutFault::TooDeep);
        }
    }
    if bytes.len() > MAX_TEXT {
        Found::Fault(CutFault::TooLong)
    } else {
        Found::More(Scan::Nested(bytes.len(), nest))
    }
}
