// A stream of texts, fed in pieces.
ghost use Rattle.std.specs.Prelude.{◌≡◌, ◌+◌, ◌^◌, ◌<◌, ◌≤◌, ◌++◌, [], length, take, drop, true, false, OnOk, OnErr};
ghost use Rattle.std.specs.Bool.{OnTrue, OnFalse};
ghost use Rattle.std.specs.List.{prefix_len};
ghost use Rattle.jv_cut.specs.Bytes.{is_space, begins_with_mark};
ghost use Rattle.jv_cut.specs.private.Marks.{may_become_mark};
ghost use Rattle.jv_cut.specs.Finds.{FindsFirst, NoneLeft};
ghost use Rattle.jv_cut.specs.private.Passed.{IsPastMark, IsPastSpace};
ghost use Rattle.jv_cut.specs.Rest.{without, SameTexts};
ghost use Rattle.jv_cut.specs.private.Scan.{ScansTo};

use crate::nesting::is_space;
use crate::scanning::{Found, Scan, find};
use std::alloc::{AllocError, Global};
use std::marker::Model;

/// Why no text can be read.
#[derive(Clone, Copy, Debug, PartialEq, Eq)]
pub enum CutFault {
    /// No text begins with this byte: `}`, `]`, `,` or `:`.
    Misplaced,
    /// The stream ends inside the text.
    Unfinished,
    /// 128 brackets are open.
    TooDeep,
    /// The text has more than 67,108,864 bytes.
    TooLong,
}

/// A stream of JSON texts that is fed piece by piece. It keeps how far its first text was read, so each byte is looked at
/// once, for pieces of any size.
#[derive(Drop)]
pub struct Splitter {
    // The bytes before `start` were taken.
    buffer: Vec<u8>,
    start: usize,
    scan: Scan,
    place: u64,
    ended: bool,
}

impl Model for Splitter {
    ghost use Rattle.jv_cut.specs.Rest.{Rest};
    ghost use Rattle.jv_cut.specs.private.RestCode.{rest_code};

    ghost Value = { Rest };

    ghost coded = { rest_code };

    ghost use Rattle.jv_cut.specs.Splitter.{rest_of};
    ghost use Rattle.jv_cut.specs.private.Fields.{IsSplitter};

    ghost view = { rest_of };

    ghost invariant = { IsSplitter };
}

impl Splitter {
    /// A stream that was fed nothing yet.
    pub fn new(alloc: Global) -> Splitter
        ensures unread { result.unread ≡ [] }
        ensures place { result.place ≡ 0 }
        ensures ended { result.ended ≡ false }
    {
        Splitter {
            buffer: Vec::new(alloc),
            start: 0,
            scan: Scan::Fresh,
            place: 0,
            ended: false,
        }
    }

    /// Takes the next bytes of the stream.
    pub fn feed(&mut self, piece: &[u8]) -> Result<(), AllocError>
        requires open { self.old.ended ≡ false }
        requires counted { self.old.place + length self.old.unread + length piece.now < 2 ^ 64 }
        ensures ok { OnOk result (self.new ≡ record self.old { unread = self.old.unread ++ piece.now }) }
        ensures err { OnErr result (self.new ≡ self.old) }
    {
        self.compact();
        self.buffer.extend_from_slice(piece)?;
        Ok(())
    }

    /// Says that no more bytes follow.
    pub fn finish(&mut self)
        ensures { self.new ≡ record self.old { ended = true } }
    {
        self.ended = true;
    }

    /// The length of the first text, after skipping white space and a byte order mark before it. None if more bytes are
    /// needed, or if the stream has ended.
    pub fn find(&mut self) -> Result<Option<usize>, CutFault>
        ensures passed { SameTexts self.old self.new }
        ensures found { FindsFirst result self.new }
    {
        if !self.pass_mark() {
            return Ok(None);
        }
        self.pass_spaces();
        if self.unread().is_empty() {
            return Ok(None);
        }
        self.scan_text()
    }

    /// The first bytes that were not taken.
    pub fn text(&self, len: usize) -> &[u8]
        requires { len ≤ length self.now.unread }
        ensures { result.now ≡ take len self.now.unread }
    {
        &self.unread()[..len]
    }

    /// Takes the first bytes.
    pub fn take(&mut self, len: usize)
        requires { len ≤ length self.old.unread }
        ensures { self.new ≡ without self.old len }
    {
        // If nothing is taken, the first text keeps how far it was read.
        if len == 0 {
            return;
        }
        self.start += len;
        self.place += len as u64;
        self.scan = Scan::Fresh;
    }

    /// The position in the stream of the first byte that was not taken.
    pub fn place(&self) -> u64
        ensures { result ≡ self.now.place }
    {
        self.place
    }

    // If most of the buffer was taken, the rest moves to its start.
    fn compact(&mut self)
        ensures { self.new ≡ self.old }
    {
        if self.start <= self.buffer.len() / 2 {
            return;
        }
        remove_front(&mut self.buffer, self.start);
        self.start = 0;
    }

    fn is_ended(&self) -> bool
        ensures { result ≡ self.now.ended }
    {
        self.ended
    }

    fn unread(&self) -> &[u8]
        ensures { result.now ≡ self.now.unread }
    {
        &self.buffer[self.start..]
    }

    // Skips a byte order mark at the start of the stream. False if more bytes are needed to know whether there is one.
    fn pass_mark(&mut self) -> bool
        ensures passed { SameTexts self.old self.new }
        ensures after { OnTrue result (IsPastMark self.new) }
        ensures none { OnFalse result (NoneLeft self.new) }
    {
        if self.place() > 0 {
            return true;
        }
        if begins_with_mark(self.unread()) {
            self.take(3);
            return true;
        }
        if self.is_ended() {
            return true;
        }
        if may_become_mark(self.unread()) {
            return false;
        }
        true
    }

    fn pass_spaces(&mut self)
        requires { IsPastMark self.old }
        ensures passed { SameTexts self.old self.new }
        ensures mark { IsPastMark self.new }
        ensures space { IsPastSpace self.new }
    {
        let spaces = count_spaces(self.unread());
        self.take(spaces);
    }

    fn scan_text(&mut self) -> Result<Option<usize>, CutFault>
        requires { 0 < length self.old.unread }
        ensures same { self.new ≡ self.old }
        ensures found { ScansTo result self.old }
    {
        match find(&self.buffer[self.start..], self.scan, self.ended) {
            Found::Text(len) => Ok(Some(len)),
            Found::Fault(fault) => Err(fault),
            Found::More(scan) => {
                self.scan = scan;
                if self.ended {
                    Err(CutFault::Unfinished)
                } else {
                    Ok(None)
                }
            }
        }
    }
}

fn remove_front(bytes: &mut Vec<u8>, len: usize)
    requires { len ≤ length bytes.old.items }
    ensures { bytes.new.items ≡ drop len bytes.old.items }
{
    let left = bytes.len() - len;
    bytes.rotate_left(len);
    bytes.truncate(left);
}

fn begins_with_mark(bytes: &[u8]) -> bool
    ensures { result ≡ begins_with_mark bytes.now }
{
    match bytes {
        [a, b, c, ..] => *a == 0xEF && *b == 0xBB && *c == 0xBF,
        _ => false,
    }
}

fn may_become_mark(bytes: &[u8]) -> bool
    ensures { result ≡ may_become_mark bytes.now }
{
    match bytes {
        [] => true,
        [a] => *a == 0xEF,
        [a, b] => *a == 0xEF && *b == 0xBB,
        _ => false,
    }
}

pub(crate) fn count_spaces(bytes: &[u8]) -> usize
    ensures { result ≡ prefix_len is_space bytes.now }
{
    for (i, byte) in bytes.iter().enumerate() {
        if !is_space(*byte) {
            return i;
        }
    }
    bytes.len()
}
