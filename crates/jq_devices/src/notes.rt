// A writer that takes notes.
ghost use Rattle.std.specs.Prelude.{◌≡◌, ◌≢◌, ◌≤◌, ◌<◌, ◌∷◌, [], List, ℕ, true, length, take, IfOk};
ghost use Rattle.std.specs.Io.KnownBytes.{Appends};
ghost use Rattle.jq_devices.specs.Notes.{IsNote, last_byte};
ghost use Rattle.jq_devices.specs.Places.{plain_of};
ghost use Rattle.jq_devices.specs.Notes.{IsKept};

use crate::Write;
use jv_data::NoMemory;
use std::alloc::Global;
use std::cell::Cell;
use std::collections::VecDeque;
use std::io;
use std::io::{Error, ErrorKind};

const START: &[u8] = b"jq: note: ";

/// The place of a note: the number of bytes between the note before it and this one, and its length.
#[derive(Clone, Copy)]
pub(crate) struct NotePlace {
    before: u64,
    len: u64,
}

/// A writer that can take notes. They are on the writer within it, and are none of its contents. It takes none before the call
/// of `take_notes`.
#[derive(Drop)]
pub struct Noted<W: Write> {
    device: W,
    alloc: Global,
    takes_notes: Cell<bool>,
    newest: NotePlace,
    // The places of the notes before it, the last one first.
    older: VecDeque<NotePlace>,
    // The number of bytes after the newest note, and the last byte that was written.
    after: u64,
    last: u8,
    // A note was not written as a whole.
    is_cut: bool,
    ghost kept: { ∥ IsKept is_cut last (W.has_failed device) (plain_of after (newest ∷ older.items) (W.contents device)) (W.contents device) ∥₁ },
}

impl<W: Write> Noted<W> {
    ghost use Rattle.jq_devices.specs.Notes.{IsNoted};

    /// No note was taken.
    pub(crate) fn new(alloc: Global, device: W) -> Noted<W>
        ensures { plain_of result.after (result.newest ∷ result.older.items) (W.contents result.device) ≡ W.contents device }
    {
        let takes_notes = Cell::new(false);
        let newest = NotePlace { before: 0, len: 0 };
        let older = VecDeque::new(alloc);
        Noted {
            device,
            alloc,
            takes_notes,
            newest,
            older,
            after: 0,
            last: 0,
            is_cut: false,
        }
    }

    /// The writer within it.
    pub(crate) fn into_device(self) -> W
        ensures { IsNoted (W.has_failed result) (plain_of self.after (self.newest ∷ self.older.items) (W.contents self.device)) (W.contents result) }
    {
        let Noted {
            device,
            alloc: _alloc,
            takes_notes: _takes_notes,
            newest: _newest,
            older: _older,
            after: _after,
            last: _last,
            is_cut: _is_cut,
        } = self;
        device
    }
}

impl<W: Write> Write for Noted<W> {
    ghost contents = { λ w. plain_of w.after (w.newest ∷ w.older.items) (W.contents w.device) };

    fn write(&mut self, buf: &[u8]) -> io::Result<usize> {
        if self.is_cut || u64::MAX - self.after < buf.len() as u64 {
            return Err(Error::new(ErrorKind::Other, "the writer has failed"));
        }
        let len = self.device.write(buf)?;
        self.after += len as u64;
        self.last = last_byte(self.last, &buf[..len]);
        Ok(len)
    }

    fn flush(&mut self) -> io::Result<()> {
        if self.is_cut {
            return Err(Error::new(ErrorKind::Other, "the writer has failed"));
        }
        self.device.flush()
    }

    fn take_notes(&self) {
        self.takes_notes.set(true);
    }

    fn takes_notes(&self) -> bool {
        self.takes_notes.get()
    }

    fn note(&mut self, text: &str) -> io::Result<()> {
        if !self.takes_notes.get() || self.is_cut || self.last != b'\n' {
            return Ok(());
        }
        let Ok(line) = note_line(self.alloc, text.as_bytes()) else {
            return Ok(());
        };
        if self.older.push_front(self.newest).is_err() {
            return Ok(());
        }
        self.newest = NotePlace {
            before: self.after,
            len: 0,
        };
        self.after = 0;
        let bytes = line.as_slice();
        let len = write_first(&mut self.device, bytes);
        self.newest.len = len as u64;
        self.is_cut = len < bytes.len();
        if self.is_cut {
            return Err(Error::new(ErrorKind::Other, "a note was not written"));
        }
        self.device.flush()
    }
}

// The line of a note. Control characters of the text are written as question marks.
fn note_line(alloc: Global, text: &[u8]) -> Result<Vec<u8>, NoMemory>
    ensures { IfOk result (λ line. IsNote line.items) }
{
    let mut line = Vec::new(alloc);
    line.extend_from_slice(START)?;
    for byte in text {
        line.push(shown(*byte))?;
    }
    line.push(b'\n')?;
    Ok(line)
}

fn shown(byte: u8) -> u8
    ensures { result ≢ 10 }
{
    if byte < b' ' || byte == 127 {
        b'?'
    } else {
        byte
    }
}

// Writes the first of these bytes, up to a failure, and returns how many.
fn write_first<W: Write>(writer: &mut W, bytes: &[u8]) -> usize
    ensures bound { result ≤ length bytes.now }
    ensures bytes { Appends (W.contents writer.old) (W.contents writer.new) (take result bytes.now) }
    ensures failed { result < length bytes.now → W.has_failed writer.new ≡ true }
{
    let mut count = 0;
    while count < bytes.len() {
        match writer.write(&bytes[count..]) {
            Ok(0) | Err(_) => return count,
            Ok(len) => count += len,
        }
    }
    count
}

// The last of these bytes, or `last` if there is none.
fn last_byte(last: u8, bytes: &[u8]) -> u8
    ensures { result ≡ last_byte last bytes.now }
{
    match bytes.last() {
        Some(byte) => *byte,
        None => last,
    }
}
