// What a reader and a writer tell: their bytes, and whether a call of theirs failed.
ghost use Rattle.std.specs.Prelude.{◌≡◌, ◌<◌, ℕ, List, Bool, None, Some, true, false, length, IfOk, OnErr, OnOk};
ghost use Rattle.std.specs.declared.option.Option.{Option};
ghost use Rattle.std.specs.Io.{ReadsAtMost, WritesAtMost};
ghost use Rattle.std.specs.Io.KnownBytes.{Keeps, ReadConsumes, WriteAppends};
ghost use Rattle.jq_devices.specs.Writing.{IsFlushed};

use std::alloc::Allocator;
use std::io;

/// A reader as `std::io::Read` that also tells whether it has failed.
pub trait Read {
    // The bytes that reads will return from here on, if they are known.
    ghost remaining: { Self → Option (List ℕ) } = { λ _. None };

    // One of its calls failed. It is true too if the reader does not tell.
    ghost has_failed: { Self → Bool } = { λ _. true };

    /// Reads bytes to the start of the buffer, and returns how many.
    fn read(&mut self, buf: &mut [u8]) -> io::Result<usize>
        ensures bound { ReadsAtMost result buf.new }
        ensures bytes { ReadConsumes (remaining self.old) (remaining self.new) result buf.new }
        ensures failed { OnErr result (has_failed self.new ≡ true) };

    /// The name of the file in which the bytes of the last read are, if the reader tells it. A text of the bytes that was not
    /// complete before that read, and is complete after it, ends in this file.
    fn file(&self) -> Option<&str> {
        None
    }
}

/// A writer as `std::io::Write` that also tells whether it has failed and what it has flushed.
pub trait Write {
    // The bytes that were written to it, if they are known.
    ghost contents: { Self → Option (List ℕ) } = { λ _. None };

    // Those of them that are in no buffer of the writer, if the writer tells.
    ghost flushed: { Self → Option (List ℕ) } = { λ _. None };

    // One of its calls failed. It is true too if the writer does not tell.
    ghost has_failed: { Self → Bool } = { λ _. true };

    /// Writes bytes from the start of the buffer, and returns how many. To write none of at least one byte is a failure.
    fn write(&mut self, buf: &[u8]) -> io::Result<usize>
        ensures bound { WritesAtMost result buf.now }
        ensures bytes { WriteAppends (contents self.old) (contents self.new) result buf.now }
        ensures failed { OnErr result (has_failed self.new ≡ true) }
        ensures none { IfOk result (λ len. len ≡ 0 → 0 < length buf.now → has_failed self.new ≡ true) };

    /// Passes on what the writer has in buffers.
    fn flush(&mut self) -> io::Result<()>
        ensures bytes { Keeps (contents self.old) (contents self.new) }
        ensures all { OnOk result (IsFlushed (contents self.new) (flushed self.new)) }
        ensures failed { OnErr result (has_failed self.new ≡ true) };

    /// Takes notes from here on, if it can.
    fn take_notes(&self) {}

    /// Whether it takes notes.
    fn takes_notes(&self) -> bool {
        false
    }

    /// Puts a note after the line that was written last, if it takes notes. A note is none of its contents.
    fn note(&mut self, _text: &str) -> io::Result<()>
        ensures bytes { Keeps (contents self.old) (contents self.new) }
        ensures failed { OnErr result (has_failed self.new ≡ true) }
    {
        Ok(())
    }
}

/// A reader or writer of the standard library. It does not tell whether it has failed, nor what it has flushed.
#[derive(Drop)]
pub struct FromStd<T>(pub T);

impl<R: io::Read> Read for FromStd<R> {
    ghost remaining = { λ r. R.remaining r.0 };

    fn read(&mut self, buf: &mut [u8]) -> io::Result<usize> {
        self.0.read(buf)
    }
}

impl<W: io::Write> Write for FromStd<W> {
    ghost contents = { λ w. W.contents w.0 };

    fn write(&mut self, buf: &[u8]) -> io::Result<usize> {
        self.0.write(buf)
    }

    fn flush(&mut self) -> io::Result<()> {
        self.0.flush()
    }
}

impl Read for &[u8] {
    ghost remaining = { λ bytes. Some bytes.now };

    ghost has_failed = { λ _. false };

    fn read(&mut self, buf: &mut [u8]) -> io::Result<usize> {
        io::Read::read(self, buf)
    }
}

impl<A: Allocator> Write for Vec<u8, A> {
    ghost contents = { λ bytes. Some bytes.items };

    ghost flushed = { λ bytes. Some bytes.items };

    fn write(&mut self, buf: &[u8]) -> io::Result<usize> {
        io::Write::write(self, buf)
    }

    fn flush(&mut self) -> io::Result<()> {
        io::Write::flush(self)
    }
}
