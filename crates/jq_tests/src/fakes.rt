// Readers and writers in memory that fail at a call, and that give or take few bytes.
use jq_devices::{Read, Write};
use std::alloc::Global;
use std::io;
use std::io::ErrorKind;

/// A reader that returns at most `most` of its bytes in a call. Its call of number `fails` is an error (0: none is).
#[derive(Drop)]
pub(crate) struct Bytes<'a> {
    left: &'a [u8],
    most: usize,
    fails: usize,
    calls: usize,
    given: usize,
}

impl<'a> Bytes<'a> {
    pub(crate) fn new(bytes: &'a [u8], most: usize, fails: usize) -> Bytes<'a> {
        Bytes {
            left: bytes,
            most,
            fails,
            calls: 0,
            given: 0,
        }
    }

    /// The number of its calls.
    pub(crate) fn calls(&self) -> usize {
        self.calls
    }

    /// The number of bytes that it returned.
    pub(crate) fn given(&self) -> usize {
        self.given
    }
}

impl Read for Bytes<'_> {
    fn read(&mut self, buf: &mut [u8]) -> io::Result<usize> {
        self.calls = self.calls.saturating_add(1);
        if self.calls == self.fails {
            return Err(io::Error::from(ErrorKind::Interrupted));
        }
        let len = buf.len().min(self.left.len()).min(self.most);
        buf[..len].copy_from_slice(&self.left[..len]);
        self.left = &self.left[len..];
        self.given = self.given.saturating_add(len);
        Ok(len)
    }
}

/// A reader that fills each buffer with spaces. Its call of number `fails` and each later one is an error.
#[derive(Drop)]
pub(crate) struct Spaces {
    fails: usize,
    calls: usize,
}

impl Spaces {
    pub(crate) fn new(fails: usize) -> Spaces {
        Spaces { fails, calls: 0 }
    }

    /// The number of its calls.
    pub(crate) fn calls(&self) -> usize {
        self.calls
    }
}

impl Read for Spaces {
    fn read(&mut self, buf: &mut [u8]) -> io::Result<usize> {
        self.calls = self.calls.saturating_add(1);
        if self.calls >= self.fails {
            return Err(io::Error::from(ErrorKind::Other));
        }
        buf.fill(b' ');
        Ok(buf.len())
    }
}

/// A writer that keeps at most `most` bytes of a write. Of its calls, writes and flushes counted together, the one of number
/// `fails` is an error (0: none is).
#[derive(Drop)]
pub(crate) struct Kept {
    bytes: Vec<u8>,
    most: usize,
    fails: usize,
    calls: usize,
}

impl Kept {
    pub(crate) fn new(alloc: Global, most: usize, fails: usize) -> Kept {
        Kept {
            bytes: Vec::new(alloc),
            most,
            fails,
            calls: 0,
        }
    }

    /// The bytes that were written.
    pub(crate) fn bytes(&self) -> &[u8] {
        self.bytes.as_slice()
    }

    /// The number of its calls.
    pub(crate) fn calls(&self) -> usize {
        self.calls
    }

    fn count(&mut self) -> io::Result<()> {
        self.calls = self.calls.saturating_add(1);
        if self.calls == self.fails {
            return Err(io::Error::from(ErrorKind::Interrupted));
        }
        Ok(())
    }
}

impl Write for Kept {
    fn write(&mut self, buf: &[u8]) -> io::Result<usize> {
        self.count()?;
        let len = buf.len().min(self.most);
        self.bytes.extend_from_slice(&buf[..len])?;
        Ok(len)
    }

    fn flush(&mut self) -> io::Result<()> {
        self.count()
    }
}

/// A writer that takes no memory: it compares what is written with the bytes that are wanted.
#[derive(Drop)]
pub(crate) struct Compared<'a> {
    left: &'a [u8],
    is_same: bool,
}

impl<'a> Compared<'a> {
    pub(crate) fn new(wanted: &'a str) -> Compared<'a> {
        Compared {
            left: wanted.as_bytes(),
            is_same: true,
        }
    }

    /// Whether the wanted bytes begin with what was written.
    pub(crate) fn is_front(&self) -> bool {
        self.is_same
    }

    /// Whether the wanted bytes were written, and no others.
    pub(crate) fn is_whole(&self) -> bool {
        self.is_same && self.left.is_empty()
    }
}

impl Write for Compared<'_> {
    fn write(&mut self, buf: &[u8]) -> io::Result<usize> {
        if self.left.starts_with(buf) {
            self.left = self.left.get(buf.len()..).unwrap_or(&[]);
        } else {
            self.is_same = false;
        }
        Ok(buf.len())
    }

    fn flush(&mut self) -> io::Result<()> {
        Ok(())
    }
}
