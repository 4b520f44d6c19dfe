// Reading files one after the other.
ghost use Rattle.std.specs.Prelude.{◌≡◌, ◌≢◌, ◌<◌, ◌++◌, ◌∷◌, ◌⊎◌, [], List, ℕ, true, false, length, map, string_bytes, Ok, IsErr, IfOk, IfSome, OnErr};
ghost use Rattle.std.specs.Io.{ReadsAtMost};
ghost use Rattle.std.specs.Io.KnownBytes.{Keeps, ReadConsumes};

use crate::{Opener, Read};
use std::collections::VecDeque;
use std::io;
use std::io::{Error, ErrorKind};

/// An opener whose files are not named yet. It gives one reader, and opens nothing.
#[derive(Drop)]
pub struct UnnamedFiles<'a, O> {
    opener: &'a O,
}

/// The files with some names, one after the other as one stream of bytes.
///
/// A file is opened when a read reaches it, and closed at its end; at most one is open. A file that cannot be opened is an
/// error of the read that reaches it. After an error of an opening or of a read, every later read is an error too, and no
/// other file is opened. An interrupted read is an error like any other.
#[derive(Drop)]
pub struct FileReader<'a, O: Opener> {
    opener: &'a O,
    // The files that were not opened yet.
    names: VecDeque<String>,
    file: Option<O::File>,
    has_failed: bool,
    place: Place,
}

// The file that the bytes of the last read are in.
#[derive(Drop)]
struct Place {
    // The file that was opened last.
    opened: Option<String>,
    // Nothing was read from it.
    is_new: bool,
    // The file before it from which bytes were read last.
    earlier: Option<String>,
    // The byte that was read last may be the last one of a number or of a word, which the next byte ends.
    may_be_open: bool,
    // Every text that the last bytes end is known to end in their file.
    is_known: bool,
}

impl<'a, O> UnnamedFiles<'a, O> {
    ghost use Rattle.jq_devices.specs.Files.{opener_of};

    /// The files that this opener can open.
    pub fn new(opener: &'a O) -> UnnamedFiles<'a, O>
        ensures { opener_of result ≡ opener.now }
    {
        UnnamedFiles { opener }
    }
}

impl<'a, O: Opener> UnnamedFiles<'a, O> {
    ghost use Rattle.jq_devices.specs.Files.{bytes_left, contents, has_failed, is_open, opener_of, unopened};

    /// The files with these names. Opens no file yet.
    pub fn named(self, names: Vec<String>) -> FileReader<'a, O>
        ensures whole { bytes_left O.content O.File.remaining result ≡ contents (O.content (opener_of self.entry)) (map string_bytes names.items) }
        ensures unopened { unopened result ≡ map string_bytes names.items }
        ensures closed { is_open result ≡ false }
        ensures sound { has_failed result ≡ false }
    {
        FileReader {
            opener: self.opener,
            names: VecDeque::from(names),
            file: None,
            has_failed: false,
            place: Place {
                opened: None,
                is_new: false,
                earlier: None,
                may_be_open: false,
                is_known: false,
            },
        }
    }
}

impl<O: Opener> FileReader<'_, O> {
    ghost use Rattle.jq_devices.specs.Files.{is_open, unopened};

    /// The name of the file that is read, or of the next one if none is open. After a failure it is the file that failed.
    pub fn name(&self) -> Option<&str>
        ensures { IfSome result (λ name. is_open self.now ≡ false → (rest : List (List ℕ)) × (unopened self.now ≡ name.now ∷ rest)) }
    {
        if self.file.is_some() {
            return self.place.opened.as_deref();
        }
        match self.names.front() {
            Some(name) => Some(name.as_str()),
            None => None,
        }
    }
}

impl<O: Opener> Read for FileReader<'_, O> {
    ghost use Rattle.jq_devices.specs.Files.{IsDone, a_part_failed, bytes_left, has_failed, unopened};

    ghost remaining = { bytes_left O.content O.File.remaining };

    ghost has_failed = { λ r. has_failed r };

    fn read(&mut self, buf: &mut [u8]) -> io::Result<usize>
        ensures bound { ReadsAtMost result buf.new }
        ensures bytes { ReadConsumes (bytes_left O.content O.File.remaining self.old) (bytes_left O.content O.File.remaining self.new) result buf.new }

        // A read into a buffer with room returns no bytes only after the last file, and from then on always. A read into one without
        // room returns no bytes unless the reader has failed.
        ensures end { IfOk result (λ len. len ≡ 0 → 0 < length buf.old → IsDone self.new) }
        ensures ended { IsDone self.old ⊎ ((has_failed self.old ≡ false) × (length buf.old ≡ 0)) → (result ≡ Ok 0) × (self.new ≡ self.old) }

        // After an error there are only errors.
        ensures fails { OnErr result (has_failed self.new ≡ true) }
        ensures failed { has_failed self.old ≡ true → IsErr result × (self.new ≡ self.old) }

        // The first error is one of the open file, or of opening the next one.
        ensures blamed { OnErr result (has_failed self.old ≡ false → a_part_failed O.can_open O.File.has_failed self.new ≡ true) }

        // The files are opened in their order, each at most once.
        ensures opened { (names : List (List ℕ)) × (unopened self.old ≡ names ++ unopened self.new) }
    {
        if self.has_failed {
            return Err(Error::new(ErrorKind::Other, "an earlier read failed"));
        }
        if buf.is_empty() {
            return Ok(0);
        }
        let result = self.read_next(buf);
        self.has_failed = result.is_err();
        result
    }

    fn file(&self) -> Option<&str> {
        self.place.file()
    }
}

impl Place {
    // A file was opened.
    fn open(&mut self, name: Option<String>) {
        if !self.is_new {
            self.earlier = self.opened.take();
        }
        self.opened = name;
        self.is_new = true;
    }

    // Bytes of the open file were read, of which this is the last one.
    fn read(&mut self, last: u8) {
        self.is_known = !(self.is_new && self.may_be_open);
        self.is_new = false;
        self.may_be_open = !matches!(last, b' ' | b'\t' | b'\n' | b'\r' | b'"' | b']' | b'}');
    }

    // The file that the last bytes are in, if every text that they end is known to end in it.
    fn file(&self) -> Option<&str> {
        if !self.is_known {
            None
        } else if self.is_new {
            self.earlier.as_deref()
        } else {
            self.opened.as_deref()
        }
    }
}

impl<O: Opener> FileReader<'_, O> {
    ghost use Rattle.jq_devices.specs.Files.{a_part_failed, bytes_left, has_failed, is_open, unopened};
    ghost use Rattle.jq_devices.specs.private.Reads.{Gives, IsNext};

    // Reads from the open file, or from the next one that has bytes.
    fn read_next(&mut self, buf: &mut [u8]) -> io::Result<usize>
        requires room { 0 < length buf.old }
        ensures bound { ReadsAtMost result buf.new }
        ensures bytes { Gives (bytes_left O.content O.File.remaining self.old) (bytes_left O.content O.File.remaining self.new) result buf.new }
        ensures end { IfOk result (λ len. len ≡ 0 → (unopened self.new ≡ []) × (is_open self.new ≡ false)) }
        ensures opened { (names : List (List ℕ)) × (unopened self.old ≡ names ++ unopened self.new) }
        ensures ended { unopened self.old ≡ [] → is_open self.old ≡ false → (result ≡ Ok 0) × (self.new ≡ self.old) }
        ensures failed { has_failed self.new ≡ has_failed self.old }
        ensures blamed { OnErr result (a_part_failed O.can_open O.File.has_failed self.new ≡ true) }
    {
        loop {
            let len = self.read_open(buf)?;
            if len > 0 || !self.open_next()? {
                return Ok(len);
            }
        }
    }

    // Reads from the open file, if there is one, and closes it at its end.
    fn read_open(&mut self, buf: &mut [u8]) -> io::Result<usize>
        requires room { 0 < length buf.old }
        ensures bound { ReadsAtMost result buf.new }
        ensures bytes { Gives (bytes_left O.content O.File.remaining self.old) (bytes_left O.content O.File.remaining self.new) result buf.new }
        ensures end { IfOk result (λ len. len ≡ 0 → is_open self.new ≡ false) }
        ensures ended { is_open self.old ≡ false → (result ≡ Ok 0) × (self.new ≡ self.old) }
        ensures unopened { unopened self.new ≡ unopened self.old }
        ensures failed { has_failed self.new ≡ has_failed self.old }
        ensures blamed { OnErr result (a_part_failed O.can_open O.File.has_failed self.new ≡ true) }
    {
        let Some(file) = &mut self.file else {
            return Ok(0);
        };
        let len = file.read(buf)?;
        if len == 0 {
            self.file = None;
        } else {
            self.place.read(buf[len - 1]);
        }
        Ok(len)
    }

    // Opens the next file, and returns whether there is one.
    fn open_next(&mut self) -> io::Result<bool>
        requires closed { is_open self.old ≡ false }
        ensures next { IfOk result (λ is_there. IsNext is_there self.old self.new) }
        ensures bytes { Keeps (bytes_left O.content O.File.remaining self.old) (bytes_left O.content O.File.remaining self.new) }
        ensures err { OnErr result ((self.new ≡ self.old) × (unopened self.old ≢ [])) }
        ensures failed { has_failed self.new ≡ has_failed self.old }
        ensures blamed { OnErr result (a_part_failed O.can_open O.File.has_failed self.new ≡ true) }
    {
        let Some(name) = self.names.front() else {
            return Ok(false);
        };
        self.file = Some(self.opener.open(name)?);
        self.place.open(self.names.pop_front());
        Ok(true)
    }
}
