// Readers and writers whose failures are counted.
ghost use Rattle.std.specs.Prelude.{◌≡◌, ◌⊎◌, ◌≤◌, ◌<◌, ◌+◌, ◌^◌, true, length, OnOk, OnErr, IfOk};
ghost use Rattle.std.specs.Io.{ReadsAtMost, WritesAtMost};
ghost use Rattle.std.specs.Io.KnownBytes.{Keeps, ReadConsumes, WriteAppends};

use crate::{Noted, Read, Write};
use std::alloc::Global;
use std::io;
use std::io::{Error, ErrorKind};

/// More reads than any input needs: at a million per second they last for twelve days. In pieces of 65,536 bytes (`read_buffer`)
/// they are 2^56 bytes, so counts of bytes fit 64 bits.
const READS: u64 = 1 << 40;

/// A reader or writer with a number that rises with each of its calls that fails: it returns an error, or a write of at least
/// one byte writes none. The number stops at `u64::MAX`.
///
/// A reader allows at most 2^40 reads, and every later one is an error like any other.
#[derive(Drop)]
pub struct Watched<T> {
    device: T,
    reads_left: u64,
    failures: u64,
    // The error of the call that failed last.
    error: Option<Error>,
    ghost few: { reads_left ≤ 2 ^ 40 },
}

impl<T> Watched<T> {
    ghost use Rattle.jq_devices.specs.Watched.{HasFailed, device_of, failures_of, reads_left};

    /// No call was made yet.
    pub fn new(device: T) -> Watched<T>
        ensures device { device_of result ≡ device }
        ensures failures { failures_of result ≡ 0 }
        ensures reads { reads_left result ≡ 2 ^ 40 }
    {
        Watched {
            device,
            reads_left: READS,
            failures: 0,
            error: None,
        }
    }

    /// The number that rises with each failed call.
    pub fn failures(&self) -> u64
        ensures { result ≡ failures_of self.now }
    {
        self.failures
    }

    /// The reader or writer itself.
    pub fn device(&self) -> &T
        ensures { result.now ≡ device_of self.now }
    {
        &self.device
    }

    /// The reader or writer itself, without its counts.
    pub fn into_device(self) -> T
        ensures { result ≡ device_of self }
    {
        self.device
    }

    /// The error of the call that failed last, if it returned one.
    pub fn error(&self) -> Option<&Error> {
        self.error.as_ref()
    }

    // Counts a failed call, and keeps the error that it returned.
    fn count_failure(&mut self, error: Option<Error>)
        ensures device { device_of self.new ≡ device_of self.old }
        ensures reads { reads_left self.new ≡ reads_left self.old }
        ensures kept { failures_of self.old ≤ failures_of self.new }
        ensures failed { HasFailed (failures_of self.old) (failures_of self.new) }
    {
        self.failures = self.failures.saturating_add(1);
        self.error = error;
    }
}

impl<R: Read> Watched<R> {
    ghost use Rattle.jq_devices.specs.Watched.{HasFailed, device_of, failures_of, reads_left};

    /// A read of the reader. It is an error only if the reader has failed, or no read is left.
    pub fn read(&mut self, buf: &mut [u8]) -> io::Result<usize>
        ensures bound { ReadsAtMost result buf.new }
        ensures bytes { ReadConsumes (R.remaining (device_of self.old)) (R.remaining (device_of self.new)) result buf.new }
        ensures few { reads_left self.old ≤ 2 ^ 40 }
        ensures reads { OnOk result (reads_left self.old ≡ reads_left self.new + 1) }
        ensures unfailed { OnOk result (failures_of self.new ≡ failures_of self.old) }
        ensures failed { OnErr result (HasFailed (failures_of self.old) (failures_of self.new)) }
        ensures blamed { OnErr result ((R.has_failed (device_of self.new) ≡ true) ⊎ (reads_left self.old ≡ 0)) }
    {
        if self.reads_left == 0 {
            let error = Error::new(ErrorKind::Other, "too many reads");
            self.count_failure(Some(error));
            return Err(error);
        }
        self.reads_left -= 1;
        let result = self.device.read(buf);
        if let Err(error) = &result {
            self.count_failure(Some(*error));
        }
        result
    }
}

impl<W: Write> Watched<W> {
    ghost use Rattle.jq_devices.specs.Watched.{HasFailed, device_of, failures_of};
    ghost use Rattle.jq_devices.specs.Writing.{IsFlushed};

    /// A write of the writer. It is an error only if the writer has failed.
    pub fn write(&mut self, buf: &[u8]) -> io::Result<usize>
        ensures bound { WritesAtMost result buf.now }
        ensures bytes { WriteAppends (W.contents (device_of self.old)) (W.contents (device_of self.new)) result buf.now }
        ensures kept { failures_of self.old ≤ failures_of self.new }
        ensures unfailed { IfOk result (λ len. 0 < len → failures_of self.new ≡ failures_of self.old) }
        ensures no_bytes { OnOk result (length buf.now ≡ 0 → failures_of self.new ≡ failures_of self.old) }
        ensures none { IfOk result (λ len. len ≡ 0 → 0 < length buf.now → HasFailed (failures_of self.old) (failures_of self.new) × (W.has_failed (device_of self.new) ≡ true)) }
        ensures failed { OnErr result (HasFailed (failures_of self.old) (failures_of self.new)) }
        ensures blamed { OnErr result (W.has_failed (device_of self.new) ≡ true) }
    {
        let result = self.device.write(buf);
        match &result {
            Ok(len) => {
                if *len == 0 && !buf.is_empty() {
                    self.count_failure(None);
                }
            }
            Err(error) => self.count_failure(Some(*error)),
        }
        result
    }

    /// A flush of the writer. It is an error only if the writer has failed.
    pub fn flush(&mut self) -> io::Result<()>
        ensures bytes { Keeps (W.contents (device_of self.old)) (W.contents (device_of self.new)) }
        ensures kept { failures_of self.old ≤ failures_of self.new }
        ensures unfailed { OnOk result (failures_of self.new ≡ failures_of self.old) }
        ensures failed { OnErr result (HasFailed (failures_of self.old) (failures_of self.new)) }
        ensures all { OnOk result (IsFlushed (W.contents (device_of self.new)) (W.flushed (device_of self.new))) }
        ensures blamed { OnErr result (W.has_failed (device_of self.new) ≡ true) }
    {
        let result = self.device.flush();
        if let Err(error) = &result {
            self.count_failure(Some(*error));
        }
        result
    }

    /// Has the writer take notes from here on, if it can.
    pub fn take_notes(&self) {
        self.device.take_notes();
    }

    /// Whether the writer takes notes.
    pub fn takes_notes(&self) -> bool {
        self.device.takes_notes()
    }

    /// A note of the writer. It is an error only if the writer has failed.
    pub fn note(&mut self, text: &str) -> io::Result<()>
        ensures bytes { Keeps (W.contents (device_of self.old)) (W.contents (device_of self.new)) }
        ensures kept { failures_of self.old ≤ failures_of self.new }
        ensures unfailed { OnOk result (failures_of self.new ≡ failures_of self.old) }
        ensures failed { OnErr result (HasFailed (failures_of self.old) (failures_of self.new)) }
        ensures blamed { OnErr result (W.has_failed (device_of self.new) ≡ true) }
    {
        let result = self.device.note(text);
        if let Err(error) = &result {
            self.count_failure(Some(*error));
        }
        result
    }
}

impl<W: Write> Watched<W> {
    ghost use Rattle.jq_devices.specs.Watched.{device_of, failures_of};

    /// The same writer, which can take notes.
    pub fn noting(self, alloc: Global) -> Watched<Noted<W>>
        ensures contents { ⟦<Noted<W> as Write>⟧.contents (device_of result) ≡ W.contents (device_of self) }
        ensures failures { failures_of result ≡ failures_of self }
    {
        let Watched {
            device,
            reads_left,
            failures,
            error,
        } = self;
        Watched {
            device: Noted::new(alloc, device),
            reads_left,
            failures,
            error,
        }
    }
}

impl<W: Write> Watched<Noted<W>> {
    ghost use Rattle.jq_devices.specs.Notes.{IsNoted};
    ghost use Rattle.jq_devices.specs.Watched.{device_of, failures_of};

    /// The writer within it, which takes no notes.
    pub fn into_noted(self) -> Watched<W>
        ensures noted { IsNoted (W.has_failed (device_of result)) (⟦<Noted<W> as Write>⟧.contents (device_of self)) (W.contents (device_of result)) }
        ensures failures { failures_of result ≡ failures_of self }
    {
        let Watched {
            device,
            reads_left,
            failures,
            error,
        } = self;
        Watched {
            device: device.into_device(),
            reads_left,
            failures,
            error,
        }
    }
}
