// The devices of a command: its input and both of its outputs.
ghost use Rattle.std.specs.Prelude.{◌≡◌};

use jq_devices::{Noted, Read, Watched, Write};
use std::alloc::Global;
use std::marker::Model;

/// Standard output and standard error of a command. Contracts see the bytes on each of them, the counts of their failed calls, and
/// whether standard error has failed.
#[derive(Drop)]
pub struct Outputs<O: Write, E: Write> {
    pub output: Watched<O>,
    pub errors: Watched<E>,
}

impl<O: Write, E: Write> Model for Outputs<O, E> {
    ghost use Rattle.jq_devices.specs.Watched.{device_of, failures_of};
    ghost use Rattle.jq_stream.specs.Views.{OutputsView};

    ghost Value = { OutputsView };

    ghost view = { λ o. record {
      bytes = record { output = O.contents (device_of o.output); errors = E.contents (device_of o.errors) };
      failures = record { output = failures_of o.output; errors = failures_of o.errors };
      errors_failed = E.has_failed (device_of o.errors);
    } };
}

impl<O: Write, E: Write> Outputs<O, E> {
    /// Both outputs on these writers. No call was made yet.
    pub fn new(output: O, errors: E) -> Outputs<O, E>
        ensures output { result.bytes.output ≡ O.contents output }
        ensures errors { result.bytes.errors ≡ E.contents errors }
        ensures no_failure { (result.failures.output ≡ 0) × (result.failures.errors ≡ 0) }
    {
        Outputs {
            output: Watched::new(output),
            errors: Watched::new(errors),
        }
    }

    /// The writers themselves, without their counts.
    pub fn into_devices(self) -> (O, E)
        ensures output { O.contents result.0 ≡ self.bytes.output }
        ensures errors { E.contents result.1 ≡ self.bytes.errors }
    {
        (self.output.into_device(), self.errors.into_device())
    }
}

/// The input of a command and both of its outputs. Contracts see the input itself, the bytes that it has left and those on both outputs,
/// the counts of failed calls, and whether standard error has failed.
#[derive(Drop)]
pub struct Streams<R: Read, O: Write, E: Write> {
    pub input: Watched<R>,
    pub outputs: Outputs<O, E>,
}

impl<R: Read, O: Write, E: Write> Model for Streams<R, O, E> {
    ghost use Rattle.jq_devices.specs.Watched.{device_of, failures_of};
    ghost use Rattle.jq_devices.specs.declared.watched.Watched.{Watched as Reader};
    ghost use Rattle.jq_stream.specs.Views.{StreamsView};

    ghost Value = { StreamsView (Reader R) };

    ghost view = { λ s. record {
      input = s.input;
      bytes = record { remaining = R.remaining (device_of s.input); outputs = s.outputs.bytes };
      failures = record { input = failures_of s.input; outputs = s.outputs.failures };
      errors_failed = s.outputs.errors_failed;
    } };
}

impl<R: Read, O: Write, E: Write> Streams<R, O, E> {
    /// This reader as the input, and these outputs. The reader was not called yet.
    pub fn new(input: R, outputs: Outputs<O, E>) -> Streams<R, O, E>
        ensures remaining { result.bytes.remaining ≡ R.remaining input }
        ensures outputs { result.bytes.outputs ≡ outputs.bytes }
        ensures unread { result.failures.input ≡ 0 }
        ensures counts { result.failures.outputs ≡ outputs.failures }
    {
        Streams {
            input: Watched::new(input),
            outputs,
        }
    }

    /// The same devices, of which standard error can take notes.
    pub fn noting(self, alloc: Global) -> Streams<R, O, Noted<E>>
        ensures input { result.input ≡ self.input }
        ensures bytes { result.bytes ≡ self.bytes }
        ensures failures { result.failures ≡ self.failures }
    {
        let Streams { input, outputs } = self;
        let Outputs { output, errors } = outputs;
        let errors = errors.noting(alloc);
        Streams {
            input,
            outputs: Outputs { output, errors },
        }
    }
}

impl<R: Read, O: Write, E: Write> Streams<R, O, Noted<E>> {
    ghost use Rattle.jq_devices.specs.Notes.{IsNoted};

    /// The same devices, of which standard error takes no notes.
    pub fn into_noted(self) -> Streams<R, O, E>
        ensures input { result.input ≡ self.input }
        ensures remaining { result.bytes.remaining ≡ self.bytes.remaining }
        ensures output { result.bytes.outputs.output ≡ self.bytes.outputs.output }
        ensures noted { IsNoted result.errors_failed self.bytes.outputs.errors result.bytes.outputs.errors }
        ensures failures { result.failures ≡ self.failures }
    {
        let Streams { input, outputs } = self;
        let Outputs { output, errors } = outputs;
        let errors = errors.into_noted();
        Streams {
            input,
            outputs: Outputs { output, errors },
        }
    }
}
