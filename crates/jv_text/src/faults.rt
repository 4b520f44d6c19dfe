// Why no value was read from a text.
ghost use Rattle.std.specs.Prelude.{◌≡◌};
ghost use Rattle.jv_text.specs.FaultWords.{fault_place, fault_words};
ghost use Rattle.jv_text.specs.Reading.{fault_at};

use jv_cut::CutFault;
use std::fmt;
use thiserror::Error;

/// Why no value was read. `at` is the position of the text's first byte in the stream.
#[derive(Clone, Copy, Debug, PartialEq, Eq, Error)]
pub enum Fault {
    /// The text is no JSON (RFC 8259).
    Malformed { at: u64 },
    /// The stream ends inside the text.
    Unfinished { at: u64 },
    /// A number of the text is not a whole number from -9223372036854775808 to 9223372036854775807.
    NotWhole { at: u64 },
    /// More than 127 arrays and objects are nested.
    TooDeep { at: u64 },
    /// The text has more than 67,108,864 bytes.
    TooLong { at: u64 },
    NoMemory,
}

impl Fault {
    /// What is wrong: `malformed text`, `out of memory`.
    pub fn words(self) -> &'static str
        ensures { result.now ≡ fault_words self }
    {
        match self {
            Fault::Malformed { .. } => "malformed text",
            Fault::Unfinished { .. } => "unfinished text",
            Fault::NotWhole { .. } => "number is not a 64-bit whole number",
            Fault::TooDeep { .. } => "nested too deep",
            Fault::TooLong { .. } => "text too long",
            Fault::NoMemory => "out of memory",
        }
    }

    /// The position of the text's first byte in the stream; `None` for `NoMemory`.
    pub fn place(self) -> Option<u64>
        ensures { result ≡ fault_place self }
    {
        match self {
            Fault::Malformed { at } => Some(at),
            Fault::Unfinished { at } => Some(at),
            Fault::NotWhole { at } => Some(at),
            Fault::TooDeep { at } => Some(at),
            Fault::TooLong { at } => Some(at),
            Fault::NoMemory => None,
        }
    }
}

/// The place of the text and what is wrong: `input at byte 2: malformed text`.
impl fmt::Display for Fault {
    ghost use Rattle.std.specs.Prelude.{Some};
    ghost use Rattle.jv_text.specs.FaultWords.{fault_text};

    ghost output = { λ fault. Some (fault_text fault) };

    fn fmt<W: fmt::Write>(&self, f: &mut fmt::Formatter<W>) -> fmt::Result {
        let words = self.words();
        match self.place() {
            Some(at) => write!(f, "input at byte {at}: {words}"),
            None => write!(f, "{words}"),
        }
    }
}

pub(crate) fn fault_at(fault: CutFault, at: u64) -> Fault
    ensures { result ≡ fault_at fault at }
{
    match fault {
        CutFault::Misplaced => Fault::Malformed { at },
        CutFault::Unfinished => Fault::Unfinished { at },
        CutFault::TooDeep => Fault::TooDeep { at },
        CutFault::TooLong => Fault::TooLong { at },
    }
}
