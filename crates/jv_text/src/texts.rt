// Reading one text.
ghost use Rattle.std.specs.Prelude.{length, true};
ghost use Rattle.jv_cut.specs.Cut.{cut_from};
ghost use Rattle.jv_text.specs.Plain.{plain_value};
ghost use Rattle.jv_text.specs.Reading.{Gives, reading, or_malformed, text_of_cut};

use crate::faults::{Fault, fault_at};
use crate::numbers::whole_numbers;
use crate::reading::{Unread, read};
use crate::tokens::{Buffers, read_tokens};
use jv_cut::first_text;
use jv_data::Val;
use std::alloc::Global;

/// The value of bytes that are one JSON text with white space around it. Bytes without a text are unfinished at their
/// length, and a second text is malformed at its position.
pub fn read_text(alloc: Global, bytes: &[u8]) -> Result<Val, Fault>
    ensures { Gives result (text_of_cut (length bytes.now) (cut_from 0 true 0 bytes.now)) }
{
    match first_text(bytes) {
        Ok(Some((start, end))) => {
            let value = read_at(
                alloc,
                &bytes[start..end],
                start as u64,
                &mut Buffers::new(alloc),
            )?;
            match first_text(&bytes[end..]) {
                Ok(None) => Ok(value),
                Ok(Some((next, _))) => Err(Fault::Malformed {
                    at: (end + next) as u64,
                }),
                Err((_, next)) => Err(Fault::Malformed {
                    at: (end + next) as u64,
                }),
            }
        }
        Ok(None) => Err(Fault::Unfinished {
            at: bytes.len() as u64,
        }),
        Err((fault, at)) => Err(fault_at(fault, at as u64)),
    }
}

/// The value of a text that begins at this position of a stream.
pub(crate) fn read_at(
    alloc: Global,
    text: &[u8],
    at: u64,
    buffers: &mut Buffers,
) -> Result<Val, Fault>
    ensures { Gives result (reading at text.now) }
{
    match read_tokens(alloc, text, buffers) {
        Ok(value) => Ok(value),
        Err(Unread::NoValue) => read_other(alloc, text, at, buffers),
        Err(Unread::NoMemory) => Err(Fault::NoMemory),
    }
}

// The same for a text with a number in another form, and for one with no value.
fn read_other(alloc: Global, text: &[u8], at: u64, buffers: &mut Buffers) -> Result<Val, Fault>
    ensures { Gives result (reading at text.now) }
{
    match whole_numbers(alloc, text) {
        Ok(whole) => read_whole(alloc, whole.as_slice(), at, buffers),
        Err(Unread::NoValue) => Err(Fault::NotWhole { at }),
        Err(Unread::NoMemory) => Err(Fault::NoMemory),
    }
}

fn read_whole(alloc: Global, text: &[u8], at: u64, buffers: &mut Buffers) -> Result<Val, Fault>
    ensures { Gives result (or_malformed at (plain_value text.now)) }
{
    match read(alloc, text, buffers) {
        Ok(value) => Ok(value),
        Err(Unread::NoValue) => Err(Fault::Malformed { at }),
        Err(Unread::NoMemory) => Err(Fault::NoMemory),
    }
}
