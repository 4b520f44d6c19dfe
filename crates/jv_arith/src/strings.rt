// Strings under `+` and `*`.
ghost use Rattle.std.specs.Prelude.{◌≡◌, ◌++◌, ◌<◌, IfOk, OnOk, pos};
ghost use Rattle.std.specs.Str.{chars};
ghost use Rattle.jv_data.specs.Fails.{AnswersAs};
ghost use Rattle.jv_data.specs.Shared.{text_in};
ghost use Rattle.jv_data.specs.Text.{text_of};
ghost use Rattle.jv_arith.specs.Strings.{copies, repeated};

use crate::errors::repeat_too_long;
use jv_data::{Fail, SharedText, Val};
use std::alloc::{AllocError, Global};

/// The greatest length in bytes of a string that `*` returns.
const REPEAT_LIMIT: u64 = 268_435_456;

/// Appends the right text to the left one, in place if that is not shared.
pub(crate) fn append(left: &mut SharedText, right: &SharedText) -> Result<(), AllocError>
    ensures { OnOk result (text_in left.new ≡ text_in left.old ++ text_in right.now) }
{
    left.push_str(right.as_str())?;
    Ok(())
}

/// The text repeated `count` times, or null for a count below 1.
pub(crate) fn repeated(alloc: Global, text: &SharedText, count: &i64) -> Result<Val, Fail>
    ensures { AnswersAs result (repeated (text_in text.now) count.now) }
{
    match u64::try_from(*count) {
        Ok(count) if count > 0 => repeated_once_at_least(alloc, text.as_str(), count),
        _ => Ok(Val::Null),
    }
}

fn repeated_once_at_least(alloc: Global, text: &str, count: u64) -> Result<Val, Fail>
    requires { 0 < count }
    ensures { AnswersAs result (repeated (chars text.now) (pos count)) }
{
    if text.is_empty() {
        return Ok(Val::from_text(alloc, text)?);
    }
    if count > REPEAT_LIMIT / text.len() as u64 {
        return Err(repeat_too_long(alloc));
    }
    Ok(Val::from_string(alloc, copies(alloc, text, count)?)?)
}

fn copies(alloc: Global, text: &str, count: u64) -> Result<String, AllocError>
    ensures { IfOk result (λ s. text_of s ≡ copies count (chars text.now)) }
{
    let mut copies = String::new(alloc);
    for _ in 0..count {
        copies.push_str(text)?;
    }
    Ok(copies)
}
