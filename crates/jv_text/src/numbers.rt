// Writing the numbers of a text as whole numbers.
ghost use Rattle.std.specs.Prelude.{◌≡◌, ◌<◌, ◌≤◌, ◌^◌, ◌++◌, ◌||◌, ◌==◌, [], length, slice_index, IsTrue, IfSome, Some, option_map};
ghost use Rattle.std.specs.Bool.{OnTrue};
ghost use Rattle.std.specs.Char.{is_ascii_digit};
ghost use Rattle.std.specs.Str.Parse.{AllDigits, digits_value};
ghost use Rattle.json.specs.Word.{head};
ghost use Rattle.jv_cut.specs.declared.nesting.Quote.TheVariants.{Outside};
ghost use Rattle.jv_text.specs.Numbers.{run_text, is_in_run, whole_numbers};
ghost use Rattle.jv_text.specs.private.PlainTokens.{IsShortNumber};
ghost use Rattle.jv_text.specs.private.Runs.{is_minus, IsShort, NumberIs};
ghost use Rattle.jv_text.specs.private.Unreadable.{Reads};

use crate::reading::Unread;
use jv_cut::{Quote, is_bare};
use jv_number::laws::{number_test_is_the_grammar, value_solves_the_equation};
use jv_number::number_text;
use std::alloc::Global;
use std::str;

// Whole numbers of at most this many digits fit 64 bits, with either sign.
const SHORT: usize = 18;

/// The text with each number in the form in which whole numbers are printed. There is none if a number is not whole.
pub(crate) fn whole_numbers(alloc: Global, text: &[u8]) -> Result<Vec<u8>, Unread>
    ensures { Reads (λ v. v.items) result (whole_numbers Outside [] text.now) }
{
    let mut out = Vec::with_capacity(alloc, text.len())?;
    let mut quote = Quote::Outside;
    let mut start = 0;
    for i in 0..text.len() {
        let byte = text[i];
        if !is_in_run(quote, byte) {
            push_run(&text[start..i], &mut out)?;
            out.push(byte)?;
            quote = quote.next(byte);
            start = i + 1;
        }
    }
    push_run(&text[start..], &mut out)?;
    Ok(out)
}

fn is_in_run(quote: Quote, byte: u8) -> bool
    ensures { result ≡ is_in_run quote byte }
{
    matches!(quote, Quote::Outside) && is_bare(byte)
}

/// Whether a run is no number, or one in the form in which whole numbers are printed.
pub(crate) fn is_printed(run: &[u8]) -> bool
    ensures { OnTrue result (run_text run.now ≡ Some run.now) }
{
    match number_of(run) {
        Ok(None) => true,
        Ok(Some(n)) => itoa::Buffer::new().format(n).as_bytes() == run,
        Err(_) => false,
    }
}

pub(crate) fn has_minus(text: &[u8]) -> bool
    ensures value { result ≡ (slice_index text.now 0 == 45) }
    ensures some { IsTrue result → 0 < length text.now }
{
    !text.is_empty() && text[0] == b'-'
}

/// The value of a run that is a whole number of at most 18 digits in the form in which it is printed.
pub(crate) fn short_number(run: &[u8]) -> Option<i64>
    ensures { IfSome result (λ n. IsShortNumber run.now n) }
{
    number_test_is_the_grammar();
    value_solves_the_equation();
    if !has_minus(run) {
        return Some(short_digits(run)? as i64);
    }
    let n = short_digits(&run[1..])?;
    if n > 0 { Some(-(n as i64)) } else { None }
}

// The value of at most 18 digits, with no leading zero.
fn short_digits(digits: &[u8]) -> Option<u64>
    ensures value { IfSome result (λ n. IsShort digits.now n) }
    ensures below { IfSome result (λ n. n < 2 ^ 63) }
{
    if digits.is_empty() || digits.len() > SHORT {
        return None;
    }
    if digits.len() > 1 && digits[0] == b'0' {
        return None;
    }
    Some(value_of_digits(digits)?)
}

fn value_of_digits(digits: &[u8]) -> Option<u64>
    requires { length digits.now ≤ 18 }
    ensures digits { IfSome result (λ n. AllDigits 10 digits.now) }
    ensures value { IfSome result (λ n. n ≡ digits_value 10 digits.now) }
{
    let mut value = 0;
    for digit in digits {
        if !digit.is_ascii_digit() {
            return None;
        }
        value = value * 10 + (*digit - b'0') as u64;
    }
    Some(value)
}

fn push_run(run: &[u8], out: &mut Vec<u8>) -> Result<(), Unread>
    ensures { Reads (λ _. out.new.items) result (option_map (λ r. out.old.items ++ r) (run_text run.now)) }
{
    if stays(run) {
        out.extend_from_slice(run)?;
        return Ok(());
    }
    match number_of(run)? {
        None => out.extend_from_slice(run)?,
        Some(n) => out.extend_from_slice(itoa::Buffer::new().format(n).as_bytes())?,
    }
    Ok(())
}

// Whether a run is seen at once to stay as it is, as most are.
fn stays(run: &[u8]) -> bool
    ensures { OnTrue result (run_text run.now ≡ Some run.now) }
{
    !begins_number(run) || short_number(run).is_some()
}

fn begins_number(run: &[u8]) -> bool
    ensures { result ≡ (is_minus (head run.now) || is_ascii_digit (head run.now)) }
{
    match run.first() {
        Some(byte) => *byte == b'-' || byte.is_ascii_digit(),
        None => false,
    }
}

// The value of a run that is a number, and None for any other run.
fn number_of(run: &[u8]) -> Result<Option<i64>, Unread>
    ensures { NumberIs result run.now }
{
    number_test_is_the_grammar();
    let Ok(text) = str::from_utf8(run) else {
        return Ok(None);
    };
    if !json::is_number(text) {
        return Ok(None);
    }
    let value = number_text(text);
    if value.is_some() {
        Ok(value)
    } else {
        Err(Unread::NoValue)
    }
}
