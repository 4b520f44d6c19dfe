// Numbers: digits, optionally a point and digits, optionally an exponent.
ghost use Rattle.std.specs.Prelude.{◌≡◌, ◌+◌, ◌^◌, ◌<◌, ◌≤◌, length};
ghost use Rattle.std.specs.List.{prefix_len};
ghost use Rattle.jq_tree.specs.Words.{is_digit};
ghost use Rattle.jq_lexer.specs.private.Numbers.{after_letter, digits_length, exponent_length, fraction_length, number_length, power_length, IsValueOf};

use crate::tokens::Natural;
use fast_float::Numeral;
use jv_number::laws::shifted_digits_solve_the_equation;

/// The length of the number at the start of the text, in characters.
pub(crate) fn number_length(text: &[char]) -> usize
    ensures value { result ≡ number_length text.now }
    ensures within { result ≤ length text.now }
{
    let whole = digits_length(text);
    let fraction = fraction_length(&text[whole..]);
    let mantissa = whole + fraction;
    mantissa + exponent_length(&text[mantissa..])
}

fn digits_length(text: &[char]) -> usize
    ensures value { result ≡ prefix_len is_digit text.now }
    ensures within { result ≤ length text.now }
{
    for (i, c) in text.iter().enumerate() {
        if !is_digit(*c) {
            return i;
        }
    }
    text.len()
}

// The length of a point and the digits after it.
fn fraction_length(text: &[char]) -> usize
    ensures value { result ≡ fraction_length text.now }
    ensures within { result ≤ length text.now }
{
    let Some((first, rest)) = text.split_first() else {
        return 0;
    };
    if *first == '.' {
        1 + digits_length(rest)
    } else {
        0
    }
}

// The length of an exponent: `e` or `E`, an optional sign and at least one digit.
fn exponent_length(text: &[char]) -> usize
    ensures value { result ≡ exponent_length text.now }
    ensures within { result ≤ length text.now }
{
    let Some((first, rest)) = text.split_first() else {
        return 0;
    };
    if *first == 'e' || *first == 'E' {
        power_length(rest)
    } else {
        0
    }
}

// The length of an exponent, given the text after its letter.
fn power_length(text: &[char]) -> usize
    ensures value { result ≡ power_length text.now }
    ensures within { result ≤ 1 + length text.now }
{
    let Some((first, rest)) = text.split_first() else {
        return 0;
    };
    if *first == '+' || *first == '-' {
        after_letter(2, digits_length(rest))
    } else {
        after_letter(1, digits_length(text))
    }
}

fn after_letter(front: usize, digits: usize) -> usize
    requires { front + digits < 2 ^ 64 }
    ensures { result ≡ after_letter front digits }
{
    if digits == 0 { 0 } else { front + digits }
}

pub(crate) fn is_digit(c: char) -> bool
    ensures { result ≡ is_digit c }
{
    matches!(c, '0'..='9')
}

/// The value of a number's text, if it is whole and below 2 ^ 63.
pub(crate) fn number_value(text: &str) -> Option<Natural>
    ensures { IsValueOf text.now result }
{
    shifted_digits_solve_the_equation();
    let value = Numeral::scan(text.as_bytes()).whole_u64()?;
    if value < 1 << 63 {
        Some(Natural { value })
    } else {
        None
    }
}
