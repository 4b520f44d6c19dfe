//! The value of a JSON number's text (RFC 8259, section 6).
//!
//! Entry: `number_text`. Tests: `tests/numbers.toml`.
#![tactic(auto)]

ghost use Rattle.std.specs.Prelude.{◌≡◌, ◌↔◌, ℤ, Some};
ghost use Rattle.jv_number.specs.Number.{number_value, value_of, is_negative, parts_of, IsValue};

use fast_float::Numeral;

pub mod laws;

/// The exact value of a number text, if it is a whole number of 64 bits: `1e3` is 1000, `10e-1` is 1 and `-0` is 0.
/// None for every other number, and for a text that is no number.
#[tactic(auto, unfolding(crate::specs::Number::number_value))]
pub fn number_text(text: &str) -> Option<i64>
    ensures value { result ≡ number_value text.now }
    ensures exact { (z : ℤ) → (result ≡ Some z) ↔ IsValue text.now z }
{
    if json::is_number(text) {
        value_of(text.as_bytes())
    } else {
        None
    }
}

fn value_of(text: &[u8]) -> Option<i64>
    ensures { result ≡ value_of (is_negative text.now) (parts_of text.now) }
{
    let negative = is_negative(text);
    let digits = if negative { &text[1..] } else { text };
    Numeral::scan(digits).whole_i64(negative)
}

fn is_negative(text: &[u8]) -> bool
    ensures { result ≡ is_negative text.now }
{
    text.first() == Some(&b'-')
}
