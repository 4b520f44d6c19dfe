// The pieces of strings.
ghost use Rattle.std.specs.Prelude.{◌≡◌, ◌+◌, ◌-◌, ◌*◌, ◌^◌, ◌<◌, length, true, Some, None, IfOk, IfSome, MatchOption};
ghost use Rattle.jq_tree.specs.Lexing.{escaped, hex_value, is_high_surrogate, is_low_surrogate};
ghost use Rattle.jq_lexer.specs.private.Strings.{escape, first_character, four_digits, low_surrogate, unicode_escape};
ghost use Rattle.jq_lexer.specs.private.Spots.{IsEnd, IsFirstPiece};
ghost use Rattle.jv_data.specs.Text.{text_of};

use std::alloc::{AllocError, Global};

/// A piece of a string, up to its end or up to an interpolation.
#[derive(Drop)]
pub(crate) struct Piece<'a> {
    /// The characters that it represents.
    pub content: String,
    /// Whether `\(` ended it, rather than the quote.
    pub interpolated: bool,
    /// What follows.
    pub rest: &'a [char],
}

/// The piece of a string that a text begins with, after the quote or after the parenthesis that closes an interpolation.
/// None if the string does not end, or if it has an invalid escape.
pub(crate) fn first_piece(alloc: Global, text: &[char]) -> Result<Option<Piece<'_>>, AllocError>
    ensures { IfOk result (IsFirstPiece text.now) }
{
    let mut content = String::new(alloc);
    let mut rest = text;
    while let Some((c, following)) = first_character(rest) {
        content.push(c)?;
        rest = following;
    }
    Ok(ended(content, rest))
}

fn ended(content: String, text: &[char]) -> Option<Piece<'_>>
    ensures { IsEnd (text_of content) text.now result }
{
    match text {
        ['"', rest @ ..] => Some(Piece {
            content,
            interpolated: false,
            rest,
        }),
        ['\\', '(', rest @ ..] => Some(Piece {
            content,
            interpolated: true,
            rest,
        }),
        _ => None,
    }
}

// The character of a string that a text begins with, and what follows.
fn first_character(text: &[char]) -> Option<(char, &[char])>
    ensures { MatchOption result (first_character text.now ≡ None) (λ p. first_character text.now ≡ Some (p.0, p.1.now)) }
{
    let (first, rest) = text.split_first()?;
    match *first {
        '"' => None,
        '\\' => escape(rest),
        c => Some((c, rest)),
    }
}

// The same after a backslash.
fn escape(text: &[char]) -> Option<(char, &[char])>
    ensures { MatchOption result (escape text.now ≡ None) (λ p. escape text.now ≡ Some (p.0, p.1.now)) }
{
    let (letter, rest) = text.split_first()?;
    if *letter == 'u' {
        return unicode_escape(rest);
    }
    Some((escaped(*letter)?, rest))
}

fn escaped(letter: char) -> Option<char>
    ensures { result ≡ escaped letter }
{
    match letter {
        '"' => Some('"'),
        '\\' => Some('\\'),
        '/' => Some('/'),
        'b' => Some('\u{8}'),
        'f' => Some('\u{c}'),
        'n' => Some('\n'),
        'r' => Some('\r'),
        't' => Some('\t'),
        _ => None,
    }
}

// The same after `\u`. A surrogate is allowed only in a pair.
fn unicode_escape(text: &[char]) -> Option<(char, &[char])>
    ensures { MatchOption result (unicode_escape text.now ≡ None) (λ p. unicode_escape text.now ≡ Some (p.0, p.1.now)) }
{
    let (high, rest) = four_digits(text)?;
    if !is_high_surrogate(high) {
        return Some((char::from_u32(high)?, rest));
    }
    let (low, rest) = low_surrogate(rest)?;
    Some((pair_character(high, low)?, rest))
}

fn low_surrogate(text: &[char]) -> Option<(u32, &[char])>
    ensures value { MatchOption result (low_surrogate text.now ≡ None) (λ p. low_surrogate text.now ≡ Some (p.0, p.1.now)) }
    ensures low { IfSome result (λ p. is_low_surrogate p.0 ≡ true) }
{
    let ['\\', 'u', digits @ ..] = text else {
        return None;
    };
    let (low, rest) = four_digits(digits)?;
    if is_low_surrogate(low) {
        Some((low, rest))
    } else {
        None
    }
}

fn pair_character(high: u32, low: u32) -> Option<char>
    requires high { is_high_surrogate high ≡ true }
    requires low { is_low_surrogate low ≡ true }
    ensures { result ≡ Some (0x10000 + (high - 0xd800) * 0x400 + (low - 0xdc00)) }
{
    char::from_u32(0x1_0000 + (high - 0xd800) * 0x400 + (low - 0xdc00))
}

fn four_digits(text: &[char]) -> Option<(u32, &[char])>
    ensures value { MatchOption result (four_digits text.now ≡ None) (λ p. four_digits text.now ≡ Some (p.0, p.1.now)) }
    ensures small { IfSome result (λ p. p.0 < 2 ^ 16) }
{
    let [a, b, c, d, rest @ ..] = text else {
        return None;
    };
    let front = hex_value(*a)? * 16 + hex_value(*b)?;
    let value = (front * 16 + hex_value(*c)?) * 16 + hex_value(*d)?;
    Some((value, rest))
}

fn hex_value(digit: char) -> Option<u32>
    ensures value { result ≡ hex_value digit }
    ensures small { IfSome result (λ v. v < 16) }
{
    let code = digit as u32;
    match digit {
        '0'..='9' => Some(code - 48),
        'A'..='F' => Some(code - 55),
        'a'..='f' => Some(code - 87),
        _ => None,
    }
}

fn is_high_surrogate(unit: u32) -> bool
    ensures { result ≡ is_high_surrogate unit }
{
    0xd800 <= unit && unit < 0xdc00
}

fn is_low_surrogate(unit: u32) -> bool
    ensures { result ≡ is_low_surrogate unit }
{
    0xdc00 <= unit && unit < 0xe000
}
