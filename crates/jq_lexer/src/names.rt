// Names, of functions and variables.
ghost use Rattle.std.specs.Prelude.{◌≡◌};
ghost use Rattle.std.specs.Str.{chars};
ghost use Rattle.jq_tree.specs.Words.{is_letter, is_name, is_name_character};

use crate::numbers::is_digit;

/// Whether the text is a name of the language: letters, digits and `_`, and the first of them not a digit.
pub fn is_name(text: &str) -> bool
    ensures { result ≡ is_name (chars text.now) }
{
    match text.chars().next() {
        Some(first) => is_letter(first) && text.chars().all(|c| is_name_character(c)),
        None => false,
    }
}

pub(crate) fn is_letter(c: char) -> bool
    ensures { result ≡ is_letter c }
{
    matches!(c, 'A'..='Z' | 'a'..='z' | '_')
}

pub(crate) fn is_name_character(c: char) -> bool
    ensures { result ≡ is_name_character c }
{
    is_letter(c) || is_digit(c)
}
