// The words between white space: names, numbers and symbols.
ghost use Rattle.std.specs.Prelude.{◌≡◌, ◌∷◌, ◌≤◌, IfOk, length, encode_utf8_all, string_bytes, true};
ghost use Rattle.std.specs.List.{prefix_len};
ghost use Rattle.jq_tree.specs.Words.{is_letter, is_name_character, is_name, Spells};
ghost use Rattle.jq_lexer.specs.private.Found.{first_symbol_in, keyword_in, HasForm, IsFirstWord, IsPlainStart, OnlySymbols, Stands};
ghost use Rattle.jv_data.specs.Text.{text_of};
ghost use Rattle.jq_lexer.specs.Views.{token_of};
ghost use Rattle.jq_lexer.specs.declared.words.Shape.TheVariants.{Number};

use crate::names::{is_letter, is_name_character};
use crate::numbers::{is_digit, number_length, number_value};
use crate::spellings::{KEYWORDS, SYMBOLS, keyword_text, symbol_text};
use crate::tokens::{Keyword, Symbol, Token};
use std::alloc::{AllocError, Global};

/// The kind of a word, by its form.
#[derive(Clone, Copy)]
pub(crate) enum Shape {
    Name,
    Field,
    Variable,
    Format,
    Number,
    Symbol(Symbol),
}

/// A word at the start of a text.
#[derive(Clone, Copy)]
pub(crate) struct Word {
    pub shape: Shape,
    pub length: usize,
}

/// The longest word at the start of a text.
pub(crate) fn first_word(text: &[char]) -> Option<Word>
    ensures { IsFirstWord text.now result }
{
    let (first, rest) = text.split_first()?;
    match *first {
        '.' => point_word(text, rest),
        '$' => variable_word(rest),
        '@' => format_word(rest),
        _ => plain_word(text),
    }
}

// The word that begins with a point.
fn point_word(text: &[char], rest: &[char]) -> Option<Word>
    requires { text.now ≡ 46 ∷ rest.now }
    ensures { IsFirstWord text.now result }
{
    let Some((first, _)) = rest.split_first() else {
        return symbol_word(text);
    };
    if is_letter(*first) {
        Some(Word {
            shape: Shape::Field,
            length: 1 + name_length(rest),
        })
    } else if is_digit(*first) {
        Some(Word {
            shape: Shape::Number,
            length: number_length(text),
        })
    } else {
        symbol_word(text)
    }
}

// The word that begins with `$`, given the text after the `$`.
fn variable_word(rest: &[char]) -> Option<Word>
    ensures { IsFirstWord (36 ∷ rest.now) result }
{
    let (first, _) = rest.split_first()?;
    if is_letter(*first) {
        Some(Word {
            shape: Shape::Variable,
            length: 1 + name_length(rest),
        })
    } else {
        None
    }
}

// The word that begins with `@`, given the text after the `@`.
fn format_word(rest: &[char]) -> Option<Word>
    ensures { IsFirstWord (64 ∷ rest.now) result }
{
    let length = name_length(rest);
    if length == 0 {
        return None;
    }
    Some(Word {
        shape: Shape::Format,
        length: 1 + length,
    })
}

// The word that begins with none of these signs.
fn plain_word(text: &[char]) -> Option<Word>
    requires { IsPlainStart text.now }
    ensures { IsFirstWord text.now result }
{
    let (first, _) = text.split_first()?;
    if is_letter(*first) {
        Some(Word {
            shape: Shape::Name,
            length: name_length(text),
        })
    } else if is_digit(*first) {
        Some(Word {
            shape: Shape::Number,
            length: number_length(text),
        })
    } else {
        symbol_word(text)
    }
}

fn symbol_word(text: &[char]) -> Option<Word>
    requires { OnlySymbols text.now }
    ensures { IsFirstWord text.now result }
{
    let symbol = first_symbol(text, &SYMBOLS)?;
    Some(Word {
        shape: Shape::Symbol(symbol),
        length: symbol_text(symbol).len(),
    })
}

// The first of these symbols that the text begins with.
fn first_symbol(text: &[char], symbols: &[Symbol]) -> Option<Symbol>
    ensures { result ≡ first_symbol_in text.now symbols.now }
{
    for symbol in symbols {
        if text.starts_with(symbol_text(*symbol)) {
            return Some(*symbol);
        }
    }
    None
}

fn name_length(text: &[char]) -> usize
    ensures value { result ≡ prefix_len is_name_character text.now }
    ensures within { result ≤ length text.now }
{
    for (i, c) in text.iter().enumerate() {
        if !is_name_character(*c) {
            return i;
        }
    }
    text.len()
}

/// The token that a word spells. A number whose value is not whole, or not below 2 ^ 63, spells none.
pub(crate) fn token_of(
    alloc: Global,
    shape: Shape,
    word: &[char],
) -> Result<Option<Token>, AllocError>
    requires { HasForm shape word.now }
    ensures { IfOk result (Stands word.now) }
{
    match shape {
        Shape::Name => Ok(Some(name_or_keyword(alloc, word)?)),
        Shape::Field => Ok(Some(Token::Field(text_of(alloc, &word[1..])?))),
        Shape::Variable => Ok(Some(Token::Variable(text_of(alloc, &word[1..])?))),
        Shape::Format => Ok(Some(Token::Format(text_of(alloc, &word[1..])?))),
        Shape::Number => number(alloc, word),
        Shape::Symbol(symbol) => Ok(Some(Token::Symbol(symbol))),
    }
}

fn number(alloc: Global, word: &[char]) -> Result<Option<Token>, AllocError>
    requires { HasForm Number word.now }
    ensures { IfOk result (Stands word.now) }
{
    let text = text_of(alloc, word)?;
    match number_value(text.as_str()) {
        Some(value) => Ok(Some(Token::Number(value))),
        None => Ok(None),
    }
}

fn name_or_keyword(alloc: Global, word: &[char]) -> Result<Token, AllocError>
    requires { is_name word.now ≡ true }
    ensures { IfOk result (λ t. Spells word.now (token_of t)) }
{
    let name = text_of(alloc, word)?;
    match keyword_of(name.as_str(), &KEYWORDS) {
        Some(keyword) => Ok(Token::Keyword(keyword)),
        None => Ok(Token::Name(name)),
    }
}

// The first of these keywords with this spelling.
fn keyword_of(name: &str, keywords: &[Keyword]) -> Option<Keyword>
    ensures { result ≡ keyword_in name.now keywords.now }
{
    for keyword in keywords {
        if keyword_text(*keyword) == name {
            return Some(*keyword);
        }
    }
    None
}

fn text_of(alloc: Global, characters: &[char]) -> Result<String, AllocError>
    ensures bytes { IfOk result (λ s. string_bytes s ≡ encode_utf8_all characters.now) }
    ensures characters { IfOk result (λ s. text_of s ≡ characters.now) }
{
    let mut text = String::new(alloc);
    for c in characters {
        text.push(*c)?;
    }
    Ok(text)
}
