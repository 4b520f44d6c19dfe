// Splitting a text into its tokens.
ghost use Rattle.std.specs.Prelude.{◌≡◌, ◌∷◌, ◌≤◌, length, map, IfOk, IfErr, MatchOption};
ghost use Rattle.std.specs.List.{prefix_len};
ghost use Rattle.std.specs.Str.{chars};
ghost use Rattle.jq_tree.specs.Lexing.{is_not_line_feed, is_space, Lexes};
ghost use Rattle.jq_lexer.specs.Places.{TokenAt, HasAtMost};
ghost use Rattle.jq_lexer.specs.Views.{token_of, HasFault};

use crate::faults::LexFault;
use crate::places::byte_count;
use crate::strings::{Piece, first_piece};
use crate::tokens::{Symbol, Token};
use crate::words::{first_word, token_of};
use jq_tree::lexing::one_reading;
use std::alloc::{AllocError, Global};

/// The tokens of a filter's text (manual of jq 1.7, "Basic filters", "Comments", "String interpolation"; RFC 8259, section 7).
///
/// `at` of the error counts bytes of the text.
pub fn lex(alloc: Global, filter: &str) -> Result<Vec<Token>, LexFault>
    ensures tokens { IfOk result (λ ts. Lexes (chars filter.now) (map token_of ts.items)) }
    ensures fault { IfErr result (HasFault (chars filter.now)) }
{
    let characters = characters(alloc, filter)?;
    let mut lexer = Lexer::new(alloc, &characters);
    loop {
        match lexer.take(alloc)? {
            Lexed::Taken => {}
            Lexed::Missing => {
                let read = characters.len() - lexer.rest.len();
                let at = byte_count(&characters[..read]);
                return Err(LexFault::BadToken { at });
            }
            Lexed::Done => return Ok(lexer.tokens),
        }
    }
}

/// The byte at which a token begins, found by the number of tokens before it. None if the text has no such token.
pub fn place_of_token(
    alloc: Global,
    filter: &str,
    number: usize,
) -> Result<Option<usize>, AllocError>
    ensures { IfOk result (λ o. MatchOption o (HasAtMost (chars filter.now) number) (TokenAt (chars filter.now) number)) }
{
    one_reading();
    let characters = characters(alloc, filter)?;
    let mut lexer = Lexer::new(alloc, &characters);
    loop {
        let left = lexer.rest.len();
        match lexer.take(alloc)? {
            Lexed::Taken => {}
            Lexed::Missing => return Ok(None),
            Lexed::Done => return Ok(None),
        }
        if lexer.tokens.len() > number {
            let read = characters.len() - left;
            return Ok(Some(byte_count(&characters[..read])));
        }
    }
}

fn characters(alloc: Global, text: &str) -> Result<Vec<char>, AllocError>
    ensures { IfOk result (λ v. v.items ≡ chars text.now) }
{
    text.chars().collect(alloc)
}

// An open parenthesis: `(`, or the `\(` of a string.
#[derive(Clone, Copy)]
enum Parenthesis {
    Plain,
    InString,
}

// What reading one token comes to.
enum Lexed {
    Taken,
    // A token must begin here, and none does.
    Missing,
    // The text is at its end.
    Done,
}

#[derive(Drop)]
struct Lexer<'a> {
    rest: &'a [char],
    // Whether the rest of the text continues a string, after the `)` of an interpolation.
    within: bool,
    // The open parentheses, the last one last.
    opened: Vec<Parenthesis>,
    tokens: Vec<Token>,
}

impl<'a> Lexer<'a> {
    ghost use Rattle.std.specs.Prelude.{[], false};
    ghost use Rattle.jq_lexer.specs.private.Spots.{IsWordStart, AnswersLexed, AnswersPiece, tokens_of, spot_of};
    ghost use Rattle.jq_lexer.specs.declared.lexing.Lexed.TheVariants.{Taken};
    ghost use Rattle.jq_tree.specs.Lexing.{between};

    fn new(alloc: Global, text: &'a [char]) -> Lexer<'a>
        ensures tokens { tokens_of result ≡ [] }
        ensures spot { spot_of result ≡ between [] }
        ensures rest { result.rest.now ≡ text.now }
    {
        Lexer {
            rest: text,
            within: false,
            opened: Vec::new(alloc),
            tokens: Vec::new(alloc),
        }
    }

    // Takes a token, a comment or white space off the text.
    fn take(&mut self, alloc: Global) -> Result<Lexed, AllocError>
        ensures { IfOk result (λ s. AnswersLexed self.old s self.new) }
    {
        if self.within {
            return self.piece(alloc, self.rest);
        }
        let Some((first, rest)) = self.rest.split_first() else {
            return Ok(Lexed::Done);
        };
        if is_space(*first) {
            return Ok(self.pass(rest));
        }
        match *first {
            '#' => Ok(self.pass(&rest[line_length(rest)..])),
            '"' => self.piece(alloc, rest),
            '(' => self.open(rest),
            ')' => self.close(rest),
            _ => self.word(alloc),
        }
    }

    fn pass(&mut self, rest: &'a [char]) -> Lexed
        ensures taken { result ≡ Taken }
        ensures rest { self.new.rest.now ≡ rest.now }
        ensures tokens { tokens_of self.new ≡ tokens_of self.old }
        ensures spot { spot_of self.new ≡ spot_of self.old }
    {
        self.rest = rest;
        Lexed::Taken
    }

    // Takes the piece of a string that this text begins with.
    fn piece(&mut self, alloc: Global, text: &'a [char]) -> Result<Lexed, AllocError>
        ensures { IfOk result (λ s. AnswersPiece text.now self.old s self.new) }
    {
        let Some(piece) = first_piece(alloc, text)? else {
            return Ok(Lexed::Missing);
        };
        let Piece {
            content,
            interpolated,
            rest,
        } = piece;
        self.tokens.push(Token::Piece(content))?;
        self.within = false;
        self.rest = rest;
        if !interpolated {
            return Ok(Lexed::Taken);
        }
        self.tokens.push(Token::Interpolation)?;
        self.opened.push(Parenthesis::InString)?;
        Ok(Lexed::Taken)
    }

    fn open(&mut self, rest: &'a [char]) -> Result<Lexed, AllocError>
        requires between { self.old.within ≡ false }
        requires parenthesis { self.old.rest.now ≡ 40 ∷ rest.now }
        ensures { IfOk result (λ s. AnswersLexed self.old s self.new) }
    {
        self.tokens.push(Token::Symbol(Symbol::LeftParenthesis))?;
        self.opened.push(Parenthesis::Plain)?;
        self.rest = rest;
        Ok(Lexed::Taken)
    }

    // A `)` closes the parenthesis that was opened last. After one that closes `\(` the string continues.
    fn close(&mut self, rest: &'a [char]) -> Result<Lexed, AllocError>
        requires between { self.old.within ≡ false }
        requires parenthesis { self.old.rest.now ≡ 41 ∷ rest.now }
        ensures { IfOk result (λ s. AnswersLexed self.old s self.new) }
    {
        self.tokens.push(Token::Symbol(Symbol::RightParenthesis))?;
        self.rest = rest;
        match self.opened.pop() {
            Some(Parenthesis::InString) => {
                self.within = true;
                Ok(Lexed::Taken)
            }
            Some(Parenthesis::Plain) => Ok(Lexed::Taken),
            None => Ok(Lexed::Taken),
        }
    }

    fn word(&mut self, alloc: Global) -> Result<Lexed, AllocError>
        requires between { self.old.within ≡ false }
        requires start { IsWordStart self.old.rest.now }
        ensures { IfOk result (λ s. AnswersLexed self.old s self.new) }
    {
        let Some(word) = first_word(self.rest) else {
            return Ok(Lexed::Missing);
        };
        let (spelling, rest) = self.rest.split_at(word.length);
        let Some(token) = token_of(alloc, word.shape, spelling)? else {
            return Ok(Lexed::Missing);
        };
        self.tokens.push(token)?;
        self.rest = rest;
        Ok(Lexed::Taken)
    }
}

fn is_space(c: char) -> bool
    ensures { result ≡ is_space c }
{
    matches!(c, ' ' | '\t' | '\n' | '\r')
}

// The number of characters before the first line feed, or before the end.
fn line_length(text: &[char]) -> usize
    ensures value { result ≡ prefix_len is_not_line_feed text.now }
    ensures within { result ≤ length text.now }
{
    for (i, c) in text.iter().enumerate() {
        if *c == '\n' {
            return i;
        }
    }
    text.len()
}
