// The state of a parse, and the tests of the next token.
ghost use Rattle.std.specs.Prelude.{◌≡◌, ◌∷◌, OnOk, IfErr, MatchOption, MatchResult, true, false, if◌then◌else◌};
ghost use Rattle.jq_lexer.specs.Views.{symbol_of, keyword_of, token_of};
ghost use Rattle.jq_tree.specs.Token as token;
ghost use Rattle.jv_data.specs.Text.{text_of};
ghost use Rattle.jq_parser.specs.laws.Combinators.{first, tail, is_symbol, symbol_number};
ghost use Rattle.jq_parser.specs.laws.Forms.{begins_post, is_as};
ghost use Rattle.jq_parser.specs.private.Parsing.{ahead, waiting, frame_of, is_keyword, keyword_number, is_piece, is_variable, is_name, is_field, is_interpolation, ended, level_first};
ghost use Rattle.jq_parser.specs.declared.faults.ParseFault.TheVariants.{NoMemory};

use crate::faults::ParseFault;
use crate::forms::Frame;
use crate::tables::{keyword_number, level_of, symbol_number};
use jq_lexer::{Keyword, Symbol, Token};
use std::alloc::Global;
use std::collections::VecDeque;

#[derive(Drop)]
pub(crate) struct Parser {
    pub alloc: Global,
    pub tokens: VecDeque<Token>,
    pub frames: VecDeque<Frame>,
}

impl Parser {
    fn begins_with(&self, wanted: Symbol) -> bool
        ensures { result ≡ is_symbol (symbol_of wanted) (first (ahead self.now)) }
    {
        match self.tokens.front() {
            Some(Token::Symbol(s)) => symbol_number(*s) == symbol_number(wanted),
            Some(_) => false,
            None => false,
        }
    }

    fn begins_with_word(&self, wanted: Keyword) -> bool
        ensures { result ≡ is_keyword (keyword_of wanted) (first (ahead self.now)) }
    {
        match self.tokens.front() {
            Some(Token::Keyword(k)) => keyword_number(*k) == keyword_number(wanted),
            Some(_) => false,
            None => false,
        }
    }

    pub(crate) fn begins_with_piece(&self) -> bool
        ensures { result ≡ is_piece (first (ahead self.now)) }
    {
        match self.tokens.front() {
            Some(Token::Piece(_)) => true,
            Some(_) => false,
            None => false,
        }
    }

    /// Removes the next token.
    pub(crate) fn skip(&mut self)
        ensures ahead { ahead self.new ≡ tail (ahead self.old) }
        ensures frames { self.new.frames ≡ self.old.frames }
    {
        self.tokens.pop_front();
    }

    /// Takes the symbol if it is the next token.
    pub(crate) fn take(&mut self, wanted: Symbol) -> bool
        ensures found { result ≡ is_symbol (symbol_of wanted) (first (ahead self.old)) }
        ensures ahead { ahead self.new ≡ (if result then tail (ahead self.old) else ahead self.old) }
        ensures frames { self.new.frames ≡ self.old.frames }
    {
        let found = self.begins_with(wanted);
        if found {
            self.skip();
        }
        found
    }

    /// Takes the reserved word if it is the next token.
    pub(crate) fn take_word(&mut self, wanted: Keyword) -> bool
        ensures found { result ≡ is_keyword (keyword_of wanted) (first (ahead self.old)) }
        ensures ahead { ahead self.new ≡ (if result then tail (ahead self.old) else ahead self.old) }
        ensures frames { self.new.frames ≡ self.old.frames }
    {
        let found = self.begins_with_word(wanted);
        if found {
            self.skip();
        }
        found
    }

    pub(crate) fn put_back(&mut self, token: Token) -> Result<(), ParseFault>
        ensures ok { OnOk result (ahead self.new ≡ token_of token ∷ ahead self.old) }
        ensures frames { OnOk result (self.new.frames ≡ self.old.frames) }
        ensures memory { IfErr result (λ e. e ≡ NoMemory) }
    {
        self.tokens.push_front(token)?;
        Ok(())
    }

    /// The fault of a token that must not be next. It is put back, so that the tokens that are left begin with it.
    pub(crate) fn refused(&mut self, token: Token) -> ParseFault {
        match self.put_back(token) {
            Ok(()) => ParseFault::Syntax,
            Err(e) => e,
        }
    }

    pub(crate) fn wait(&mut self, frame: Frame) -> Result<(), ParseFault>
        ensures ok { OnOk result (waiting self.new ≡ frame_of frame ∷ waiting self.old) }
        ensures ahead { ahead self.new ≡ ahead self.old }
        ensures memory { IfErr result (λ e. e ≡ NoMemory) }
    {
        self.frames.push_front(frame)?;
        Ok(())
    }

    /// The symbol must be the next token.
    pub(crate) fn expect(&mut self, wanted: Symbol) -> Result<(), ParseFault>
        ensures value { MatchResult result (λ _. is_symbol (symbol_of wanted) (first (ahead self.old)) ≡ true) (λ _. is_symbol (symbol_of wanted) (first (ahead self.old)) ≡ false) }
        ensures ahead { OnOk result (ahead self.new ≡ tail (ahead self.old)) }
        ensures frames { self.new.frames ≡ self.old.frames }
    {
        if self.take(wanted) {
            Ok(())
        } else {
            Err(ParseFault::Syntax)
        }
    }

    /// The reserved word must be the next token.
    pub(crate) fn expect_word(&mut self, wanted: Keyword) -> Result<(), ParseFault>
        ensures value { MatchResult result (λ _. is_keyword (keyword_of wanted) (first (ahead self.old)) ≡ true) (λ _. is_keyword (keyword_of wanted) (first (ahead self.old)) ≡ false) }
        ensures ahead { OnOk result (ahead self.new ≡ tail (ahead self.old)) }
        ensures frames { self.new.frames ≡ self.old.frames }
    {
        if self.take_word(wanted) {
            Ok(())
        } else {
            Err(ParseFault::Syntax)
        }
    }

    pub(crate) fn take_interpolation(&mut self) -> bool
        ensures found { result ≡ is_interpolation (first (ahead self.old)) }
        ensures ahead { ahead self.new ≡ (if result then tail (ahead self.old) else ahead self.old) }
        ensures frames { self.new.frames ≡ self.old.frames }
    {
        let found = self.begins_with_interpolation();
        if found {
            self.skip();
        }
        found
    }

    fn begins_with_interpolation(&self) -> bool
        ensures { result ≡ is_interpolation (first (ahead self.now)) }
    {
        match self.tokens.front() {
            Some(Token::Interpolation) => true,
            Some(_) => false,
            None => false,
        }
    }

    pub(crate) fn begins_with_field(&self) -> bool
        ensures { result ≡ is_field (first (ahead self.now)) }
    {
        match self.tokens.front() {
            Some(Token::Field(_)) => true,
            Some(_) => false,
            None => false,
        }
    }

    fn begins_with_name(&self) -> bool
        ensures { result ≡ is_name (first (ahead self.now)) }
    {
        match self.tokens.front() {
            Some(Token::Name(_)) => true,
            Some(_) => false,
            None => false,
        }
    }

    fn begins_with_variable(&self) -> bool
        ensures { result ≡ is_variable (first (ahead self.now)) }
    {
        match self.tokens.front() {
            Some(Token::Variable(_)) => true,
            Some(_) => false,
            None => false,
        }
    }

    pub(crate) fn begins_with_as(&self) -> bool
        ensures { result ≡ is_as (first (ahead self.now)) }
    {
        match self.tokens.front() {
            Some(Token::Keyword(Keyword::As)) => true,
            Some(_) => false,
            None => false,
        }
    }

    /// Whether a postfix form may begin here.
    pub(crate) fn begins_postfix(&self) -> bool
        ensures { result ≡ begins_post (first (ahead self.now)) }
    {
        match self.tokens.front() {
            Some(Token::Symbol(Symbol::Minus)) => false,
            Some(Token::Keyword(Keyword::Try)) => false,
            Some(_) => true,
            None => true,
        }
    }

    pub(crate) fn at_end(&self) -> bool
        ensures { result ≡ ended (ahead self.now) }
    {
        self.tokens.is_empty()
    }

    /// The level of the next token if it is an operator, or 0.
    pub(crate) fn level_ahead(&self) -> u8
        ensures { result ≡ level_first (first (ahead self.now)) }
    {
        match self.tokens.front() {
            Some(token) => level_of(token),
            None => 0,
        }
    }

    /// Takes the next token if it is a name.
    pub(crate) fn name(&mut self) -> Option<String>
        ensures taken { MatchOption result (is_name (first (ahead self.old)) ≡ false) (λ s. ahead self.old ≡ token.name (text_of s) ∷ ahead self.new) }
        ensures frames { self.new.frames ≡ self.old.frames }
    {
        if !self.begins_with_name() {
            return None;
        }
        match self.tokens.pop_front() {
            Some(Token::Name(text)) => Some(text),
            Some(Token::Keyword(_)) => None,
            Some(Token::Field(_)) => None,
            Some(Token::Variable(_)) => None,
            Some(Token::Format(_)) => None,
            Some(Token::Number(_)) => None,
            Some(Token::Piece(_)) => None,
            Some(Token::Symbol(_)) => None,
            Some(Token::Interpolation) => None,
            None => None,
        }
    }

    /// Takes the next token if it is a variable.
    pub(crate) fn variable(&mut self) -> Option<String>
        ensures taken { MatchOption result (is_variable (first (ahead self.old)) ≡ false) (λ s. ahead self.old ≡ token.variable (text_of s) ∷ ahead self.new) }
        ensures frames { self.new.frames ≡ self.old.frames }
    {
        if !self.begins_with_variable() {
            return None;
        }
        match self.tokens.pop_front() {
            Some(Token::Variable(text)) => Some(text),
            Some(Token::Keyword(_)) => None,
            Some(Token::Name(_)) => None,
            Some(Token::Field(_)) => None,
            Some(Token::Format(_)) => None,
            Some(Token::Number(_)) => None,
            Some(Token::Piece(_)) => None,
            Some(Token::Symbol(_)) => None,
            Some(Token::Interpolation) => None,
            None => None,
        }
    }

    /// Takes the next token if it is a piece of a string.
    pub(crate) fn piece(&mut self) -> Option<String>
        ensures taken { MatchOption result (is_piece (first (ahead self.old)) ≡ false) (λ s. ahead self.old ≡ token.piece (text_of s) ∷ ahead self.new) }
        ensures frames { self.new.frames ≡ self.old.frames }
    {
        if !self.begins_with_piece() {
            return None;
        }
        match self.tokens.pop_front() {
            Some(Token::Piece(text)) => Some(text),
            Some(Token::Keyword(_)) => None,
            Some(Token::Name(_)) => None,
            Some(Token::Field(_)) => None,
            Some(Token::Variable(_)) => None,
            Some(Token::Format(_)) => None,
            Some(Token::Number(_)) => None,
            Some(Token::Symbol(_)) => None,
            Some(Token::Interpolation) => None,
            None => None,
        }
    }

    /// Takes the next token if it is a field.
    pub(crate) fn field(&mut self) -> Option<String>
        ensures taken { MatchOption result (is_field (first (ahead self.old)) ≡ false) (λ s. ahead self.old ≡ token.field (text_of s) ∷ ahead self.new) }
        ensures frames { self.new.frames ≡ self.old.frames }
    {
        if !self.begins_with_field() {
            return None;
        }
        match self.tokens.pop_front() {
            Some(Token::Field(text)) => Some(text),
            Some(Token::Keyword(_)) => None,
            Some(Token::Name(_)) => None,
            Some(Token::Variable(_)) => None,
            Some(Token::Format(_)) => None,
            Some(Token::Number(_)) => None,
            Some(Token::Piece(_)) => None,
            Some(Token::Symbol(_)) => None,
            Some(Token::Interpolation) => None,
            None => None,
        }
    }
}
