// Terms, and the steps after them.
ghost use Rattle.std.specs.Prelude.{◌∷◌};
ghost use Rattle.jv_data.specs.Text.{text_of};
ghost use Rattle.jq_tree.specs.Token as token;
ghost use Rattle.jq_lexer.specs.Views.{symbol_of, keyword_of};
ghost use Rattle.jq_parser.specs.laws.Machine as m;
ghost use Rattle.jq_builders.specs.Views.{tree_in};
ghost use Rattle.jq_parser.specs.private.Parsing.{Turns, field_step, ahead, waiting};

use crate::faults::ParseFault;
use crate::forms::{BlockFrame, Fold, Frame, Mode, TermFrame, TextUse, suffixed};
use crate::parser::Parser;
use jq_ast::{Key, Tree, boxed};
use jq_builders::trees::{
    bare_name, number_tree, object_tree, recurse_all, unresolved, with_question,
};
use jq_lexer::{Keyword, Symbol, Token};

impl Parser {
    #[tactic(auto, unfolding(crate::specs::laws::Machine::post_turn, crate::specs::private::Parsing::next_of))]
    pub(crate) fn postfix(&mut self) -> Result<Mode, ParseFault>
        ensures { Turns result self.new (m.post_turn (waiting self.old) (ahead self.old)) }
    {
        match self.tokens.pop_front() {
            Some(Token::Field(name)) => self.field_of_input(name),
            Some(Token::Symbol(symbol)) => self.symbol(symbol),
            Some(Token::Keyword(word)) => self.keyword(word),
            Some(Token::Number(number)) => suffixed(false, number_tree(self.alloc, number)),
            Some(Token::Piece(piece)) => self.begin_text(TextUse::Term, piece),
            Some(Token::Format(format)) => self.format(format),
            Some(Token::Variable(name)) => suffixed(
                false,
                boxed(self.alloc, Tree::Variable(unresolved(name))),
            ),
            Some(Token::Name(name)) => self.call(name),
            Some(Token::Interpolation) => Err(self.refused(Token::Interpolation)),
            None => Err(ParseFault::Syntax),
        }
    }

    #[tactic(auto, unfolding(crate::specs::laws::Machine::post_turn, crate::specs::private::Parsing::next_of))]
    fn field_of_input(&mut self, name: String) -> Result<Mode, ParseFault>
        ensures { Turns result self.new (m.post_turn (waiting self.old) (token.field (text_of name) ∷ ahead self.old)) }
    {
        let key = Key::new(self.alloc, name)?;
        let input = boxed(self.alloc, Tree::Identity)?;
        let t = boxed(self.alloc, Tree::Field(input, key, false))?;
        Ok(Mode::Suffix(true, t))
    }

    #[tactic(auto, unfolding(crate::specs::laws::Machine::symbol_turn, crate::specs::private::Parsing::next_of))]
    fn symbol(&mut self, symbol: Symbol) -> Result<Mode, ParseFault>
        ensures { Turns result self.new (m.symbol_turn (symbol_of symbol) (waiting self.old) (ahead self.old)) }
    {
        match symbol {
            Symbol::TwoDots => {
                let t = recurse_all(self.alloc)?;
                Ok(Mode::Suffix(false, t))
            }
            Symbol::Dot => self.dot(),
            Symbol::LeftParenthesis => {
                self.wait(Frame::Term(TermFrame::InParentheses))?;
                Ok(Mode::WantPipe(None))
            }
            Symbol::LeftBracket => self.array(),
            Symbol::LeftBrace => self.object(),
            other => Err(self.refused(Token::Symbol(other))),
        }
    }

    #[tactic(auto, unfolding(crate::specs::laws::Machine::keyword_turn, crate::specs::private::Parsing::next_of))]
    fn keyword(&mut self, word: Keyword) -> Result<Mode, ParseFault>
        ensures { Turns result self.new (m.keyword_turn (keyword_of word) (waiting self.old) (ahead self.old)) }
    {
        match word {
            Keyword::Break => self.break_out(),
            Keyword::Reduce => {
                self.wait(Frame::Block(BlockFrame::FoldSource(Fold::Reducing)))?;
                Ok(Mode::WantPostfix)
            }
            Keyword::Foreach => {
                self.wait(Frame::Block(BlockFrame::FoldSource(Fold::Iterating)))?;
                Ok(Mode::WantPostfix)
            }
            Keyword::If => {
                self.wait(Frame::Block(BlockFrame::BranchTest(Vec::new(self.alloc))))?;
                Ok(Mode::WantPipe(None))
            }
            other => Err(self.refused(Token::Keyword(other))),
        }
    }

    #[tactic(auto, using(crate::proofs::Tests::call_tests), unfolding(crate::specs::laws::Machine::call_turn, crate::specs::private::Parsing::next_of))]
    fn call(&mut self, name: String) -> Result<Mode, ParseFault>
        ensures { Turns result self.new (m.call_turn (text_of name) (waiting self.old) (ahead self.old)) }
    {
        if self.take(Symbol::LeftParenthesis) {
            self.wait(Frame::Term(TermFrame::Argument(name, Vec::new(self.alloc))))?;
            return Ok(Mode::WantPipe(None));
        }
        let t = bare_name(self.alloc, name)?;
        Ok(Mode::Suffix(false, t))
    }

    #[tactic(auto, using(crate::proofs::Tests::format_tests), unfolding(crate::specs::laws::Machine::format_turn, crate::specs::private::Parsing::next_of))]
    fn format(&mut self, format: String) -> Result<Mode, ParseFault>
        ensures { Turns result self.new (m.format_turn (text_of format) (waiting self.old) (ahead self.old)) }
    {
        if self.begins_with_piece() {
            return Ok(Mode::Text(TextUse::Formatted(format), Vec::new(self.alloc)));
        }
        let t = boxed(self.alloc, Tree::Format(unresolved(format)))?;
        Ok(Mode::Suffix(false, t))
    }

    #[tactic(auto, using(crate::proofs::Tests::dot_tests), unfolding(crate::specs::laws::Machine::dot_turn, crate::specs::private::Parsing::next_of))]
    fn dot(&mut self) -> Result<Mode, ParseFault>
        ensures { Turns result self.new (m.dot_turn (waiting self.old) (ahead self.old)) }
    {
        if self.begins_with_piece() {
            return Ok(Mode::Text(TextUse::PartOfInput, Vec::new(self.alloc)));
        }
        let t = boxed(self.alloc, Tree::Identity)?;
        Ok(Mode::Suffix(false, t))
    }

    #[tactic(auto, using(crate::proofs::Tests::array_tests), unfolding(crate::specs::laws::Machine::array_turn, crate::specs::private::Parsing::next_of))]
    fn array(&mut self) -> Result<Mode, ParseFault>
        ensures { Turns result self.new (m.array_turn (waiting self.old) (ahead self.old)) }
    {
        if self.take(Symbol::RightBracket) {
            let none = boxed(self.alloc, Tree::Empty)?;
            let t = boxed(self.alloc, Tree::Array(none))?;
            return Ok(Mode::Suffix(false, t));
        }
        self.wait(Frame::Term(TermFrame::InArray))?;
        Ok(Mode::WantPipe(None))
    }

    #[tactic(auto, using(crate::proofs::Tests::object_tests), unfolding(crate::specs::laws::Machine::object_turn, crate::specs::private::Parsing::next_of))]
    fn object(&mut self) -> Result<Mode, ParseFault>
        ensures { Turns result self.new (m.object_turn (waiting self.old) (ahead self.old)) }
    {
        if self.take(Symbol::RightBrace) {
            let t = object_tree(self.alloc, Vec::new(self.alloc))?;
            return Ok(Mode::Suffix(false, t));
        }
        Ok(Mode::Entry(Vec::new(self.alloc)))
    }

    #[tactic(auto, using(crate::proofs::Tests::break_stops), unfolding(crate::specs::laws::Machine::break_turn, crate::specs::private::Parsing::next_of))]
    fn break_out(&mut self) -> Result<Mode, ParseFault>
        ensures { Turns result self.new (m.break_turn (waiting self.old) (ahead self.old)) }
    {
        let Some(name) = self.variable() else {
            return Err(ParseFault::Syntax);
        };
        let t = boxed(self.alloc, Tree::Break(unresolved(name)))?;
        Ok(Mode::Suffix(false, t))
    }

    #[tactic(auto, using(crate::proofs::Tests::suffix_tests), unfolding(crate::specs::laws::Machine::suffix_turn, crate::specs::private::Parsing::next_of))]
    pub(crate) fn suffix(&mut self, last: bool, a: Box<Tree>) -> Result<Mode, ParseFault>
        ensures { Turns result self.new (m.suffix_turn last (tree_in a) (waiting self.old) (ahead self.old)) }
    {
        if self.take(Symbol::Question) {
            let t = with_question(self.alloc, last, a)?;
            return Ok(Mode::Suffix(false, t));
        }
        if self.take(Symbol::LeftBracket) {
            return Ok(Mode::Bracket(a));
        }
        if self.take(Symbol::Dot) {
            return self.dotted(a);
        }
        if self.begins_with_field() {
            return self.field_of(a);
        }
        Ok(Mode::Have(a))
    }

    #[tactic(auto, using(crate::proofs::Tests::field_stops), unfolding(crate::specs::private::Parsing::field_step, crate::specs::private::Parsing::next_of))]
    fn field_of(&mut self, a: Box<Tree>) -> Result<Mode, ParseFault>
        ensures { Turns result self.new (field_step (tree_in a) (waiting self.old) (ahead self.old)) }
    {
        let Some(name) = self.field() else {
            return Err(ParseFault::Syntax);
        };
        let key = Key::new(self.alloc, name)?;
        let t = boxed(self.alloc, Tree::Field(a, key, false))?;
        Ok(Mode::Suffix(true, t))
    }

    #[tactic(auto, using(crate::proofs::Tests::dotted_tests), unfolding(crate::specs::laws::Machine::dotted_turn, crate::specs::private::Parsing::next_of))]
    fn dotted(&mut self, a: Box<Tree>) -> Result<Mode, ParseFault>
        ensures { Turns result self.new (m.dotted_turn (tree_in a) (waiting self.old) (ahead self.old)) }
    {
        if self.take(Symbol::LeftBracket) {
            return Ok(Mode::Bracket(a));
        }
        Ok(Mode::Text(TextUse::PartOf(a), Vec::new(self.alloc)))
    }

    #[tactic(auto, using(crate::proofs::Tests::bracket_tests), unfolding(crate::specs::laws::Machine::bracket_turn, crate::specs::private::Parsing::next_of))]
    pub(crate) fn bracket(&mut self, a: Box<Tree>) -> Result<Mode, ParseFault>
        ensures { Turns result self.new (m.bracket_turn (tree_in a) (waiting self.old) (ahead self.old)) }
    {
        if self.take(Symbol::RightBracket) {
            let t = boxed(self.alloc, Tree::Iterate(a, false))?;
            return Ok(Mode::Suffix(true, t));
        }
        if self.take(Symbol::Colon) {
            self.wait(Frame::Term(TermFrame::SliceTo(a)))?;
            return Ok(Mode::WantPipe(None));
        }
        self.wait(Frame::Term(TermFrame::PartOf(a)))?;
        Ok(Mode::WantPipe(None))
    }
}
