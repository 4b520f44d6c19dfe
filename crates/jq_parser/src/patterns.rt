// Patterns.
ghost use Rattle.std.specs.Prelude.{◌∷◌, ◌++◌, [], map};
ghost use Rattle.jv_data.specs.Text.{text_of};
ghost use Rattle.jq_tree.specs.Token as token;
ghost use Rattle.jq_ast.specs.Named.{named_as_pattern, named_as_part};
ghost use Rattle.jq_lexer.specs.Views.{symbol_of, keyword_of};
ghost use Rattle.jq_parser.specs.laws.Machine as m;
ghost use Rattle.jq_builders.specs.Views.{pattern_in, part_key_of};
ghost use Rattle.jq_parser.specs.private.Parsing.{Turns, ahead, waiting, pattern_frame_of};

use crate::faults::ParseFault;
use crate::forms::{BlockFrame, Frame, Mode, ObjectFrame, PatternFrame, ScopeFrame, TextUse};
use crate::parser::Parser;
use jq_ast::{Member, Pattern};
use jq_builders::parts::PartKey;
use jq_builders::trees::{
    boxed_pattern, items_pattern, members_pattern, string_tree, variable_member, with_keyed,
    with_member, with_pattern,
};
use jq_builders::words::word_text;
use jq_lexer::{Keyword, Symbol, Token};

impl Parser {
    #[tactic(auto, using(crate::proofs::Tests::pattern_tests, crate::proofs::Tests::pattern_bracket, crate::proofs::Tests::pattern_brace), unfolding(crate::specs::laws::Machine::pattern_turn, crate::specs::private::Parsing::next_of))]
    pub(crate) fn pattern(&mut self) -> Result<Mode, ParseFault>
        ensures { Turns result self.new (m.pattern_turn (waiting self.old) (ahead self.old)) }
    {
        if self.take(Symbol::LeftBracket) {
            self.wait(Frame::Pattern(PatternFrame::PatternItem(Vec::new(self.alloc))))?;
            return Ok(Mode::WantPattern);
        }
        if self.take(Symbol::LeftBrace) {
            return Ok(Mode::Member(Vec::new(self.alloc)));
        }
        let Some(name) = self.variable() else {
            return Err(ParseFault::Syntax);
        };
        let x = boxed_pattern(self.alloc, Pattern::Whole(name))?;
        Ok(Mode::HavePattern(x))
    }

    #[tactic(auto, unfolding(crate::specs::laws::Machine::part_key_turn, crate::specs::private::Parsing::next_of))]
    pub(crate) fn part_key(
        &mut self,
        members: Vec<Member>,
        key: PartKey,
    ) -> Result<Mode, ParseFault>
        ensures { Turns result self.new (m.part_key_turn (map named_as_part members.items) (part_key_of key) (waiting self.old) (ahead self.old)) }
    {
        self.wait(Frame::Pattern(PatternFrame::PatternMember(members, key)))?;
        self.expect(Symbol::Colon)?;
        Ok(Mode::WantPattern)
    }

    #[tactic(auto, using(crate::proofs::Tests::variable_member_tests), unfolding(crate::specs::laws::Machine::variable_member_turn, crate::specs::private::Parsing::next_of))]
    fn variable_member(&mut self, members: Vec<Member>, name: String) -> Result<Mode, ParseFault>
        ensures { Turns result self.new (m.variable_member_turn (map named_as_part members.items) (text_of name) (waiting self.old) (ahead self.old)) }
    {
        if self.take(Symbol::Colon) {
            self.wait(Frame::Pattern(PatternFrame::PatternMember(
                members,
                PartKey::Variable(name),
            )))?;
            return Ok(Mode::WantPattern);
        }
        let member = variable_member(self.alloc, name)?;
        let members = with_member(members, member)?;
        Ok(Mode::AfterMember(members))
    }

    #[tactic(auto, unfolding(crate::specs::laws::Machine::member_turn, crate::specs::private::Parsing::next_of))]
    pub(crate) fn member(&mut self, members: Vec<Member>) -> Result<Mode, ParseFault>
        ensures { Turns result self.new (m.member_turn (map named_as_part members.items) (waiting self.old) (ahead self.old)) }
    {
        let Some(token) = self.tokens.pop_front() else {
            return Err(ParseFault::Syntax);
        };
        match token {
            Token::Variable(name) => self.variable_member(members, name),
            Token::Name(name) => self.named_member(members, name),
            Token::Keyword(word) => self.word_member(members, word),
            Token::Piece(piece) => self.begin_text(TextUse::PartKey(members), piece),
            Token::Symbol(symbol) => self.symbol_member(members, symbol),
            other => {
                drop(members);
                Err(self.refused(other))
            }
        }
    }

    #[tactic(auto, unfolding(crate::specs::laws::Machine::member_turn, crate::specs::private::Parsing::next_of))]
    fn named_member(&mut self, members: Vec<Member>, name: String) -> Result<Mode, ParseFault>
        ensures { Turns result self.new (m.member_turn (map named_as_part members.items) (waiting self.old) (token.name (text_of name) ∷ ahead self.old)) }
    {
        let key = string_tree(self.alloc, name)?;
        self.part_key(members, PartKey::Tree(key))
    }

    #[tactic(auto, unfolding(crate::specs::laws::Machine::member_turn, crate::specs::private::Parsing::next_of))]
    fn word_member(&mut self, members: Vec<Member>, word: Keyword) -> Result<Mode, ParseFault>
        ensures { Turns result self.new (m.member_turn (map named_as_part members.items) (waiting self.old) (token.keyword (keyword_of word) ∷ ahead self.old)) }
    {
        let name = word_text(self.alloc, word)?;
        self.named_member(members, name)
    }

    #[tactic(auto, unfolding(crate::specs::laws::Machine::member_turn, crate::specs::private::Parsing::next_of))]
    fn symbol_member(&mut self, members: Vec<Member>, symbol: Symbol) -> Result<Mode, ParseFault>
        ensures { Turns result self.new (m.member_turn (map named_as_part members.items) (waiting self.old) (token.symbol (symbol_of symbol) ∷ ahead self.old)) }
    {
        match symbol {
            Symbol::LeftParenthesis => {
                self.wait(Frame::Object(ObjectFrame::MemberKey(members)))?;
                Ok(Mode::WantPipe(None))
            }
            other => Err(self.refused(Token::Symbol(other))),
        }
    }

    #[tactic(auto, using(crate::proofs::Tests::after_member_tests), unfolding(crate::specs::laws::Machine::after_member_turn, crate::specs::private::Parsing::next_of))]
    pub(crate) fn after_member(&mut self, members: Vec<Member>) -> Result<Mode, ParseFault>
        ensures { Turns result self.new (m.after_member_turn (map named_as_part members.items) (waiting self.old) (ahead self.old)) }
    {
        if self.take(Symbol::Comma) {
            return Ok(Mode::Member(members));
        }
        if self.take(Symbol::RightBrace) {
            let x = members_pattern(self.alloc, members)?;
            return Ok(Mode::HavePattern(x));
        }
        Err(ParseFault::Syntax)
    }

    #[tactic(auto, using(crate::proofs::Tests::pattern_item_tests), unfolding(crate::specs::laws::Machine::pattern_item_turn, crate::specs::private::Parsing::next_of))]
    fn pattern_item(&mut self, patterns: Vec<Pattern>, x: Box<Pattern>) -> Result<Mode, ParseFault>
        ensures { Turns result self.new (m.pattern_item_turn (map named_as_pattern patterns.items ++ pattern_in x ∷ []) (waiting self.old) (ahead self.old)) }
    {
        let patterns = with_pattern(patterns, x)?;
        if self.take(Symbol::Comma) {
            self.wait(Frame::Pattern(PatternFrame::PatternItem(patterns)))?;
            return Ok(Mode::WantPattern);
        }
        if self.take(Symbol::RightBracket) {
            let x = items_pattern(self.alloc, patterns)?;
            return Ok(Mode::HavePattern(x));
        }
        Err(ParseFault::Syntax)
    }

    #[tactic(auto, unfolding(crate::specs::laws::Machine::have_pattern_turn, crate::specs::private::Parsing::next_of))]
    fn member_read(
        &mut self,
        members: Vec<Member>,
        key: PartKey,
        x: Box<Pattern>,
    ) -> Result<Mode, ParseFault>
        ensures { Turns result self.new (m.have_pattern_turn (pattern_in x) (m.pattern_member (map named_as_part members.items) (part_key_of key) ∷ waiting self.old) (ahead self.old)) }
    {
        let members = with_keyed(members, key, x)?;
        Ok(Mode::AfterMember(members))
    }

    #[tactic(auto, using(crate::proofs::Tests::operator_waits, crate::proofs::Tests::scope_waits, crate::proofs::Tests::term_waits, crate::proofs::Tests::block_waits, crate::proofs::Tests::object_waits), unfolding(crate::specs::laws::Machine::have_pattern_turn))]
    pub(crate) fn have_pattern(&mut self, x: Box<Pattern>) -> Result<Mode, ParseFault>
        ensures { Turns result self.new (m.have_pattern_turn (pattern_in x) (waiting self.old) (ahead self.old)) }
    {
        let Some(frame) = self.frames.pop_front() else {
            return Err(ParseFault::Syntax);
        };
        match frame {
            Frame::Pattern(frame) => self.after_pattern(frame, x),
            other => {
                drop(other);
                drop(x);
                Err(ParseFault::Syntax)
            }
        }
    }

    #[tactic(auto, unfolding(crate::specs::laws::Machine::have_pattern_turn, crate::specs::private::Parsing::next_of))]
    fn after_pattern(&mut self, frame: PatternFrame, x: Box<Pattern>) -> Result<Mode, ParseFault>
        ensures { Turns result self.new (m.have_pattern_turn (pattern_in x) (pattern_frame_of frame ∷ waiting self.old) (ahead self.old)) }
    {
        match frame {
            PatternFrame::PatternItem(patterns) => self.pattern_item(patterns, x),
            PatternFrame::PatternMember(members, key) => self.member_read(members, key, x),
            PatternFrame::BindingPattern(before, a) => {
                let next = Frame::Scope(ScopeFrame::BindingRest(before, a, x));
                self.pipe_after(Symbol::Bar, next)
            }
            PatternFrame::FoldPattern(fold, a) => {
                let next = Frame::Block(BlockFrame::FoldStart(fold, a, x));
                self.pipe_after(Symbol::LeftParenthesis, next)
            }
        }
    }
}
