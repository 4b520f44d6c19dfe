// Pipes, their operands and their operators.
ghost use Rattle.jq_parser.specs.laws.Machine as m;
ghost use Rattle.jq_builders.specs.Views.{tree_in, maybe};
ghost use Rattle.jq_parser.specs.private.Parsing.{Turns, ahead, waiting};

use crate::faults::ParseFault;
use crate::forms::{DefinitionUse, Frame, Mode, ObjectFrame, OperatorFrame, ScopeFrame};
use crate::parser::Parser;
use crate::tables::right_level;
use jq_ast::{Tree, boxed};
use jq_lexer::{Keyword, Symbol};

impl Parser {
    #[tactic(auto, using(crate::proofs::Tests::main_tests), unfolding(crate::specs::laws::Machine::main_turn, crate::specs::private::Parsing::next_of))]
    pub(crate) fn main(&mut self) -> Result<Mode, ParseFault>
        ensures { Turns result self.new (m.main_turn (waiting self.old) (ahead self.old)) }
    {
        if self.at_end() {
            let t = boxed(self.alloc, Tree::Identity)?;
            return Ok(Mode::Have(t));
        }
        if self.take_word(Keyword::Def) {
            return Ok(Mode::WantDefinition(DefinitionUse::InMain));
        }
        Ok(Mode::WantPipe(None))
    }

    #[tactic(auto, using(crate::proofs::Tests::pipe_tests), unfolding(crate::specs::laws::Machine::pipe_turn, crate::specs::private::Parsing::next_of))]
    pub(crate) fn pipe(&mut self, before: Option<Box<Tree>>) -> Result<Mode, ParseFault>
        ensures { Turns result self.new (m.pipe_turn (maybe before) (waiting self.old) (ahead self.old)) }
    {
        if self.take_word(Keyword::Def) {
            return Ok(Mode::WantDefinition(DefinitionUse::InPipe(before)));
        }
        if self.take_word(Keyword::Label) {
            return self.label(before);
        }
        let is_post = self.begins_postfix();
        self.wait(Frame::Operator(OperatorFrame::Operand(before, is_post)))?;
        Ok(Mode::WantUnary)
    }

    #[tactic(auto, using(crate::proofs::Tests::label_tests, crate::proofs::Tests::label_stops), unfolding(crate::specs::laws::Machine::label_turn, crate::specs::private::Parsing::next_of))]
    fn label(&mut self, before: Option<Box<Tree>>) -> Result<Mode, ParseFault>
        ensures { Turns result self.new (m.label_turn (maybe before) (waiting self.old) (ahead self.old)) }
    {
        let Some(name) = self.variable() else {
            return Err(ParseFault::Syntax);
        };
        self.pipe_after(
            Symbol::Bar,
            Frame::Scope(ScopeFrame::LabelRest(before, name)),
        )
    }

    #[tactic(auto, unfolding(crate::specs::laws::Machine::turn, crate::specs::private::Parsing::next_of))]
    pub(crate) fn level(&mut self, upto: u8) -> Result<Mode, ParseFault>
        ensures { Turns result self.new (m.turn (m.want_level upto) (waiting self.old) (ahead self.old)) }
    {
        self.wait(Frame::Operator(OperatorFrame::Climbing(upto)))?;
        Ok(Mode::WantUnary)
    }

    #[tactic(auto, unfolding(crate::specs::laws::Machine::turn, crate::specs::private::Parsing::next_of))]
    pub(crate) fn value(&mut self) -> Result<Mode, ParseFault>
        ensures { Turns result self.new (m.turn m.want_value (waiting self.old) (ahead self.old)) }
    {
        self.wait(Frame::Object(ObjectFrame::EndsValue))?;
        Ok(Mode::WantLevel(7))
    }

    #[tactic(auto, using(crate::proofs::Tests::una_tests), unfolding(crate::specs::laws::Machine::una_turn, crate::specs::private::Parsing::next_of))]
    pub(crate) fn unary(&mut self) -> Result<Mode, ParseFault>
        ensures { Turns result self.new (m.una_turn (waiting self.old) (ahead self.old)) }
    {
        if self.take(Symbol::Minus) {
            self.wait(Frame::Operator(OperatorFrame::Negated))?;
            return Ok(Mode::WantUnary);
        }
        if self.take_word(Keyword::Try) {
            self.wait(Frame::Operator(OperatorFrame::Tried))?;
            return Ok(Mode::WantBody);
        }
        Ok(Mode::WantPostfix)
    }

    #[tactic(auto, using(crate::proofs::Tests::body_tests), unfolding(crate::specs::laws::Machine::body_turn, crate::specs::private::Parsing::next_of))]
    pub(crate) fn body(&mut self) -> Result<Mode, ParseFault>
        ensures { Turns result self.new (m.body_turn (waiting self.old) (ahead self.old)) }
    {
        if self.take(Symbol::Minus) {
            self.wait(Frame::Operator(OperatorFrame::Negated))?;
            return Ok(Mode::WantBody);
        }
        Ok(Mode::WantPostfix)
    }

    #[tactic(auto, using(crate::proofs::Tests::listed_tests), unfolding(crate::specs::laws::Machine::listed_turn, crate::specs::private::Parsing::next_of))]
    pub(crate) fn listed(&mut self, t: Box<Tree>) -> Result<Mode, ParseFault>
        ensures { Turns result self.new (m.listed_turn (tree_in t) (waiting self.old) (ahead self.old)) }
    {
        if self.take(Symbol::Comma) {
            return Ok(Mode::WantPipe(Some(t)));
        }
        if self.take(Symbol::Bar) {
            self.wait(Frame::Operator(OperatorFrame::Piped(t)))?;
            return Ok(Mode::WantPipe(None));
        }
        Ok(Mode::Have(t))
    }

    #[tactic(auto, using(crate::proofs::Tests::operators_none, crate::proofs::Tests::operators_loose, crate::proofs::Tests::operators_tight, crate::proofs::Tests::operators_take), unfolding(crate::specs::laws::Machine::operators_turn, crate::specs::private::Parsing::next_of))]
    pub(crate) fn operators(
        &mut self,
        a: Box<Tree>,
        from: u16,
        upto: u8,
    ) -> Result<Mode, ParseFault>
        ensures { Turns result self.new (m.operators_turn (tree_in a) from upto (waiting self.old) (ahead self.old)) }
    {
        let level = self.level_ahead();
        if level == 0 || level > upto || (level as u16) < from {
            return Ok(Mode::Have(a));
        }
        let Some(operator) = self.tokens.pop_front() else {
            return Err(ParseFault::Syntax);
        };
        self.wait(Frame::Operator(OperatorFrame::Operated(a, operator, level - 1, upto)))?;
        Ok(Mode::WantLevel(right_level(level)))
    }
}
