// One turn of the parser.
ghost use Rattle.jq_parser.specs.laws.Machine as m;
ghost use Rattle.jq_parser.specs.private.Parsing.{Turns, next_of, turned, ahead, waiting, definition_use_of};

use crate::faults::ParseFault;
use crate::forms::{DefinitionUse, Frame, Mode, ScopeFrame};
use crate::parser::Parser;

impl Parser {
    #[tactic(auto, unfolding(crate::specs::private::Parsing::turned, crate::specs::laws::Machine::turn, crate::specs::private::Parsing::next_of))]
    pub(crate) fn turn(&mut self, mode: Mode) -> Result<Mode, ParseFault>
        ensures { Turns result self.new (turned (next_of mode (waiting self.old) (ahead self.old))) }
    {
        match mode {
            Mode::WantMain => self.main(),
            Mode::WantPipe(before) => self.pipe(before),
            Mode::WantLevel(level) => self.level(level),
            Mode::WantUnary => self.unary(),
            Mode::WantBody => self.body(),
            Mode::WantPostfix => self.postfix(),
            Mode::WantValue => self.value(),
            Mode::Have(t) => self.have(t),
            Mode::Suffix(last, a) => self.suffix(last, a),
            Mode::Bracket(a) => self.bracket(a),
            Mode::Operators(a, from, upto) => self.operators(a, from, upto),
            Mode::Listed(t) => self.listed(t),
            Mode::Text(usage, before) => self.text(usage, before),
            Mode::TextDone(usage, text) => self.text_done(usage, text),
            Mode::Entry(entries) => self.entry(entries),
            Mode::AfterEntry(entries) => self.after_entry(entries),
            Mode::WantPattern => self.pattern(),
            Mode::HavePattern(x) => self.have_pattern(x),
            Mode::Member(members) => self.member(members),
            Mode::AfterMember(members) => self.after_member(members),
            Mode::WantDefinition(usage) => self.definition(usage),
            Mode::AfterDefinition(usage, definition) => self.after_definition(usage, definition),
            Mode::Done(t) => Ok(Mode::Done(t)),
        }
    }

    #[tactic(auto, unfolding(crate::specs::laws::Machine::turn, crate::specs::laws::Machine::on_definition, crate::specs::private::Parsing::next_of))]
    fn definition(&mut self, usage: DefinitionUse) -> Result<Mode, ParseFault>
        ensures { Turns result self.new (m.turn (m.definition_next (definition_use_of usage)) (waiting self.old) (ahead self.old)) }
    {
        let head = self.function_head()?;
        self.wait(Frame::Scope(ScopeFrame::DefinitionBody(usage, head)))?;
        Ok(Mode::WantPipe(None))
    }
}
