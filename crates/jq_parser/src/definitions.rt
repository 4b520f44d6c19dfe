// The heads of definitions: their names and parameters.
ghost use Rattle.std.specs.Prelude.{◌≡◌, map, OnOk, MatchResult, Some, None};
ghost use Rattle.jq_builders.specs.Views.{parameter_of};
ghost use Rattle.jq_parser.specs.laws.Machine as m;
ghost use Rattle.jq_parser.specs.laws.Forms as f;
ghost use Rattle.jq_parser.specs.private.Parsing.{ahead, head_of};
ghost use Rattle.jq_parser.specs.declared.faults.ParseFault.TheVariants.{Syntax};

use crate::faults::ParseFault;
use crate::parser::Parser;
use jq_builders::definitions::with_parameter;
use jq_builders::parts::{Head, Parameter};
use jq_lexer::{Symbol, Token};

impl Parser {
    /// The name and the parameters of a definition: the tokens between `def` and the body.
    #[tactic(auto, unfolding(crate::specs::laws::Machine::function_head, crate::specs::laws::Combinators::any_name, crate::specs::laws::Combinators::any_name_on, crate::specs::laws::Combinators::and_then, crate::specs::laws::Combinators::expect))]
    pub(crate) fn function_head(&mut self) -> Result<Head, ParseFault>
        ensures frames { OnOk result (self.new.frames ≡ self.old.frames) }
        ensures value { MatchResult result (λ h. m.function_head (ahead self.old) ≡ Some (head_of h, ahead self.new)) (λ e. e ≡ Syntax → m.function_head (ahead self.old) ≡ None) }
    {
        let Some(name) = self.name() else {
            return Err(ParseFault::Syntax);
        };
        let parameters = self.parameters()?;
        self.expect(Symbol::Colon)?;
        Ok(Head { name, parameters })
    }

    #[tactic(auto, unfolding(crate::specs::laws::Forms::parameters, crate::specs::laws::Forms::parameters_on, crate::specs::laws::Combinators::and_then, crate::specs::laws::Combinators::expect))]
    fn parameters(&mut self) -> Result<Vec<Parameter>, ParseFault>
        ensures frames { OnOk result (self.new.frames ≡ self.old.frames) }
        ensures value { MatchResult result (λ ps. f.parameters (ahead self.old) ≡ Some (map parameter_of ps.items, ahead self.new)) (λ e. e ≡ Syntax → f.parameters (ahead self.old) ≡ None) }
    {
        if !self.take(Symbol::LeftParenthesis) {
            return Ok(Vec::new(self.alloc));
        }
        let parameters = self.parameter_list()?;
        self.expect(Symbol::RightParenthesis)?;
        Ok(parameters)
    }

    fn parameter_list(&mut self) -> Result<Vec<Parameter>, ParseFault>
        ensures frames { OnOk result (self.new.frames ≡ self.old.frames) }
        ensures value { MatchResult result (λ ps. f.parameter_list (ahead self.old) ≡ Some (map parameter_of ps.items, ahead self.new)) (λ e. e ≡ Syntax → f.parameter_list (ahead self.old) ≡ None) }
    {
        let mut parameters = Vec::new(self.alloc);
        loop {
            let parameter = match self.parameter() {
                Ok(parameter) => parameter,
                Err(e) => return Err(e),
            };
            parameters = with_parameter(parameters, parameter)?;
            if !self.take(Symbol::Semicolon) {
                return Ok(parameters);
            }
        }
    }

    #[tactic(auto, unfolding(crate::specs::laws::Forms::parameter, crate::specs::laws::Forms::parameter_on, crate::specs::laws::Combinators::and_then))]
    fn parameter(&mut self) -> Result<Parameter, ParseFault>
        ensures frames { OnOk result (self.new.frames ≡ self.old.frames) }
        ensures value { MatchResult result (λ p. f.parameter (ahead self.old) ≡ Some (parameter_of p, ahead self.new)) (λ e. e ≡ Syntax → f.parameter (ahead self.old) ≡ None) }
    {
        let Some(token) = self.tokens.pop_front() else {
            return Err(ParseFault::Syntax);
        };
        match token {
            Token::Name(name) => Ok(Parameter::Filter(name)),
            Token::Variable(name) => Ok(Parameter::Value(name)),
            other => Err(self.refused(other)),
        }
    }
}
