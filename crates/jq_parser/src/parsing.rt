// The parser: one pass over the tokens.
ghost use Rattle.std.specs.Prelude.{◌≡◌, [], map, IfOk, IfErr, MatchOption};
ghost use Rattle.jq_tree.specs.Tree as tree;
ghost use Rattle.jq_tree.specs.Grammar.{Main};
ghost use Rattle.jq_ast.specs.Named.{named};
ghost use Rattle.jq_lexer.specs.Views.{token_of};
ghost use Rattle.jq_parser.specs.Refusals.{HasTree, IsRefusedAt};
ghost use Rattle.jq_parser.specs.private.Parsing.{ahead, waiting};
ghost use Rattle.jq_parser.specs.declared.faults.ParseFault.TheVariants.{Syntax};

use crate::faults::ParseFault;
use crate::forms::Mode;
use crate::parser::Parser;
use jq_ast::Tree;
use jq_lexer::Token;
use std::alloc::{AllocError, Global};
use std::collections::VecDeque;

/// The tree of a filter's tokens (manual of jq 1.7, "Basic filters" to "Assignment"). Its names are not resolved yet.
///
/// The forms that wait for a part are kept in a list, so nested filters take no stack. The number of turns is at most linear
/// in the number of tokens.
pub fn parse(alloc: Global, tokens: Vec<Token>) -> Result<Box<Tree>, ParseFault>
    ensures tree { IfOk result (λ t. Main (map token_of tokens.items) (named t.value)) }
    ensures syntax { IfErr result (λ e. e ≡ Syntax → (t : tree.Tree) → ¬ Main (map token_of tokens.items) t) }
{
    let mut parser = Parser::at_start(alloc, tokens);
    parser.run()
}

/// Where the parser stops in tokens that are no filter: the index of the token that it does not take, or the number of the
/// tokens if they end too early. None if they are a filter.
pub fn place_of_refusal(alloc: Global, tokens: Vec<Token>) -> Result<Option<usize>, AllocError>
    ensures { IfOk result (λ o. MatchOption o (HasTree (map token_of tokens.items)) (IsRefusedAt (map token_of tokens.items))) }
{
    let count = tokens.len();
    let mut parser = Parser::at_start(alloc, tokens);
    match parser.run() {
        Ok(_tree) => Ok(None),
        // A token that must not be next is not taken, so the tokens that are left begin with it.
        Err(ParseFault::Syntax) => Ok(Some(count.saturating_sub(parser.tokens.len()))),
        Err(ParseFault::NoMemory) => Err(AllocError),
    }
}

impl Parser {
    fn at_start(alloc: Global, tokens: Vec<Token>) -> Parser
        ensures ahead { ahead result ≡ map token_of tokens.items }
        ensures frames { waiting result ≡ [] }
    {
        Parser {
            alloc,
            tokens: VecDeque::from_vec(tokens),
            frames: VecDeque::new(alloc),
        }
    }

    // Takes all tokens.
    fn run(&mut self) -> Result<Box<Tree>, ParseFault>
        requires { waiting self.old ≡ [] }
        ensures tree { IfOk result (λ t. Main (ahead self.old) (named t.value)) }
        ensures syntax { IfErr result (λ e. e ≡ Syntax → (t : tree.Tree) → ¬ Main (ahead self.old) t) }
    {
        let mut mode = Mode::WantMain;
        loop {
            mode = match mode {
                Mode::Done(t) => return Ok(t),
                other => self.turn(other)?,
            };
        }
    }
}
