// From a text to its tree.
ghost use Rattle.std.specs.Prelude.{◌≡◌, IfOk, IfErr, map};
ghost use Rattle.std.specs.Str.{chars};
ghost use Rattle.jq_ast.specs.Named.{named};
ghost use Rattle.jq_lexer.specs.Views.{token_of};
ghost use Rattle.jq_tree.specs.Filter.{Spelt, Within};
ghost use Rattle.jq_tree.specs.Grammar.{Main};
ghost use Rattle.jq_syntax.specs.private.Reading.{IsUnreadable, IsNotWithin};
ghost use Rattle.jq_syntax.specs.private.Trees.{IsNoTree};

use crate::faults::CompileFault;
use crate::limits::{is_too_long, is_too_nested};
use jq_ast::Tree;
use jq_lexer::{LexFault, Token, lex};
use jq_parser::{ParseFault, parse};
use std::alloc::Global;

// The tree of a filter's text (manual of jq 1.7, "Basic filters" to "Assignment"), which has at most 8,192 tokens and 256 open
// brackets. Its names are not resolved yet.
pub(crate) fn read_filter(alloc: Global, text: &str) -> Result<Box<Tree>, CompileFault>
    ensures tree { IfOk result (λ t. Spelt (chars text.now) (named t.value)) }
    ensures fault { IfErr result (IsUnreadable (chars text.now)) }
{
    let tokens = tokens_within(alloc, text)?;
    tree_of(alloc, tokens)
}

pub(crate) fn tokens_within(alloc: Global, text: &str) -> Result<Vec<Token>, CompileFault>
    ensures tokens { IfOk result (λ ts. Within (chars text.now) (map token_of ts.items)) }
    ensures fault { IfErr result (IsNotWithin (chars text.now)) }
{
    let tokens = match lex(alloc, text) {
        Ok(tokens) => tokens,
        Err(LexFault::BadToken { at }) => return Err(CompileFault::Lex { at }),
        Err(LexFault::NoMemory) => return Err(CompileFault::NoMemory),
    };
    if is_too_long(tokens.as_slice()) {
        return Err(CompileFault::TooManyTokens);
    }
    if is_too_nested(tokens.as_slice()) {
        return Err(CompileFault::TooNested);
    }
    Ok(tokens)
}

fn tree_of(alloc: Global, tokens: Vec<Token>) -> Result<Box<Tree>, CompileFault>
    ensures tree { IfOk result (λ t. Main (map token_of tokens.items) (named t.value)) }
    ensures fault { IfErr result (IsNoTree (map token_of tokens.items)) }
{
    match parse(alloc, tokens) {
        Ok(tree) => Ok(tree),
        Err(ParseFault::Syntax) => Err(CompileFault::Syntax),
        Err(ParseFault::NoMemory) => Err(CompileFault::NoMemory),
    }
}
