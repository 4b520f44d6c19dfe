// Where a filter's text is refused for its syntax.
ghost use Rattle.std.specs.Prelude.{map, IfOk, MatchOption};
ghost use Rattle.std.specs.Str.{chars};
ghost use Rattle.jq_lexer.specs.Views.{token_of};
ghost use Rattle.jq_tree.specs.Filter.{Within};
ghost use Rattle.jq_syntax.specs.SyntaxPlaces.{IsSyntaxError, IsSyntaxErrorAt};

use crate::faults::CompileFault;
use crate::reading::tokens_within;
use jq_lexer::{Token, place_of_token};
use jq_parser::place_of_refusal;
use jq_tree::lexing::one_reading;
use jv_data::NoMemory;
use std::alloc::Global;

/// Where a filter's text is refused for its syntax.
#[derive(Clone, Copy, Debug, PartialEq, Eq)]
pub enum SyntaxPlace {
    /// At the token that begins at this byte of the text, counted from 0.
    At(usize),
    /// At the end of the text, which ends too early.
    AtEnd,
}

/// Where a filter's text is refused for its syntax: the first token that cannot follow the ones before it. None if the text
/// is not refused for its syntax. The text is read once more, as `compile` reads it.
#[tactic(auto, using(crate::proofs::Refused::refused_at, crate::proofs::Refused::refused_at_end))]
pub fn place_of_syntax_error(alloc: Global, text: &str) -> Result<Option<SyntaxPlace>, NoMemory>
    ensures { IfOk result (λ o. MatchOption o (¬ IsSyntaxError (chars text.now)) (IsSyntaxErrorAt (chars text.now))) }
{
    one_reading();
    let Some(tokens) = tokens_to_parse(alloc, text)? else {
        return Ok(None);
    };
    let Some(taken) = place_of_refusal(alloc, tokens)? else {
        return Ok(None);
    };
    match place_of_token(alloc, text, taken)? {
        Some(at) => Ok(Some(SyntaxPlace::At(at))),
        None => Ok(Some(SyntaxPlace::AtEnd)),
    }
}

// The tokens of a text within the limits. None if the text is refused before its tokens are parsed.
#[tactic(auto, using(crate::proofs::Refused::refused_before))]
fn tokens_to_parse(alloc: Global, text: &str) -> Result<Option<Vec<Token>>, NoMemory>
    ensures { IfOk result (λ o. MatchOption o (¬ IsSyntaxError (chars text.now)) (λ ts. Within (chars text.now) (map token_of ts.items))) }
{
    one_reading();
    match tokens_within(alloc, text) {
        Ok(tokens) => Ok(Some(tokens)),
        Err(CompileFault::NoMemory) => Err(NoMemory),
        Err(_other) => Ok(None),
    }
}
