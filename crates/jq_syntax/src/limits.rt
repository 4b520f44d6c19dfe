// The limits of a filter.
ghost use Rattle.std.specs.Prelude.{◌≡◌, ◌↔◌, ◌∷◌, [], IsTrue, map};
ghost use Rattle.jq_lexer.specs.Views.{token_of};
ghost use Rattle.jq_tree.specs.Token.{TooManyTokens, TooNested, opening_brackets, closing_brackets};

use jq_lexer::{Symbol, Token};

const MOST_TOKENS: usize = 8192;

const MOST_BRACKETS: usize = 256;

pub(crate) fn is_too_long(tokens: &[Token]) -> bool
    ensures { IsTrue result ↔ TooManyTokens (map token_of tokens.now) }
{
    tokens.len() > MOST_TOKENS
}

#[tactic(auto, using(crate::proofs::Nesting::nested_start, crate::proofs::Nesting::nested_never, crate::proofs::Nesting::few_open, crate::proofs::Nesting::few_close))]
pub(crate) fn is_too_nested(tokens: &[Token]) -> bool
    ensures { IsTrue result ↔ TooNested (map token_of tokens.now) }
{
    let mut opened = 0;
    let mut closed = 0;
    for token in tokens {
        opened += opening(token);
        closed += closing(token);
        if opened > closed + MOST_BRACKETS {
            return true;
        }
    }
    false
}

// The number of brackets that the token opens, 0 or 1.
fn opening(token: &Token) -> usize
    ensures { result ≡ opening_brackets (token_of token.now ∷ []) }
{
    match token {
        Token::Interpolation => 1,
        Token::Symbol(Symbol::LeftParenthesis | Symbol::LeftBracket | Symbol::LeftBrace) => 1,
        _ => 0,
    }
}

// The number of brackets that the token closes, 0 or 1.
fn closing(token: &Token) -> usize
    ensures { result ≡ closing_brackets (token_of token.now ∷ []) }
{
    match token {
        Token::Symbol(Symbol::RightParenthesis | Symbol::RightBracket | Symbol::RightBrace) => 1,
        _ => 0,
    }
}
