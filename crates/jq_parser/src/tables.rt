// Tables of the reserved words, the symbols and the operators.
ghost use Rattle.std.specs.Prelude.{◌≡◌, ◌<◌, ◌≤◌, ◌-◌, suc};
ghost use Rattle.jq_tree.specs.Grammar as g;
ghost use Rattle.jq_lexer.specs.Views.{symbol_of, keyword_of, token_of};
ghost use Rattle.jq_parser.specs.laws.Combinators as c;
ghost use Rattle.jq_parser.specs.private.Parsing as p;
ghost use Rattle.jq_parser.specs.laws.Machine as m;

use jq_lexer::{Keyword, Symbol, Token};

/// Different symbols have different numbers.
pub(crate) fn symbol_number(symbol: Symbol) -> u8
    ensures { result ≡ c.symbol_number (symbol_of symbol) }
{
    match symbol {
        Symbol::NotEqual => 0,
        Symbol::Equal => 1,
        Symbol::LessOrEqual => 2,
        Symbol::GreaterOrEqual => 3,
        Symbol::Less => 4,
        Symbol::Greater => 5,
        Symbol::AlternativeAssign => 6,
        Symbol::Alternative => 7,
        Symbol::ModifyAssign => 8,
        Symbol::PlusAssign => 9,
        Symbol::MinusAssign => 10,
        Symbol::TimesAssign => 11,
        Symbol::DividedAssign => 12,
        Symbol::ModuloAssign => 13,
        Symbol::Assign => 14,
        Symbol::TwoDots => 15,
        Symbol::Dot => 16,
        Symbol::LeftBracket => 17,
        Symbol::RightBracket => 18,
        Symbol::LeftParenthesis => 19,
        Symbol::RightParenthesis => 20,
        Symbol::LeftBrace => 21,
        Symbol::RightBrace => 22,
        Symbol::Bar => 23,
        Symbol::Comma => 24,
        Symbol::Colon => 25,
        Symbol::Semicolon => 26,
        Symbol::Plus => 27,
        Symbol::Minus => 28,
        Symbol::Times => 29,
        Symbol::Divided => 30,
        Symbol::Modulo => 31,
        Symbol::Question => 32,
    }
}

/// Different reserved words have different numbers.
pub(crate) fn keyword_number(word: Keyword) -> u8
    ensures { result ≡ p.keyword_number (keyword_of word) }
{
    match word {
        Keyword::Def => 0,
        Keyword::If => 1,
        Keyword::Then => 2,
        Keyword::Elif => 3,
        Keyword::Else => 4,
        Keyword::End => 5,
        Keyword::As => 6,
        Keyword::Reduce => 7,
        Keyword::Foreach => 8,
        Keyword::Try => 9,
        Keyword::Catch => 10,
        Keyword::Label => 11,
        Keyword::Break => 12,
        Keyword::Import => 13,
        Keyword::Include => 14,
        Keyword::Module => 15,
        Keyword::And => 16,
        Keyword::Or => 17,
        Keyword::Location => 18,
    }
}

fn symbol_level(symbol: Symbol) -> u8
    ensures { result ≡ g.symbol_level (symbol_of symbol) }
{
    match symbol {
        Symbol::NotEqual => 3,
        Symbol::Equal => 3,
        Symbol::LessOrEqual => 3,
        Symbol::GreaterOrEqual => 3,
        Symbol::Less => 3,
        Symbol::Greater => 3,
        Symbol::AlternativeAssign => 6,
        Symbol::Alternative => 7,
        Symbol::ModifyAssign => 6,
        Symbol::PlusAssign => 6,
        Symbol::MinusAssign => 6,
        Symbol::TimesAssign => 6,
        Symbol::DividedAssign => 6,
        Symbol::ModuloAssign => 6,
        Symbol::Assign => 6,
        Symbol::TwoDots => 0,
        Symbol::Dot => 0,
        Symbol::LeftBracket => 0,
        Symbol::RightBracket => 0,
        Symbol::LeftParenthesis => 0,
        Symbol::RightParenthesis => 0,
        Symbol::LeftBrace => 0,
        Symbol::RightBrace => 0,
        Symbol::Bar => 0,
        Symbol::Comma => 0,
        Symbol::Colon => 0,
        Symbol::Semicolon => 0,
        Symbol::Plus => 2,
        Symbol::Minus => 2,
        Symbol::Times => 1,
        Symbol::Divided => 1,
        Symbol::Modulo => 1,
        Symbol::Question => 0,
    }
}

pub(crate) fn level_of(token: &Token) -> u8
    ensures { result ≡ g.level_of (token_of token.now) }
{
    match token {
        Token::Keyword(Keyword::And) => 4,
        Token::Keyword(Keyword::Or) => 5,
        Token::Symbol(symbol) => symbol_level(*symbol),
        _ => 0,
    }
}

/// The loosest level in the right operand: the operator's own for `//`, which is right-associative, and one tighter for the
/// others.
pub(crate) fn right_level(level: u8) -> u8
    requires operator { 0 < level }
    ensures { result ≡ m.right_level (g.side_of level) (level - 1) }
{
    if level == 7 { 7 } else { level - 1 }
}

/// The first level whose operators may follow an operator of level `l + 1`: the same one if it is left-associative, else the
/// next. It has 16 bits, since `l + 2` may not fit in 8.
pub(crate) fn next_from(l: u8) -> u16
    ensures { result ≡ m.next_from (g.side_of (suc l)) l }
{
    match l {
        0 => 1,
        1 => 2,
        3 => 4,
        4 => 5,
        _ => l as u16 + 2,
    }
}
