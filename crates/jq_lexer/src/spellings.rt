// How keywords and symbols are spelt.
ghost use Rattle.std.specs.Prelude.{◌≡◌};
ghost use Rattle.jq_tree.specs.Token as token;
ghost use Rattle.jq_lexer.specs.Views.{keyword_of, symbol_of};

use crate::tokens::{Keyword, Symbol};

// The reserved words.
pub(crate) const KEYWORDS: [Keyword; 19] = [
    Keyword::Def,
    Keyword::If,
    Keyword::Then,
    Keyword::Elif,
    Keyword::Else,
    Keyword::End,
    Keyword::As,
    Keyword::Reduce,
    Keyword::Foreach,
    Keyword::Try,
    Keyword::Catch,
    Keyword::Label,
    Keyword::Break,
    Keyword::Import,
    Keyword::Include,
    Keyword::Module,
    Keyword::And,
    Keyword::Or,
    Keyword::Location,
];

// The symbols, each before those that are a prefix of it, and else the frequent ones first.
pub(crate) const SYMBOLS: [Symbol; 33] = [
    Symbol::LeftParenthesis,
    Symbol::RightParenthesis,
    Symbol::Semicolon,
    Symbol::Comma,
    Symbol::Colon,
    Symbol::LeftBracket,
    Symbol::RightBracket,
    Symbol::LeftBrace,
    Symbol::RightBrace,
    Symbol::Question,
    Symbol::TwoDots,
    Symbol::Dot,
    Symbol::ModifyAssign,
    Symbol::Bar,
    Symbol::AlternativeAssign,
    Symbol::NotEqual,
    Symbol::Equal,
    Symbol::LessOrEqual,
    Symbol::GreaterOrEqual,
    Symbol::Alternative,
    Symbol::PlusAssign,
    Symbol::MinusAssign,
    Symbol::TimesAssign,
    Symbol::DividedAssign,
    Symbol::ModuloAssign,
    Symbol::Less,
    Symbol::Greater,
    Symbol::Assign,
    Symbol::Plus,
    Symbol::Minus,
    Symbol::Times,
    Symbol::Divided,
    Symbol::Modulo,
];

/// The text of a reserved word (manual of jq 1.7, "Advanced features", "Conditionals and Comparisons" and "Modules").
pub fn keyword_text(keyword: Keyword) -> &'static str
    ensures { result.now ≡ token.keyword_text (keyword_of keyword) }
{
    match keyword {
        Keyword::Def => "def",
        Keyword::If => "if",
        Keyword::Then => "then",
        Keyword::Elif => "elif",
        Keyword::Else => "else",
        Keyword::End => "end",
        Keyword::As => "as",
        Keyword::Reduce => "reduce",
        Keyword::Foreach => "foreach",
        Keyword::Try => "try",
        Keyword::Catch => "catch",
        Keyword::Label => "label",
        Keyword::Break => "break",
        Keyword::Import => "import",
        Keyword::Include => "include",
        Keyword::Module => "module",
        Keyword::And => "and",
        Keyword::Or => "or",
        Keyword::Location => "__loc__",
    }
}

pub(crate) fn symbol_text(symbol: Symbol) -> &'static [char]
    ensures { result.now ≡ token.symbol_text (symbol_of symbol) }
{
    match symbol {
        Symbol::NotEqual => &['!', '='],
        Symbol::Equal => &['=', '='],
        Symbol::LessOrEqual => &['<', '='],
        Symbol::GreaterOrEqual => &['>', '='],
        Symbol::Less => &['<'],
        Symbol::Greater => &['>'],
        Symbol::AlternativeAssign => &['/', '/', '='],
        Symbol::Alternative => &['/', '/'],
        Symbol::ModifyAssign => &['|', '='],
        Symbol::PlusAssign => &['+', '='],
        Symbol::MinusAssign => &['-', '='],
        Symbol::TimesAssign => &['*', '='],
        Symbol::DividedAssign => &['/', '='],
        Symbol::ModuloAssign => &['%', '='],
        Symbol::Assign => &['='],
        Symbol::TwoDots => &['.', '.'],
        Symbol::Dot => &['.'],
        Symbol::LeftBracket => &['['],
        Symbol::RightBracket => &[']'],
        Symbol::LeftParenthesis => &['('],
        Symbol::RightParenthesis => &[')'],
        Symbol::LeftBrace => &['{'],
        Symbol::RightBrace => &['}'],
        Symbol::Bar => &['|'],
        Symbol::Comma => &[','],
        Symbol::Colon => &[':'],
        Symbol::Semicolon => &[';'],
        Symbol::Plus => &['+'],
        Symbol::Minus => &['-'],
        Symbol::Times => &['*'],
        Symbol::Divided => &['/'],
        Symbol::Modulo => &['%'],
        Symbol::Question => &['?'],
    }
}
