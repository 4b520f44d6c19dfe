// The tokens of a filter.
ghost use Rattle.std.specs.Prelude.{◌<◌, ◌^◌};

/// A reserved word.
#[derive(Clone, Copy, Debug, PartialEq, Eq)]
pub enum Keyword {
    Def,
    If,
    Then,
    Elif,
    Else,
    End,
    As,
    Reduce,
    Foreach,
    Try,
    Catch,
    Label,
    Break,
    Import,
    Include,
    Module,
    And,
    Or,
    Location,
}

/// A word of punctuation characters, such as `//=`.
#[derive(Clone, Copy, Debug, PartialEq, Eq)]
pub enum Symbol {
    NotEqual,
    Equal,
    LessOrEqual,
    GreaterOrEqual,
    Less,
    Greater,
    AlternativeAssign,
    Alternative,
    ModifyAssign,
    PlusAssign,
    MinusAssign,
    TimesAssign,
    DividedAssign,
    ModuloAssign,
    Assign,
    TwoDots,
    Dot,
    LeftBracket,
    RightBracket,
    LeftParenthesis,
    RightParenthesis,
    LeftBrace,
    RightBrace,
    Bar,
    Comma,
    Colon,
    Semicolon,
    Plus,
    Minus,
    Times,
    Divided,
    Modulo,
    Question,
}

/// The value of a number in a filter; its sign is a token of its own.
#[derive(Clone, Copy, Debug, PartialEq, Eq)]
pub struct Natural {
    pub value: u64,
    pub ghost fits: { value < 2 ^ 63 },
}

/// A token. A string with n interpolations is n + 1 pieces; between two pieces come `Interpolation`, the tokens of a filter
/// and `)`.
#[derive(Debug, PartialEq, Eq, Drop)]
pub enum Token {
    Keyword(Keyword),
    /// A name that is not reserved.
    Name(String),
    /// `.a`
    Field(String),
    /// `$a`
    Variable(String),
    /// `@a`
    Format(String),
    Number(Natural),
    /// The characters that a piece of a string represents.
    Piece(String),
    /// `\(` in a string.
    Interpolation,
    Symbol(Symbol),
}
