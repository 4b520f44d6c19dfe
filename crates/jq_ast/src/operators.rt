// Operators.

/// An operator that works on two values (manual of jq 1.7, "Builtin operators and functions", "Conditionals and
/// Comparisons").
#[derive(Clone, Copy, Debug, PartialEq, Eq)]
pub enum Operator {
    Plus,
    Minus,
    Times,
    Divided,
    Modulo,
    Equal,
    NotEqual,
    Less,
    LessOrEqual,
    Greater,
    GreaterOrEqual,
}
