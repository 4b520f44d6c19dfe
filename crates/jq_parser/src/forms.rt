// The data that the parser keeps while it reads.
ghost use Rattle.std.specs.Prelude.{◌≡◌, Ok, Err, MatchResult};
ghost use Rattle.jq_parser.specs.declared.faults.ParseFault.TheVariants.{NoMemory};
ghost use Rattle.jq_parser.specs.declared.forms.Mode.TheVariants as mode;

use crate::faults::ParseFault;
use jq_ast::{Entry, Member, Pattern, Piece, Tree};
use jq_builders::parts::{Branch, Definition, Head, PartKey, Text, ValueKey};
use jq_lexer::Token;
use std::alloc::AllocError;

/// The form that a string is a part of.
#[derive(Drop)]
pub(crate) enum TextUse {
    Term,
    Formatted(String),
    PartOfInput,
    PartOf(Box<Tree>),
    Key(Vec<Entry<Tree>>),
    FormattedKey(Vec<Entry<Tree>>, String),
    PartKey(Vec<Member>),
}

/// Where a definition is: in a pipe, with the operand before the last comma, or before the filter.
#[derive(Drop)]
pub(crate) enum DefinitionUse {
    InPipe(Option<Box<Tree>>),
    InMain,
}

/// `reduce` or `foreach`.
#[derive(Clone, Copy)]
pub(crate) enum Fold {
    Reducing,
    Iterating,
}

/// A form that waits for one of its parts.
#[derive(Drop)]
pub(crate) enum Frame {
    Operator(OperatorFrame),
    Scope(ScopeFrame),
    Term(TermFrame),
    Block(BlockFrame),
    Object(ObjectFrame),
    Pattern(PatternFrame),
}

/// A form whose operand comes next.
#[derive(Drop)]
pub(crate) enum OperatorFrame {
    Negated,
    Tried,
    /// The body of a `try`, before its handler.
    Caught(Box<Tree>),
    /// The loosest level of the operators that may follow.
    Climbing(u8),
    /// The left side, the operator, its level minus one, and the loosest level that may follow.
    Operated(Box<Tree>, Token, u8, u8),
    /// What precedes the last comma, and whether the operand is a postfix form, which `as` may follow.
    Operand(Option<Box<Tree>>, bool),
    /// What precedes the last comma.
    EndsOperand(Option<Box<Tree>>),
    Piped(Box<Tree>),
}

/// A definition, a label or a binding, before its body or its scope.
#[derive(Drop)]
pub(crate) enum ScopeFrame {
    DefinitionBody(DefinitionUse, Head),
    DefinitionRest(Option<Box<Tree>>, Definition),
    MainRest(Definition),
    LabelRest(Option<Box<Tree>>, String),
    BindingRest(Option<Box<Tree>>, Box<Tree>, Box<Pattern>),
}

/// A term or a step, before a filter in its brackets.
#[derive(Drop)]
pub(crate) enum TermFrame {
    InParentheses,
    InArray,
    Argument(String, Vec<Tree>),
    PartOf(Box<Tree>),
    SliceEnd(Box<Tree>, Box<Tree>),
    SliceTo(Box<Tree>),
    TextPart(TextUse, Vec<Piece<Tree>>, String),
}

/// An `if`, a `reduce` or a `foreach`, before one of its filters.
#[derive(Drop)]
pub(crate) enum BlockFrame {
    BranchTest(Vec<Branch>),
    BranchHolds(Vec<Branch>, Box<Tree>),
    BranchFails(Vec<Branch>),
    FoldSource(Fold),
    FoldStart(Fold, Box<Tree>, Box<Pattern>),
    FoldUpdate(Fold, Box<Tree>, Box<Pattern>, Box<Tree>),
    FoldExtract(Box<Tree>, Box<Pattern>, Box<Tree>, Box<Tree>),
}

/// An object or its pattern, before a key or a value.
#[derive(Drop)]
pub(crate) enum ObjectFrame {
    EntryKey(Vec<Entry<Tree>>),
    EntryValue(Vec<Entry<Tree>>, ValueKey),
    EndsValue,
    ValuePiped(Box<Tree>),
    MemberKey(Vec<Member>),
}

/// A form that waits for a pattern.
#[derive(Drop)]
pub(crate) enum PatternFrame {
    PatternItem(Vec<Pattern>),
    PatternMember(Vec<Member>, PartKey),
    BindingPattern(Option<Box<Tree>>, Box<Tree>),
    FoldPattern(Fold, Box<Tree>),
}

/// What the next turn does.
#[derive(Drop)]
pub(crate) enum Mode {
    WantMain,
    WantPipe(Option<Box<Tree>>),
    WantLevel(u8),
    WantUnary,
    WantBody,
    WantPostfix,
    WantValue,
    /// The part that the last frame waits for.
    Have(Box<Tree>),
    /// A postfix form so far, and whether it ends with a step.
    Suffix(bool, Box<Tree>),
    /// After the `[` of a step.
    Bracket(Box<Tree>),
    /// The left side, and the tightest and the loosest level of the operators that may follow.
    Operators(Box<Tree>, u16, u8),
    /// The operands of the commas so far.
    Listed(Box<Tree>),
    Text(TextUse, Vec<Piece<Tree>>),
    TextDone(TextUse, Text),
    Entry(Vec<Entry<Tree>>),
    AfterEntry(Vec<Entry<Tree>>),
    WantPattern,
    HavePattern(Box<Pattern>),
    Member(Vec<Member>),
    AfterMember(Vec<Member>),
    /// After `def`.
    WantDefinition(DefinitionUse),
    AfterDefinition(DefinitionUse, Definition),
    /// The tree of all tokens.
    Done(Box<Tree>),
}

/// The tree is the part that the last frame waits for.
pub(crate) fn whole(made: Result<Box<Tree>, AllocError>) -> Result<Mode, ParseFault>
    ensures { MatchResult made (λ t. result ≡ Ok (mode.Have t)) (λ _. result ≡ Err NoMemory) }
{
    let t = made?;
    Ok(Mode::Have(t))
}

/// The tree is a postfix form so far. `last` says whether it ends with a step.
pub(crate) fn suffixed(last: bool, made: Result<Box<Tree>, AllocError>) -> Result<Mode, ParseFault>
    ensures { MatchResult made (λ t. result ≡ Ok (mode.Suffix last t)) (λ _. result ≡ Err NoMemory) }
{
    let t = made?;
    Ok(Mode::Suffix(last, t))
}
