// The tree of a filter.
ghost use Rattle.std.specs.Prelude.{◌≡◌, IfOk};

use crate::leaves::{Key, Literal};
use crate::names::{Modify, Name};
use crate::operators::Operator;
use std::alloc::{AllocError, Global};

/// The characters before an interpolation in a string, and the filter in it.
#[derive(Drop)]
pub struct Piece<T> {
    pub before: String,
    pub tree: T,
}

/// An entry of an object construction (manual of jq 1.7, "Object construction").
#[derive(Drop)]
pub enum Entry<T> {
    /// `{a: f}`, `{"a": f}`, and `{a}`, `{"a"}`, `{$x}` with their values.
    Named(Key, T),
    /// `{(f): g}`, `{"a\(f)b": g}`, `{@name "a": g}`.
    Computed(T, T),
    /// `{"a\(f)b"}`: each key k that it produces, with `.[k]`.
    Own(T),
}

/// A function and its body.
#[derive(Drop)]
pub struct Function<T> {
    pub name: String,
    pub parameters: Vec<String>,
    pub body: T,
}

/// A pattern that binds variables (manual of jq 1.7, "Destructuring").
#[cycle(tree)]
#[derive(Drop)]
pub enum Pattern {
    /// `$x`.
    Whole(String),
    /// `[P, ..]`.
    Items(Vec<Pattern>),
    /// `{..}`.
    Members(Vec<Member>),
}

/// A part of an object in a pattern.
#[cycle(tree)]
#[derive(Drop)]
pub enum Member {
    /// `a: P`, `"a": P`, `(f): P`; `$k` alone is `k: $k`.
    Keyed(Box<Tree>, Pattern),
    /// `$k: P`, which binds `$k` to the part too.
    KeyedVariable(String, Pattern),
}

/// A filter. In a step (`Field` to `Iterate`) the mark says that a `?` directly after it guards that step alone.
#[cycle(tree)]
#[derive(Drop)]
pub enum Tree {
    /// `.`.
    Identity,
    /// No output, even if `empty` is redefined.
    Empty,
    Literal(Literal),
    /// `"a\(f)b"` with the format `text`, `@name "a\(f)b"`: the format, the pieces, and the characters after the last one.
    Text(Name, Vec<Piece<Tree>>, String),
    /// `@name`.
    Format(Name),
    /// `$x`.
    Variable(Name),
    /// `f.a`.
    Field(Box<Tree>, Key, bool),
    /// `f[g]`, `f."a"`.
    Index(Box<Tree>, Box<Tree>, bool),
    /// `f[g:h]`; a missing bound is null.
    Slice(Box<Tree>, Box<Tree>, Box<Tree>, bool),
    /// `f[]`.
    Iterate(Box<Tree>, bool),
    /// `f | g`.
    Pipe(Box<Tree>, Box<Tree>),
    /// `f, g`.
    Comma(Box<Tree>, Box<Tree>),
    /// `f + g`.
    Binary(Operator, Box<Tree>, Box<Tree>),
    /// `f and g`.
    And(Box<Tree>, Box<Tree>),
    /// `f or g`.
    Or(Box<Tree>, Box<Tree>),
    /// `f // g`.
    Alternative(Box<Tree>, Box<Tree>),
    /// `-f`.
    Negation(Box<Tree>),
    /// `[f]`.
    Array(Box<Tree>),
    /// `{..}`.
    Object(Vec<Entry<Tree>>),
    /// `if f then g else h end`.
    Choice(Box<Tree>, Box<Tree>, Box<Tree>),
    /// `try f catch g`.
    TryCatch(Box<Tree>, Box<Tree>),
    /// `label $x | f`.
    Label(String, Box<Tree>),
    /// `break $x`.
    Break(Name),
    /// `f as P | g`.
    BindAs(Box<Tree>, Box<Pattern>, Box<Tree>),
    /// `reduce f as P (g; h)`.
    Reduce(Box<Tree>, Box<Pattern>, Box<Tree>, Box<Tree>),
    /// `foreach f as P (g; h; i)`.
    Foreach(Box<Tree>, Box<Pattern>, Box<Tree>, Box<Tree>, Box<Tree>),
    /// `def a(b): f; g`.
    Define(Box<Function<Tree>>, Box<Tree>),
    /// `a(f; g)`.
    Call(Name, Vec<Tree>),
    /// The prelude's own function, even if it is redefined later.
    PreludeCall(Name, Vec<Tree>),
    /// `f |= g`: the prelude's own `_modify(f; g)`.
    Update(Modify, Box<[Tree; 2]>),
}

/// A tree in a box of its own.
pub fn boxed(alloc: Global, tree: Tree) -> Result<Box<Tree>, AllocError>
    ensures { IfOk result (λ b. b.value ≡ tree) }
{
    Ok(Box::new(alloc, tree)?)
}
