// The parts that trees are built from.
use jq_ast::{Piece, Tree};

/// A branch of `if`.
#[derive(Drop)]
pub struct Branch {
    pub test: Box<Tree>,
    pub holds: Box<Tree>,
}

/// A string: each piece with the filter after it, and the last piece.
#[derive(Drop)]
pub struct Text {
    pub pieces: Vec<Piece<Tree>>,
    pub last: String,
}

/// The key of an entry, before its colon.
#[derive(Drop)]
pub enum EntryKey {
    Word(String),
    Text(Text),
    Formatted(String, Text),
}

/// The key of an entry whose value comes next.
#[derive(Drop)]
pub enum ValueKey {
    Keyed(EntryKey),
    Computed(Box<Tree>),
}

/// The key of a part of a pattern.
#[derive(Drop)]
pub enum PartKey {
    Tree(Box<Tree>),
    Variable(String),
}

/// A parameter of a function: `g`, or `$a`.
#[derive(Drop)]
pub enum Parameter {
    Filter(String),
    Value(String),
}

/// The head of a definition.
#[derive(Drop)]
pub struct Head {
    pub name: String,
    pub parameters: Vec<Parameter>,
}

/// A definition without the filter after it.
#[derive(Drop)]
pub struct Definition {
    pub head: Head,
    pub body: Box<Tree>,
}
