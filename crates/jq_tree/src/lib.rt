//! What a filter is: its tokens, its grammar, its names and its tree, as definitions; the text of the prelude, and the tree that its
//! `_modify` has. Laws of them, and lemmas of words, tokens and binders which other crates may cite.
//!
//! Entry: the definition `Becomes` of `specs/Filter.antt`, to which the contract of `compile` leads. Tests: the commands of
//! `tests/`.
#![tactic(auto)]

pub mod binders;
pub mod inputs;
pub mod lexing;
pub mod names;
pub mod prelude;
