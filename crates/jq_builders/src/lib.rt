//! The trees of a filter, built from their parts, with the forms that the language writes out.
//!
//! Entry: the functions of `trees`, one for each form. Tests: the commands of `tests/`.
#![tactic(auto)]

pub mod definitions;
pub mod parts;
pub mod trees;
pub mod words;
