//! The tokens of a filter's text, or where the first bad one begins.
//!
//! Entry: `lex`; `place_of_token` says where a token begins, and `is_name` whether a text is a name. Tests: `tests/refusals.toml`, `jq_tests`.
#![tactic(auto)]

mod faults;
mod lexing;
mod names;
mod numbers;
mod places;
mod spellings;
mod strings;
mod tokens;
mod words;

pub use faults::LexFault;
pub use lexing::{lex, place_of_token};
pub use names::is_name;
pub use spellings::keyword_text;
pub use tokens::{Keyword, Natural, Symbol, Token};
