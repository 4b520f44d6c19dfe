//! The operators of jq on values: `+ - * / %` and unary minus (manual of jq 1.7, "Builtin operators and functions").
//!
//! Entry: `add`, `sub`, `mul`, `div`, `rem`, `neg`, `split`. Tests: `tests/operators.toml`, `jv_tests`.
#![tactic(auto)]

mod arrays;
mod errors;
pub mod laws;
mod numbers;
mod objects;
mod operators;
mod splitting;
mod strings;

pub use operators::{add, add_to, div, mul, neg, rem, sub};
pub use splitting::split;
