//! The tokens of a filter and its tree: tokens have at most one tree, and `parse` finds it.
//!
//! Entry: `parse`; `place_of_refusal` says where tokens that are no filter are refused. Tests: `tests/refusals.toml`.
#![tactic(auto)]

mod definitions;
mod entries;
mod faults;
mod forms;
pub mod laws;
mod parser;
mod parsing;
mod patterns;
mod phrases;
mod postfix;
mod tables;
mod turns;
mod waiting;

pub use faults::ParseFault;
pub use parsing::{parse, place_of_refusal};
