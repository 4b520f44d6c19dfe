//! How often a filter was started: every engine takes a `Start`, and only a count of starts gives one.
//!
//! Entry: `Starts::started`. Tests: `jq_tests`.
#![tactic(auto)]

pub mod laws;
mod starts;

pub use starts::{Start, Starts};
