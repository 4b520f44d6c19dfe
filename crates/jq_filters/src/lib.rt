//! A compiled filter: what it is run with, and what its runs mean.
//!
//! A filter's text is compiled into its tree and the bindings of its program, in the form that the engine takes (`filters`, `programs`),
//! and a `Runner` starts it on a value (`runner`). `settings` says which runs a command makes. `specs/Outcomes.antt` defines what the runs
//! over a stream write and with which status they end, `specs/Present.antt` the same where all values are present. It is apart from
//! `jq_stream`, which makes these runs, since `jq_fold_steps` stands on it alone.
//!
//! Entry: `Filter`, `Runner`. Tests: `tests/options.toml`, `jq_tests`.
#![tactic(auto)]

mod filters;
pub mod laws;
mod programs;
mod runner;
mod settings;

pub use filters::Filter;
pub use runner::{Runner, no_inputs};
pub use settings::{Mode, Settings};
