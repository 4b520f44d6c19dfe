//! The command `jql`: what it does with its words, its input and its two outputs.
//!
//! The words of the process (`words`) ask for a configuration or are refused (`commands`). The filter of a configuration is
//! compiled and run over the input (`serving`, by `jq_run`) or over the inputs of a session (`sessions`). In place of a run, the help
//! text, the version or the reason of a refusal is written (`refusals`). With `--explain`, notes follow the lines on standard error
//! (`notes`). The counts of starts are given to the command and come back (`counts`). The definitions that their contracts name are
//! in `specs/`.
//!
//! Entry: `run_words`. Tests: `tests/program.py`, `tests/options.toml`, `tests/memory.py`.
#![tactic(auto)]

mod commands;
mod counts;
mod notes;
mod refusals;
mod serving;
mod sessions;
mod words;

pub use commands::{Finished, run_words};
pub use counts::Counts;
pub use words::{arguments, report, report_misuse};
