//! A run without a session: a filter's text is compiled and run over a reader, or the reason why it is refused is written.
//!
//! `running` compiles a filter and runs it, `refusals` writes why it is refused, and with `--explain` a note on it comes after that line
//! (`notes`, `builtins`). The definitions that their contracts name are in `specs/`. It is apart from `jq_app` so that it is proved
//! beside sessions.
//!
//! Entry: `run_filter`, `run_compiled`. Tests: `tests/program.py`, `tests/options.toml`, `tests/explain.toml`.
#![tactic(auto)]

mod builtins;
mod notes;
mod refusals;
mod running;

pub use notes::put_note;
pub use refusals::{refuse, refuse_filter};
pub use running::{run_compiled, run_filter};
