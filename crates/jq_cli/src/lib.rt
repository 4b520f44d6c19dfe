//! The words of the command line: the configuration that they ask for, or why they are refused.
//!
//! Entry: `config_of`. Tests: `tests/words.toml`.
#![tactic(auto)]

mod command;
mod configuring;
mod faults;
mod help;
pub mod laws;
mod taking;

pub use configuring::{Config, config_of};
pub use faults::UsageFault;
pub use help::{HELP_TEXT, VERSION_TEXT};
pub use taking::take_args;
