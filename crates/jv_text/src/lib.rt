//! JSON texts: the values of a stream of texts, fed in pieces of any size, and printing values.
//!
//! Entry: `Cutter`, `read_text`, `print`, `Printer`, `format`. Tests: `tests/reading.toml`, `tests/values.toml`, `jv_tests`.
#![tactic(auto)]

mod cutting;
mod faults;
mod formats;
mod nested;
mod numbers;
mod pieces;
mod places;
mod printing;
mod reading;
mod sinks;
mod texts;
mod tokens;

pub use cutting::{Cutter, given_values_come_first};
pub use faults::Fault;
pub use formats::{Format, format, format_of};
pub use pieces::Printer;
pub use printing::{Style, print, to_compact_string, tostring};
pub use texts::read_text;
