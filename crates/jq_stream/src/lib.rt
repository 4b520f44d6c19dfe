//! The runs of a filter over a stream of JSON texts: they write what `jq_filters` defines, and end with its status.
//!
//! A command has an input and two outputs (`streams`). A stream is read in pieces (`feeding`). The filter runs on each value
//! of it, on null, or on the array of all its values (`running`). What its runs print and report is kept in buffers and
//! written from there (`answers`). If all values are present, the same runs write into vectors (`values`), and the run on one
//! input into a piece (`pieces`).
//!
//! Entry: `Streams`, `run_stream`, `run_values`, `run_piece`. Tests: `tests/streams.toml`, `tests/options.toml`, `tests/devices.toml`.
#![tactic(auto)]

mod answers;
mod feeding;
mod gathering;
pub mod piece_laws;
mod pieces;
mod reports;
mod running;
mod streams;
mod values;

pub use gathering::{InputTexts, read_texts};
pub use pieces::run_piece;
pub use reports::report_fault;
pub use running::run_stream;
pub use streams::{Outputs, Streams};
pub use values::{Written, run_values};
