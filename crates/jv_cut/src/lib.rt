//! Cutting a stream of bytes, fed in pieces of any size, into JSON texts.
//!
//! Entry: `Splitter`, `first_text`. Tests: `tests/reading.toml`, `tests/streams.toml`.
#![tactic(auto)]

pub mod laws;
mod marks;
mod nesting;
mod scanning;
mod splitting;
mod whole;

pub use nesting::{Quote, is_bare};
pub use splitting::{CutFault, Splitter};
pub use whole::first_text;
