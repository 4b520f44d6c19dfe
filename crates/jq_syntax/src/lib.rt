//! The compiler: from the text of a filter to a program, or to the refusal that the language defines for it.
//!
//! `options` are those of one command. `prelude_laws` shows that the prelude is accepted, with the tree that the prover computes
//! from its text.
//!
//! Entry: `compile`; `place_of_syntax_error` says where a text is refused for its syntax. Tests: `tests/refusals.toml`, `jq_tests`.
#![tactic(auto)]

mod compiling;
mod faults;
pub mod laws;
mod limits;
mod options;
mod prelude;
pub mod prelude_laws;
mod program;
mod reading;
mod syntax_places;

pub use compiling::compile;
pub use faults::CompileFault;
pub use options::Options;
pub use program::Program;
pub use syntax_places::{SyntaxPlace, place_of_syntax_error};
