//! Laws of the meaning: equations that hold for all filters, and runs at a call depth of 0, which no command can show since
//! `--depth` begins at 1. No crate depends on it.
//!
//! Entry: the laws of `filters` and `depth`. Tests: none: it has only laws.
#![tactic(auto)]

pub mod depth;
pub mod filters;
