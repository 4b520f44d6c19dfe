//! Heuristics: which filters are run at once, and on which values a copy pays.
//!
//! They only decide how a filter is run: no contract depends on them, and no function here has one. So they are apart.
//!
//! Entry: `is_tried`, `is_small`, `pays_for_copy`. Tests: the commands of `tests/`; how fast it is shows `bench/`.
#![tactic(auto)]

mod copies;
mod forms;

pub use copies::{is_cheap, pays_for_copy};
pub use forms::{goes_over_all, is_simple, is_small, is_tried, is_update};
