//! A session: a filter over a list of inputs that is edited. After each edit the output, the errors and the status are those
//! of runs from scratch on the present inputs.
//!
//! What the filter writes is kept input by input (`paged`) if it runs on each input, or if it folds its inputs. If it runs on each
//! input and calls no function that halts, an edit runs the edited input alone (`each`). Else it runs the steps up to a page after
//! which the state is unchanged: the state of the fold (`FoldSteps`), or whether a run halted (`until_halt`). A filter that runs once
//! and is no fold is run again (`whole`).
//!
//! Entry: `Session`. Tests: `tests/session.toml`, `tests/random_scripts.py`, `jq_tests`.
#![tactic(auto)]

mod each;
mod kept;
pub mod laws;
mod listing;
mod paged;
mod paging;
mod plans;
mod refusals;
mod sessions;
mod splices;
mod statuses;
mod until_halt;
mod whole;
mod writing;

pub use jq_pages::{MOST_INPUTS, Splice};
pub use refusals::{NotStarted, Refusal};
pub use sessions::Session;
pub use splices::Follow;
