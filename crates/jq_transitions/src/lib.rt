//! The transitions of the machine on the engine's state, each as `step` makes it.
//!
//! - `evaluating`: a filter is entered, what each form does first.
//! - `receiving`: an item is given to a frame, and patterns are matched.
//! - `backtracking`: a run goes back to the newest fork point, an error reaches its handler, and a break its label.
//!
//! Entry: `enter`, `receive`, `resume_newest`, `raise`, `leave`. Tests: `tests/control.toml`, `tests/functions.toml`, `tests/folds.toml`,
//! `tests/binding.toml`.
#![tactic(auto)]

mod backtracking;
mod evaluating;
mod receiving;

pub use backtracking::handlers::raise;
pub use backtracking::labels::leave;
pub use backtracking::outcomes::{Ending, Progress};
pub use backtracking::resuming::{go_back_once, resume_newest};
pub use evaluating::enter;
pub use receiving::patterns::{match_later, match_pattern};
pub use receiving::receive;
