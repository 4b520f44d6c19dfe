//! Where a filter calls `inputs`, whether it calls a function that halts, and which plan it has: a run for each input, a fold
//! over the inputs, or one other run.
//!
//! Entry: `plan_of`, `inputs_in_place`, `reads_inputs`, `may_halt`. Tests: `tests/inputs.toml`, `jq_tests`.
#![tactic(auto)]

mod halting;
mod hidden;
mod plans;
mod surveys;
mod walking;

pub use halting::may_halt;
pub use plans::{Plan, inputs_in_place, plan_of, reads_inputs};
