//! The steps of a fold over the inputs: each is a run of the engine from a state of its own.
//!
//! A filter such as `reduce inputs as $x (0; . + $x)` is a fold over its inputs. `FoldSteps` makes its pieces one after the other,
//! so that `jq_pages` can keep them. The parts of the fold are found in the filter's tree (`placing`). A piece is begun with the
//! state of the fold in a fork point (`taking`, `starting`), and its outputs are kept in a piece (`collecting`): the last one is the
//! next state.
//!
//! Entry: `FoldSteps`. Tests: `jq_tests`, `tests/session.toml`.
#![tactic(auto)]

mod collecting;
mod entering;
mod fold_steps;
pub mod laws;
mod making;
mod pieces;
mod placing;
mod starting;
mod taking;

pub use fold_steps::{FoldState, FoldSteps};
