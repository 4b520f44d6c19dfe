//! The engine: it runs a filter on an input and returns one output after the other.
//!
//! Entry: `Engine::start`, `Engine::next`. Tests: the commands of `tests/`, `tests/random_filters.py`.
#![tactic(auto)]

mod apart;
mod at_once;
mod bindings;
mod bodies;
mod doing;
mod engines;
mod folds;
mod giving;
mod guards;
mod operators;
mod parts;
mod passing;
mod ranges;
mod running;
mod simple;
mod stepping;
mod tails;
mod through;
mod turns;
mod updating;

pub use engines::Engine;
pub use turns::Turn;
