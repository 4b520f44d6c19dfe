//! Resolution: the binder of each name of a filter, and the first name that nothing binds.
//!
//! Entry: `resolve`, `first_undefined`. Tests: `tests/binding.toml`, `tests/refusals.toml`.
#![tactic(auto)]

mod bindings;
mod depths;
mod programs;
mod referents;
mod resolving;
mod scope;
mod unbound;
mod uses;

pub use programs::resolve;
pub use unbound::{Undefined, first_undefined};
