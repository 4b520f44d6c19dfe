//! The natives of the language and its formats: what each returns for its input and arguments.
//!
//! `native` has the table of them: the name of each and the function that it calls. Their files are named for their subject:
//! strings (`texts`, `characters`, `reading`, `printed`), sorting by keys (`sorting`, `grouping`), arrays and objects (`arrays`,
//! `lists`, `sizes`, `containment`, `flattening`, `transposing`), `paths`, `searching`, `kinds`. What the language shares with
//! them: which values count as true (`conditions`), counts and keys as values (`keys`), errors (`errors`).
//!
//! Entry: `native_of` and `call`. Tests: `tests/natives.toml`, `jq_tests`.
#![tactic(auto)]

mod arrays;
mod characters;
mod conditions;
mod containment;
mod errors;
mod flattening;
mod grouping;
mod keys;
mod kinds;
pub mod laws;
mod lists;
mod native;
mod paths;
mod printed;
mod reading;
mod searching;
mod sizes;
mod sorting;
mod texts;
mod transposing;

pub use conditions::truth;
pub use errors::{no_such_key, raise_value};
pub use keys::{count, names, places};
pub use native::{Native, call, call_in_place, native_of};
