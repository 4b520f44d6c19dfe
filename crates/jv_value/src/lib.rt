//! The parts of JSON values at an index, in a slice and at a path, and values with a part changed.
//!
//! The values themselves, their copies and their order are those of `jv_data`.
//!
//! Entry: `index`, `slice`, `items`, `getpath`, `setpath`, `delpaths`. Tests: `tests/paths_and_updates.toml`, `jv_tests`.
#![tactic(auto)]

mod deleting;
mod error_texts;
mod finding;
mod getting;
mod grouping;
mod indexing;
pub mod laws;
mod locations;
mod parts;
mod removing;
mod setting;
mod slicing;

pub use deleting::delpaths;
pub use getting::getpath;
pub use indexing::{index, slice};
pub use parts::items;
pub use setting::setpath;
