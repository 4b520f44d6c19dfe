//! Filters with at most one output, and arrays of several outputs, which run at once by recursion on the tree.
//!
//! Entry: `apply`. Tests: the commands of `tests/`, `tests/random_filters.py`.
#![tactic(auto, using(crate::proofs::Binding::known_runs), unfolding(jq_meaning::specs::Continuations::on_key, jq_meaning::specs::Continuations::on_start, jq_meaning::specs::Continuations::on_end, jq_meaning::specs::Continuations::on_right, jq_meaning::specs::Continuations::negated, jq_meaning::specs::Continuations::on_test, jq_meaning::specs::Continuations::on_error, jq_meaning::specs::Continuations::on_back, jq_meaning::specs::Continuations::on_entry, jq_meaning::specs::Continuations::on_entry_key))]

mod changing;
mod contexts;
mod finding;
mod folding;
mod gathering;
mod getting;
mod rests;
mod scopes;
mod stops;
mod updating;

pub use changing::apply;
pub use stops::Stop;
pub use updating::filters_of_update;
