//! Pages: a list of inputs that is edited, with the piece of output that a fold writes for each.
//!
//! Entry: `Pages`, `Steps`. Tests: `jq_pages_tests`.
#![tactic(auto)]

mod applying;
mod building;
mod changes;
mod cutting;
mod dividing;
mod editing;
mod following;
mod grouping;
mod kept;
mod laws;
mod listing;
mod lists;
mod merging;
mod moving;
mod page;
mod pages;
mod pieces;
mod placing;
mod refusals;
mod rooms;
mod running;
mod splices;
mod steps;
mod summing;
mod totals;

pub use changes::{Change, Edited, Moved};
pub use laws::{totals_count_bytes_and_failures, totals_have_the_first_halt_and_the_last_output};
pub use pages::{MOST_INPUTS, Pages};
pub use pieces::{Last, Piece};
pub use refusals::{NotStarted, Refusal};
pub use splices::Splice;
pub use steps::Steps;
pub use totals::Totals;
