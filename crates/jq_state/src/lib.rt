//! The state of a filter's run: what is done next, and the environments, the frames and
//! the fork points, each in a vector by index.
//!
//! Entry: `states::State`. Tests: the commands of `tests/`.
#![tactic(auto)]

mod buckets;
pub mod environments;
pub mod forks;
pub mod frames;
pub mod inputs;
pub mod items;
pub mod names;
pub mod next;
pub mod numbers;
pub mod programs;
pub mod sought;
pub mod states;
pub mod steps;
