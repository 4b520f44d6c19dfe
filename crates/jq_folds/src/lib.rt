//! Folds over the inputs: what a filter of that form does with one input after the other, proved to be its one run.
//!
//! A filter such as `reduce inputs as $x (0; . + $x)` is a fold over its inputs: its start is the first state, each input leads
//! from one state to the next, and a filter may follow. `Pieces` says what a fold writes at its start, for each input and at its
//! end, and `Folding` which parts of a filter make these pieces. Its run is the run of the pieces one after the other. Each piece
//! is made by the machine of `jq_meaning` from a state of its own, without the other inputs.
//!
//! Entry: the law `a_fold_is_its_pieces`. Tests: none: it has only laws.
#![tactic(auto)]

pub mod laws;
