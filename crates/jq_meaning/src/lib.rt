//! What a filter means, and a machine that runs it step by step.
//!
//! - The meaning of a filter is a run, which is a list of outputs and an ending, for each tree, input and environment
//!   (`meaning` of `specs/Meaning.antt`).
//! - An engine makes no such lists. It has a continuation (the frames that wait for an item), a stack of fork points (what is run when it
//!   goes back), and cells in the fork points for what changes during a run. `State` of `specs/machine/` is all this as plain data, and
//!   `step` is one transition of it. The engine's code is proved against `step` alone: the vectors of an engine represent a state, and
//!   each of its functions does what `step` does with that state. That the machine computes the meaning is proved here, once (`machine`).
//! - What `f |= g` does, the run of the prelude's `_modify`, in direct terms (`updates`).
//! - The binding at a name's place in an environment is the one that the meaning finds by name (`bindings`).
//!
//! Entry: the definition `meaning`, and the law `the_machine_makes_the_run_of_a_filter`. Tests: the commands of `tests/`.
#![tactic(auto)]

pub mod bindings;
pub mod laws;
pub mod machine;
pub mod updates;
