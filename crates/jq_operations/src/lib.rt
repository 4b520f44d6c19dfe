//! What the transitions of the engine are made of.
//!
//! - Operations on one item: steps to its parts, operators, natives, `range` and formats (`operations` and what it uses).
//! - Transitions that several forms share: outputs that are given to the frames (`delivery`), and forms whose parts run one after
//!   the other (`arguments`, `pieces`, `entries`, `waiting`).
//! - Names and calls: what a name is bound to, and the first transitions of variables, definitions, labels, breaks and calls
//!   (`calls`, `callees`, `labels`, `values`), and whether `f |= g` calls the prelude's `_modify` (`updates`).
//!
//! Entry: `run`, `delivery::deliver`, `enter_call`. Tests: the commands of `tests/`.
#![tactic(auto)]

mod answers;
pub mod arguments;
mod bodies;
mod builtin_calls;
mod builtins;
mod call_arguments;
mod callees;
mod calls;
mod constants;
pub mod delivery;
pub mod entries;
mod halts;
mod labels;
mod named_builtins;
mod operations;
mod operators;
mod outputs;
mod parts;
pub mod pieces;
mod prelude;
mod program;
mod ranges;
mod texts;
mod updates;
mod values;
pub mod waiting;

pub use builtins::apply;
pub use callees::{Callee, find_callee};
pub use calls::{enter_call, enter_define, enter_prelude_call};
pub use constants::{entry_key, key_error, literal, member_key, path_error, slice_key};
pub use labels::{enter_break, enter_label, find_level};
pub use named_builtins::{Builtin, builtin_named};
pub use operations::run;
pub use operators::operated;
pub use outputs::Outputs;
pub use prelude::find_in_prelude;
pub use texts::{Inserted, text_in_format};
pub use updates::has_modify;
pub use values::{enter_variable, find_value};
