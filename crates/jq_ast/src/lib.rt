//! The tree of a filter: the parser makes it, the resolver completes it, and the engine runs it.
//!
//! Contracts see a tree as `named` (the definition's tree, with the names alone) and as `bound` (with the binder of each
//! name). Both are folds over the levels of a tree, and the checker finds their equations for one level by itself.
//!
//! To make a tree: keep its parts in their boxes and call `boxed(alloc, Tree::Pipe(first, second))` (a `Tree` by value has a
//! large drop at each exit of a function). To walk one: functions of one `#[cycle(name)]` over `&Tree`, `&Pattern`, `&Member`
//! and the lists of them, with a `match`; the checker finds the depth as the measure. To change one in place: each variant
//! has an arm of its own (the checker does not support an or-pattern that binds a `&mut`), and calls the function on the
//! parts directly.
//!
//! Entry: `Tree`. Tests: the commands of `tests/`.
#![tactic(auto)]

mod core_names;
mod leaves;
mod names;
mod operators;
mod tree;

pub use core_names::core_of;
pub use leaves::{Key, Literal};
pub use names::{Core, Modify, Name, Referent};
pub use operators::Operator;
pub use tree::{Entry, Function, Member, Pattern, Piece, Tree, boxed};
