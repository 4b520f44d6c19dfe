//! What a JSON value is (`specs/Value.antt`), and values in the code: shared containers, copying, comparing, kinds, and the errors that are
//! texts.
//!
//! A value is `null`, a boolean, a whole number of 64 bits, a string, an array or an object. Strings, arrays and
//! objects are shared by reference count: a copy takes no memory, and a change of a shared value copies one level.
//! Contracts speak of what a value means, `view` of `specs/View.antt`, which does not depend on sharing.
//!
//! Entry: `Val` and its methods, `order`, `same`. Tests: `jv_tests`.
#![tactic(auto)]

mod comparing;
mod containers;
mod copying;
mod dropping;
mod failures;
mod kinds;
pub mod laws;
mod ordering;
mod pairs;
mod raising;
mod values;

pub use containers::{Array, Draft, Iter, KnownNames, Object, Place, SharedText};
pub use copying::copies;
pub use failures::{Fail, NoMemory};
pub use kinds::Kind;
pub use ordering::{order, same};
pub use raising::{
    raise, raise_kind, raise_kinds, raise_string, raise_with_kind, raise_with_kinds,
};
pub use values::{Val, kind, kind_name};
