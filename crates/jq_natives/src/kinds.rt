// The kind of a value as a word, and its negation.
ghost use Rattle.std.specs.Prelude.{◌≡◌, IfOk, Ok};
ghost use Rattle.jv_data.specs.View.{view};
ghost use Rattle.jq_natives.specs.Kinds.{type_of, not_of};

use crate::conditions::truth;
use jv_data::{NoMemory, Val, kind_name};
use std::alloc::Global;

/// `type`.
pub(crate) fn type_name(alloc: Global, value: &Val) -> Result<Val, NoMemory>
    ensures { IfOk result (λ v. type_of (view value.now) ≡ Ok (view v)) }
{
    Ok(Val::from_text(alloc, kind_name(value))?)
}

/// `not`.
pub(crate) fn negation(value: &Val) -> Val
    ensures { not_of (view value.now) ≡ Ok (view result) }
{
    Val::Bool(!truth(value))
}
