// The parts of a value.
ghost use Rattle.std.specs.Prelude.{◌≡◌, IfOk, MatchResult, Ok, map};
ghost use Rattle.jv_data.specs.Fails.{FailsAs};
ghost use Rattle.jv_data.specs.Held.{members_in};
ghost use Rattle.jv_data.specs.Value.{entries_of};
ghost use Rattle.jv_data.specs.View.{view};
ghost use Rattle.jv_value.specs.Parts.{parts_of};

use crate::error_texts::cannot_iterate;
use jv_data::{Fail, Object, Val, copies};
use std::alloc::{AllocError, Global};

/// An array's items, or an object's values in the order of their keys (manual of jq 1.7, "Array/Object Value Iterator").
/// It raises `Cannot iterate over KIND` for any other value.
pub fn items(alloc: Global, value: &Val) -> Result<Vec<Val>, Fail>
    ensures { MatchResult result (λ v. parts_of (view value.now) ≡ Ok (map view v.items)) (λ f. FailsAs f (parts_of (view value.now))) }
{
    match value {
        Val::List(items) => Ok(copies(alloc, items.as_slice())?),
        Val::Table(members) => Ok(member_copies(alloc, members)?),
        _ => Err(cannot_iterate(alloc, value)),
    }
}

fn member_copies(alloc: Global, members: &Object<Val>) -> Result<Vec<Val>, AllocError>
    ensures { IfOk result (λ v. map view v.items ≡ map (λ e. e.1) (entries_of (members_in members.now))) }
{
    let mut copied = Vec::with_capacity(alloc, members.len())?;
    for (_, value) in members.iter() {
        copied.push(value.clone()?)?;
    }
    Ok(copied)
}
