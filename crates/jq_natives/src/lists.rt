// Lists of values.
ghost use Rattle.std.specs.Prelude.{◌≡◌, IfOk, option_map, unwrap_or};
ghost use Rattle.std.specs.Option.{option_copied};
ghost use Rattle.jv_data.specs.Value.{null};
ghost use Rattle.jv_data.specs.View.{items_view, view};
ghost use Rattle.jq_natives.specs.Lists.{lists_of};
ghost use Rattle.jq_natives.specs.private.Lists.{lists_in};

use jv_data::{NoMemory, Val, copies};
use std::alloc::{AllocError, Global};

/// The items of each item, if each is an array.
pub(crate) fn lists_of(alloc: Global, items: &[Val]) -> Result<Option<Vec<Vec<Val>>>, AllocError>
    ensures { IfOk result (λ lists. option_map (λ ls. lists_in ls.items) lists ≡ lists_of (items_view items.now)) }
{
    let mut lists = Vec::new(alloc);
    for item in items {
        match item {
            Val::List(list) => lists.push(copies(alloc, list.as_slice())?)?,
            _ => return Ok(None),
        }
    }
    Ok(Some(lists))
}

/// A copy of the item, or null if there is none.
pub(crate) fn item_or_null(item: Option<&Val>) -> Result<Val, NoMemory>
    ensures { IfOk result (λ v. view v ≡ unwrap_or (option_map view (option_copied item.entry)) null) }
{
    match item {
        Some(item) => item.copy(),
        None => Ok(Val::Null),
    }
}
