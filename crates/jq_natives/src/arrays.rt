// Reversed arrays.
ghost use Rattle.std.specs.Prelude.{◌≡◌, IfOk, map, reverse};
ghost use Rattle.std.specs.Str.{chars};
ghost use Rattle.jv_data.specs.Fails.{AnswersAs};
ghost use Rattle.jv_data.specs.Text.{text_of};
ghost use Rattle.jv_data.specs.View.{view};
ghost use Rattle.jq_natives.specs.Arrays.{reverse_of};

use crate::characters::characters_of;
use jv_data::{Array, Fail, Val, copies, raise_kind};
use std::alloc::{AllocError, Global};

/// `reverse`: the items or the code points from the last to the first.
pub(crate) fn reversed(alloc: Global, value: &Val) -> Result<Val, Fail>
    ensures { AnswersAs result (reverse_of (view value.now)) }
{
    match value {
        Val::Null => Ok(Val::List(Array::from_vec(alloc, Vec::new(alloc))?)),
        Val::Text(text) => Ok(Val::from_string(alloc, backwards(alloc, text.as_str())?)?),
        Val::List(items) => {
            let items = items_backwards(alloc, items.as_slice())?;
            Ok(Val::List(Array::from_vec(alloc, items)?))
        }
        _ => Err(raise_kind(alloc, value, " cannot be reversed")),
    }
}

fn items_backwards(alloc: Global, items: &[Val]) -> Result<Vec<Val>, AllocError>
    ensures { IfOk result (λ v. map view v.items ≡ reverse (map view items.now)) }
{
    let mut turned = copies(alloc, items)?;
    turned.reverse();
    Ok(turned)
}

fn backwards(alloc: Global, text: &str) -> Result<String, AllocError>
    ensures { IfOk result (λ s. text_of s ≡ reverse (chars text.now)) }
{
    let mut characters = characters_of(alloc, text)?;
    characters.reverse();
    let mut turned = String::new(alloc);
    for c in characters {
        turned.push(c)?;
    }
    Ok(turned)
}
