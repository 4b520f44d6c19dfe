// Flattened arrays.
ghost use Rattle.std.specs.Prelude.{◌≡◌, ◌<◌, IfOk, MatchOption, map};
ghost use Rattle.jv_data.specs.Fails.{AnswersAs};
ghost use Rattle.jv_data.specs.Value.{array};
ghost use Rattle.jv_data.specs.View.{items_view, view};
ghost use Rattle.jq_natives.specs.Arrays.{flatten_of, flattened, opened};
ghost use Rattle.jq_natives.specs.private.Flattened.{StaysWhole};

use jv_data::{Array, Fail, Val, raise};
use jv_value::items;
use std::alloc::{AllocError, Global};

// The remaining items of a list, and how many levels of the arrays in it are to be flattened.
#[derive(Clone, Copy)]
struct Level<'a> {
    items: &'a [Val],
    levels: u64,
}

/// `flatten(depth)`: the items of an array or the values of an object, with the arrays among them flattened to a depth.
pub(crate) fn flattened(alloc: Global, value: &Val, depth: &Val) -> Result<Val, Fail>
    ensures { AnswersAs result (flatten_of (view value.now) (view depth.now)) }
{
    match depth {
        Val::Num(levels) => match u64::try_from(*levels) {
            Ok(levels) => opened_levels(alloc, value, levels),
            Err(_) => Err(raise(alloc, "flatten depth must not be negative")),
        },
        _ => Err(raise(alloc, "flatten depth must be a number")),
    }
}

fn opened_levels(alloc: Global, value: &Val, levels: u64) -> Result<Val, Fail>
    ensures { AnswersAs result (flattened levels (view value.now)) }
{
    match items(alloc, value) {
        Ok(items) => {
            let flat = opened(alloc, items.as_slice(), levels)?;
            Ok(Val::List(Array::from_vec(alloc, flat)?))
        }
        Err(failure) => Err(failure),
    }
}

// The items in order. The arrays that are being read are in a list, the innermost last.
fn opened(alloc: Global, items: &[Val], levels: u64) -> Result<Vec<Val>, AllocError>
    ensures { IfOk result (λ v. map view v.items ≡ opened levels (items_view items.now)) }
{
    let mut flat = Vec::new(alloc);
    let mut open = vec![in alloc; Level { items, levels }]?;
    while let Some(level) = open.pop() {
        let Some((first, items)) = level.items.split_first() else {
            continue;
        };
        open.push(Level {
            items,
            levels: level.levels,
        })?;
        match opened_items(first, level.levels) {
            Some(items) => open.push(Level {
                items,
                levels: level.levels - 1,
            })?,
            None => flat.push(first.clone()?)?,
        }
    }
    Ok(flat)
}

// The items of an array that is to be flattened.
fn opened_items(value: &Val, levels: u64) -> Option<&[Val]>
    ensures { MatchOption result
        (StaysWhole levels (view value.now))
        (λ items. (0 < levels) × (view value.now ≡ array (items_view items.now))) }
{
    if levels == 0 {
        return None;
    }
    match value {
        Val::List(items) => Some(items.as_slice()),
        _ => None,
    }
}
