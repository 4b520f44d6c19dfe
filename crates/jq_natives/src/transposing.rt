// Transposed arrays.
ghost use Rattle.std.specs.Prelude.{◌≡◌, IfOk};
ghost use Rattle.jv_data.specs.Fails.{AnswersAs, FailsAs};
ghost use Rattle.jv_data.specs.View.{view};
ghost use Rattle.jq_natives.specs.Arrays.{column, columns, longest, transpose_error, transpose_of};
ghost use Rattle.jq_natives.specs.private.Lists.{lists_in};

use crate::lists::{item_or_null, lists_of};
use jv_data::{Array, Fail, NoMemory, Val, raise};
use std::alloc::Global;

/// `transpose`: the columns of an array of arrays, with null where one is too short.
pub(crate) fn transposed(alloc: Global, value: &Val) -> Result<Val, Fail>
    ensures { AnswersAs result (transpose_of (view value.now)) }
{
    let Val::List(items) = value else {
        return Err(not_lists(alloc));
    };
    match lists_of(alloc, items.as_slice())? {
        Some(lists) => Ok(columns(alloc, lists.as_slice())?),
        None => Err(not_lists(alloc)),
    }
}

fn not_lists(alloc: Global) -> Fail
    ensures { FailsAs result transpose_error }
{
    raise(alloc, "transpose needs an array of arrays")
}

fn columns(alloc: Global, lists: &[Vec<Val>]) -> Result<Val, NoMemory>
    ensures { IfOk result (λ v. view v ≡ columns (lists_in lists.now)) }
{
    let mut columns = Vec::new(alloc);
    for place in 0..longest(lists) {
        columns.push(column(alloc, lists, place)?)?;
    }
    Ok(Val::List(Array::from_vec(alloc, columns)?))
}

fn column(alloc: Global, lists: &[Vec<Val>], place: usize) -> Result<Val, NoMemory>
    ensures { IfOk result (λ v. view v ≡ column (lists_in lists.now) place) }
{
    let mut items = Vec::with_capacity(alloc, lists.len())?;
    for list in lists {
        items.push(item_or_null(list.get(place))?)?;
    }
    Ok(Val::List(Array::from_vec(alloc, items)?))
}

fn longest(lists: &[Vec<Val>]) -> usize
    ensures { result ≡ longest (lists_in lists.now) }
{
    let mut longest = 0;
    for list in lists {
        longest = longest.max(list.len());
    }
    longest
}
