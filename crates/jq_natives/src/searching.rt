// Where a value occurs in another.
ghost use Rattle.std.specs.Prelude.{◌≡◌, IfOk, map, nat_eq};
ghost use Rattle.std.specs.Str.{chars};
ghost use Rattle.jv_data.specs.Fails.{AnswersAs};
ghost use Rattle.jv_data.specs.Value.{values_of};
ghost use Rattle.jv_data.specs.View.{items_view, view};
ghost use Rattle.jq_natives.specs.Answers.{count, counts, is_same};
ghost use Rattle.jq_natives.specs.Searching.{first_item, index_native_of, indices_of, last_item, places_of, rindex_native_of, sought};

use crate::characters::characters_of;
use crate::keys::count;
use crate::lists::item_or_null;
use jv_data::{Array, Fail, NoMemory, Val, raise_kinds};
use std::alloc::Global;
use std::slice;

/// `indices(part)`: where a string begins in a string (by code points), an array's items in an array, or an equal value in
/// an array; overlapping ones too. It is null for null.
pub(crate) fn indices(alloc: Global, value: &Val, part: &Val) -> Result<Val, Fail>
    ensures { AnswersAs result (indices_of (view value.now) (view part.now)) }
{
    match (value, part) {
        (Val::Null, _) => Ok(Val::Null),
        (Val::Text(whole), Val::Text(part)) => {
            Ok(text_places(alloc, whole.as_str(), part.as_str())?)
        }
        (Val::List(items), _) => Ok(item_places(alloc, items.as_slice(), sought(part))?),
        _ => Err(raise_kinds(alloc, value, part, " cannot be searched")),
    }
}

// An array is searched as its items, another value as one item.
fn sought(part: &Val) -> &[Val]
    ensures { values_of (items_view result.now) ≡ sought (view part.now) }
{
    match part {
        Val::List(items) => items.as_slice(),
        _ => slice::from_ref(part),
    }
}

/// `index(part)`: the first of the indices, or null.
pub(crate) fn index(alloc: Global, value: &Val, part: &Val) -> Result<Val, Fail>
    ensures { AnswersAs result (index_native_of (view value.now) (view part.now)) }
{
    match indices(alloc, value, part) {
        Ok(places) => Ok(first_item(&places)?),
        Err(failure) => Err(failure),
    }
}

/// `rindex(part)`: the last of the indices, or null.
pub(crate) fn rindex(alloc: Global, value: &Val, part: &Val) -> Result<Val, Fail>
    ensures { AnswersAs result (rindex_native_of (view value.now) (view part.now)) }
{
    match indices(alloc, value, part) {
        Ok(places) => Ok(last_item(&places)?),
        Err(failure) => Err(failure),
    }
}

fn text_places(alloc: Global, whole: &str, part: &str) -> Result<Val, NoMemory>
    ensures { IfOk result (λ v. view v ≡ counts (places_of nat_eq (chars part.now) (chars whole.now))) }
{
    let whole = characters_of(alloc, whole)?;
    let part = characters_of(alloc, part)?;
    let places = places(alloc, whole.as_slice(), part.as_slice())?;
    Ok(Val::List(Array::from_vec(alloc, places)?))
}

fn item_places(alloc: Global, items: &[Val], part: &[Val]) -> Result<Val, NoMemory>
    ensures { IfOk result (λ v. view v ≡ counts (places_of is_same (values_of (items_view part.now)) (values_of (items_view items.now)))) }
{
    let places = places(alloc, items, part)?;
    Ok(Val::List(Array::from_vec(alloc, places)?))
}

// The indices at which the part begins. An empty part has none.
fn places<T: PartialEq>(alloc: Global, whole: &[T], part: &[T]) -> Result<Vec<Val>, NoMemory>
    ensures { IfOk result (λ v. map view v.items ≡ map count (places_of T.eq part.now whole.now)) }
{
    let mut places = Vec::new(alloc);
    if part.is_empty() {
        return Ok(places);
    }
    for place in 0..whole.len() {
        if whole[place..].starts_with(part) {
            places.push(count(place)?)?;
        }
    }
    Ok(places)
}

fn first_item(places: &Val) -> Result<Val, NoMemory>
    ensures { IfOk result (λ v. view v ≡ first_item (view places.now)) }
{
    match places {
        Val::List(items) => item_or_null(items.as_slice().first()),
        _ => Ok(Val::Null),
    }
}

fn last_item(places: &Val) -> Result<Val, NoMemory>
    ensures { IfOk result (λ v. view v ≡ last_item (view places.now)) }
{
    match places {
        Val::List(items) => item_or_null(items.as_slice().last()),
        _ => Ok(Val::Null),
    }
}
