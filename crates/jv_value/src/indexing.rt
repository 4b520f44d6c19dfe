// The part of a value at an index.
ghost use Rattle.std.specs.Prelude.{◌≡◌, ◌<◌, ◌≤◌, option_map, map, IfSome, MatchResult, unwrap_or};
ghost use Rattle.jv_data.specs.Fails.{AnswersAs};
ghost use Rattle.jv_data.specs.Value.{null};
ghost use Rattle.jv_data.specs.Held.{members_in};
ghost use Rattle.jv_data.specs.View.{view};
ghost use Rattle.jv_value.specs.Index.{end_in, index_of, item_at, place_of, slice_of, start_in};
ghost use Rattle.jv_value.specs.Slice.{range_of};

use crate::error_texts::{cannot_index, cannot_slice};
use crate::slicing::{range_of, slice_array, slice_string};
use jv_data::{Fail, Object, Val};
use std::alloc::Global;

/// The part of a value at a key: of an object at a string, of an array at a number (a negative one counts from the
/// end), and the slice of an array or a string at an object with `start` and `end`. It is null if there is no such part,
/// and for null at a string, a number or an object (manual of jq 1.7, "Basic filters"). It raises
/// `Cannot index KIND with KEY` if the value does not accept such a key.
pub fn index(alloc: Global, value: &Val, key: &Val) -> Result<Val, Fail>
    ensures { AnswersAs result (index_of (view value.now) (view key.now)) }
{
    match (value, key) {
        (Val::Null, Val::Text(_) | Val::Num(_) | Val::Table(_)) => Ok(Val::Null),
        (Val::Table(members), Val::Text(name)) => part_or_null(members.get(name.as_str())),
        (Val::List(items), Val::Num(place)) => part_or_null(item_at(items.as_slice(), place)),
        (Val::List(items), Val::Table(bounds)) => {
            let null = Val::Null;
            let (start, end) = bounds_in(bounds, &null);
            slice_array(alloc, items.as_slice(), start, end)
        }
        (Val::Text(text), Val::Table(bounds)) => {
            let null = Val::Null;
            let (start, end) = bounds_in(bounds, &null);
            slice_string(alloc, text.as_str(), start, end)
        }
        _ => Err(cannot_index(alloc, value, key)),
    }
}

/// The slice of an array or a string from `start` to `end`, each a number or null; the slice of null is null. A negative
/// bound counts from the end, a null bound means the start or the end of the value, and bounds past the ends are clamped
/// (manual of jq 1.7, "Array/String Slice"). A string is cut by code points.
pub fn slice(alloc: Global, value: &Val, start: &Val, end: &Val) -> Result<Val, Fail>
    ensures { AnswersAs result (slice_of (view value.now) (view start.now) (view end.now)) }
{
    match value {
        Val::Null => Ok(Val::Null),
        Val::List(items) => slice_array(alloc, items.as_slice(), start, end),
        Val::Text(text) => slice_string(alloc, text.as_str(), start, end),
        _ => Err(cannot_slice(alloc, value)),
    }
}

// The start and the end of a slice, null for a missing one.
pub(crate) fn bounds_in<'a>(members: &'a Object<Val>, missing: &'a Val) -> (&'a Val, &'a Val)
    requires { view missing.now ≡ null }
    ensures start { view result.0.now ≡ start_in (members_in members.now) }
    ensures end { view result.1.now ≡ end_in (members_in members.now) }
{
    let start = members.get("start").unwrap_or(missing);
    let end = members.get("end").unwrap_or(missing);
    (start, end)
}

// The start and the end of the slice of `len` parts with these bounds as its key.
pub(crate) fn range_in(len: usize, bounds: &Object<Val>) -> Option<(usize, usize)>
    ensures value { result ≡ range_of len (start_in (members_in bounds.now)) (end_in (members_in bounds.now)) }
    ensures in_order { IfSome result (λ r. r.0 ≤ r.1) }
    ensures inside { IfSome result (λ r. r.1 ≤ len) }
{
    let null = Val::Null;
    let (start, end) = bounds_in(bounds, &null);
    range_of(len, start, end)
}

fn part_or_null(part: Option<&Val>) -> Result<Val, Fail>
    ensures { MatchResult result (λ v. view v ≡ unwrap_or (option_map (λ p. view p.now) part.entry) null) (λ f. f ≡ Fail.NoMemory) }
{
    match part {
        Some(value) => Ok(value.clone()?),
        None => Ok(Val::Null),
    }
}

fn item_at<'a>(items: &'a [Val], place: &i64) -> Option<&'a Val>
    ensures { option_map (λ v. view v.now) result ≡ item_at place.now (map view items.now) }
{
    items.get(position(items.len(), place)?)
}

// A position among `len` items, counted from the start.
pub(crate) fn position(len: usize, place: &i64) -> Option<usize>
    ensures value { result ≡ place_of len place.now }
    ensures inside { IfSome result (λ i. i < len) }
{
    let place = *place;
    let distance = place.unsigned_abs() as usize;
    if place < 0 {
        return len.checked_sub(distance);
    }
    if distance < len { Some(distance) } else { None }
}
