// Slices of arrays and strings.
ghost use Rattle.std.specs.Prelude.{◌≡◌, ◌≤◌, Err, IfOk, IfSome, length, map, slice_range};
ghost use Rattle.std.specs.Str.{chars};
ghost use Rattle.jv_data.specs.Fails.{AnswersAs};
ghost use Rattle.jv_data.specs.Text.{text_of};
ghost use Rattle.jv_data.specs.View.{view};
ghost use Rattle.jv_value.specs.Slice.{bound_of, bound_over, range_of, slice_of_array, slice_of_string};

use crate::error_texts::not_slice_bounds;
use jv_data::{Array, Fail, Val, copies};
use std::alloc::{AllocError, Global};

pub(crate) fn slice_array(alloc: Global, items: &[Val], start: &Val, end: &Val) -> Result<Val, Fail>
    ensures { AnswersAs result (slice_of_array (map view items.now) (view start.now) (view end.now)) }
{
    let Some((start, end)) = range_of(items.len(), start, end) else {
        return Err(not_slice_bounds(alloc));
    };
    let part = copies(alloc, &items[start..end])?;
    Ok(Val::List(Array::from_vec(alloc, part)?))
}

pub(crate) fn slice_string(alloc: Global, text: &str, start: &Val, end: &Val) -> Result<Val, Fail>
    ensures { AnswersAs result (slice_of_string (chars text.now) (view start.now) (view end.now)) }
{
    let Some((start, end)) = range_of(char_count(text), start, end) else {
        return Err(not_slice_bounds(alloc));
    };
    let part = chars_between(alloc, text, start, end)?;
    Ok(Val::from_string(alloc, part)?)
}

pub(crate) fn char_count(text: &str) -> usize
    ensures { result ≡ length (chars text.now) }
{
    text.chars().count()
}

fn chars_between(alloc: Global, text: &str, start: usize, end: usize) -> Result<String, AllocError>
    requires { start ≤ end }
    ensures { IfOk result (λ s. text_of s ≡ slice_range (chars text.now) start end) }
{
    text.chars().skip(start).take(end - start).collect(alloc)
}

// The start and the end of a slice of `len` parts.
pub(crate) fn range_of(len: usize, start: &Val, end: &Val) -> Option<(usize, usize)>
    ensures value { result ≡ range_of len (view start.now) (view end.now) }
    ensures in_order { IfSome result (λ r. r.0 ≤ r.1) }
    ensures inside { IfSome result (λ r. r.1 ≤ len) }
{
    let from = bound_of(len, 0, start)?;
    let to = bound_of(len, len, end)?;
    Some((from, from.max(to)))
}

fn bound_of(len: usize, missing: usize, bound: &Val) -> Option<usize>
    requires { missing ≤ len }
    ensures value { result ≡ bound_of len missing (view bound.now) }
    ensures inside { IfSome result (λ b. b ≤ len) }
{
    match bound {
        Val::Null => Some(missing),
        Val::Num(place) => Some(bound_over(len, place)),
        _ => None,
    }
}

fn bound_over(len: usize, bound: &i64) -> usize
    ensures value { result ≡ bound_over len bound.now }
    ensures inside { result ≤ len }
{
    let bound = *bound;
    let distance = bound.unsigned_abs() as usize;
    if bound >= 0 {
        distance.min(len)
    } else {
        len.saturating_sub(distance)
    }
}
