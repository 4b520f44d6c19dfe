// A value with another at a path. A value that is not shared is changed in place; of a shared one, one level is copied.
ghost use Rattle.std.specs.Prelude.{◌≡◌, ◌<◌, ◌+◌, ◌∷◌, [], IfErr, IfOk, MatchResult, Ok, OnOk, length, map, slice_set, unwrap_or};
ghost use Rattle.std.specs.Str.{chars};
ghost use Rattle.jv_data.specs.Fails.{AnswersAs, FailsAs};
ghost use Rattle.jv_data.specs.Held.{members_in, values_in};
ghost use Rattle.jv_data.specs.Members.{put};
ghost use Rattle.jv_data.specs.Value.{Value, array, items_of, null, number, object, string};
ghost use Rattle.jv_data.specs.Text.{text_of};
ghost use Rattle.jv_data.specs.View.{view};
ghost use Rattle.jv_value.specs.private.Frames.{TakesOut, put_into, put_into_all};
ghost use Rattle.jv_value.specs.Index.{item_at, slice_key};
ghost use Rattle.jv_value.specs.SetPath.{filled, put_between, put_item, setpath_of};

use crate::error_texts::{
    cannot_index, index_before_start, index_too_large, not_slice_bounds, slice_needs_array,
};
use crate::indexing::{bounds_in, position};
use crate::slicing::{range_of, slice_string};
use jv_data::{Array, Fail, Object, Val};
use std::alloc::{AllocError, Global};

// The greatest index at which an item can be put.
const GREATEST_INDEX: i64 = 16_777_215;

// A value whose part at a key was taken out, and is to be put back.
#[derive(Drop)]
pub enum Frame {
    // The other members, and the key.
    Member(Object<Val>, String),
    // The items, and the index of the one that was taken out.
    Item(Vec<Val>, i64),
    // The items before the slice, and those after it.
    Slice(Vec<Val>, Vec<Val>),
    // The error of a value that accepts no part at the key.
    Sealed(Val),
}

/// The value with `new` at the path: the part at each key in turn, and null for a missing part. Null becomes an object or
/// an array as the key requires, an array is filled with null up to an index past its end, and a slice is replaced by the
/// items of an array (manual of jq 1.7, "setpath(PATHS; VALUE)"). A value that is not shared is changed in place.
pub fn setpath(alloc: Global, value: Val, path: &[Val], new: Val) -> Result<Val, Fail>
    ensures { AnswersAs result (setpath_of (view value) (map view path.now) (view new)) }
{
    if let Some((key, rest)) = path.split_first() {
        if rest.is_empty() {
            return set_part(alloc, value, key, new);
        }
    }
    let mut part = value;
    let mut frames = Vec::new(alloc);
    for key in path {
        let (inner, frame) = take_part(alloc, part, key)?;
        frames.push(frame)?;
        part = inner;
    }
    put_all_back(alloc, frames, new)
}

// The value with `new` at one key.
fn set_part(alloc: Global, value: Val, key: &Val, new: Val) -> Result<Val, Fail>
    ensures { AnswersAs result (setpath_of (view value) (view key.now ∷ []) (view new)) }
{
    let (_old, frame) = take_part(alloc, value, key)?;
    put_back(alloc, frame, new)
}

// The frames' parts put back, from the last frame to the first.
fn put_all_back(alloc: Global, frames: Vec<Frame>, part: Val) -> Result<Val, Fail>
    ensures { AnswersAs result (put_into_all frames.items (view part)) }
{
    let mut frames = frames;
    let mut part = part;
    while let Some(frame) = frames.pop() {
        part = put_back(alloc, frame, part)?;
    }
    Ok(part)
}

fn take_part(alloc: Global, value: Val, key: &Val) -> Result<(Val, Frame), Fail>
    ensures { TakesOut (view value) (view key.now) result }
{
    match key {
        Val::Text(name) => take_member(alloc, value, key, name.as_str()),
        Val::Num(place) => take_item(alloc, value, key, place),
        Val::Table(bounds) => take_slice(alloc, value, key, bounds),
        _ => Err(cannot_index(alloc, &value, key)),
    }
}

fn take_member(alloc: Global, value: Val, key: &Val, name: &str) -> Result<(Val, Frame), Fail>
    requires { view key.now ≡ string (chars name.now) }
    ensures { TakesOut (view value) (view key.now) result }
{
    match &value {
        Val::Null => {
            let members = Object::new(alloc)?;
            let name = String::from_str(alloc, name)?;
            Ok((Val::Null, Frame::Member(members, name)))
        }
        Val::Table(_) => {
            let mut members = value.into_table();
            let part = members.remove(name)?.unwrap_or(Val::Null);
            let name = String::from_str(alloc, name)?;
            Ok((part, Frame::Member(members, name)))
        }
        other => Err(cannot_index(alloc, other, key)),
    }
}

fn take_item(alloc: Global, value: Val, key: &Val, place: &i64) -> Result<(Val, Frame), Fail>
    requires { view key.now ≡ number place.now }
    ensures { TakesOut (view value) (view key.now) result }
{
    match &value {
        Val::Null => Ok((Val::Null, Frame::Item(Vec::new(alloc), *place))),
        Val::List(_) => {
            let mut items = value.into_list().into_values()?;
            let part = take_at(&mut items, place);
            Ok((part, Frame::Item(items, *place)))
        }
        other => Err(cannot_index(alloc, other, key)),
    }
}

// Takes the item at an index and leaves null there. It is null if there is no such item.
fn take_at(items: &mut Vec<Val>, place: &i64) -> Val
    ensures value { view result ≡ unwrap_or (item_at place.now (map view items.old.items)) null }
    ensures back { (p : Value) → put_item place.now p (map view items.new.items) ≡ put_item place.now p (map view items.old.items) }
{
    match position(items.len(), place) {
        Some(index) => std::mem::replace(&mut items[index], Val::Null),
        None => Val::Null,
    }
}

fn take_slice(
    alloc: Global,
    value: Val,
    key: &Val,
    bounds: &Object<Val>,
) -> Result<(Val, Frame), Fail>
    requires { view key.now ≡ object (members_in bounds.now) }
    ensures { TakesOut (view value) (view key.now) result }
{
    let null = Val::Null;
    let (start, end) = bounds_in(bounds, &null);
    match &value {
        Val::Null => take_empty_slice(alloc, start, end),
        Val::List(_) => take_items(alloc, value.into_list(), start, end),
        Val::Text(text) => {
            let part = slice_string(alloc, text.as_str(), start, end)?;
            match cannot_index(alloc, &value, key) {
                Fail::Raised(error) => Ok((part, Frame::Sealed(error))),
                Fail::NoMemory => Err(Fail::NoMemory),
            }
        }
        other => Err(cannot_index(alloc, other, key)),
    }
}

fn take_empty_slice(alloc: Global, start: &Val, end: &Val) -> Result<(Val, Frame), Fail>
    ensures { TakesOut null (slice_key (view start.now) (view end.now)) result }
{
    match range_of(0, start, end) {
        Some(_) => Ok((Val::Null, Frame::Slice(Vec::new(alloc), Vec::new(alloc)))),
        None => Err(not_slice_bounds(alloc)),
    }
}

fn take_items(
    alloc: Global,
    items: Array<Val>,
    start: &Val,
    end: &Val,
) -> Result<(Val, Frame), Fail>
    ensures { TakesOut (array (items_of (values_in items))) (slice_key (view start.now) (view end.now)) result }
{
    let Some((from, to)) = range_of(items.len(), start, end) else {
        return Err(not_slice_bounds(alloc));
    };
    let mut front = items.into_values()?;
    let back = front.split_off(to)?;
    let part = front.split_off(from)?;
    Ok((
        Val::List(Array::from_vec(alloc, part)?),
        Frame::Slice(front, back),
    ))
}

fn put_back(alloc: Global, frame: Frame, part: Val) -> Result<Val, Fail>
    ensures { AnswersAs result (put_into frame (view part)) }
{
    match frame {
        Frame::Member(members, name) => put_member(members, name, part),
        Frame::Item(items, place) => put_item(alloc, items, place, part),
        Frame::Slice(front, back) => put_items(alloc, front, back, part),
        Frame::Sealed(error) => Err(Fail::Raised(error)),
    }
}

fn put_member(mut members: Object<Val>, name: String, part: Val) -> Result<Val, Fail>
    ensures { MatchResult result (λ v. view v ≡ object (put (text_of name) (view part) (members_in members))) (λ f. f ≡ Fail.NoMemory) }
{
    members.insert(name, part)?;
    Ok(Val::Table(members))
}

fn put_item(alloc: Global, mut items: Vec<Val>, place: i64, part: Val) -> Result<Val, Fail>
    ensures { AnswersAs result (put_item place (view part) (map view items.items)) }
{
    let index = make_room(alloc, &mut items, place)?;
    items[index] = part;
    Ok(Val::List(Array::from_vec(alloc, items)?))
}

// The position for an item at this index, after filling the array up to it.
fn make_room(alloc: Global, items: &mut Vec<Val>, place: i64) -> Result<usize, Fail>
    ensures inside { IfOk result (λ i. i < length items.new.items) }
    ensures room { IfOk result (λ i. (p : Value) → put_item place p (map view items.old.items) ≡ Ok (array (items_of (slice_set (map view items.new.items) i p)))) }
    ensures fails { IfErr result (λ f. (p : Value) → FailsAs f (put_item place p (map view items.old.items))) }
{
    if place < 0 {
        return match position(items.len(), &place) {
            Some(index) => Ok(index),
            None => Err(index_before_start(alloc)),
        };
    }
    if place > GREATEST_INDEX {
        return Err(index_too_large(alloc));
    }
    let index = place as usize;
    fill(items, index)?;
    Ok(index)
}

// Appends nulls until there is an item at the index.
fn fill(items: &mut Vec<Val>, index: usize) -> Result<(), AllocError>
    ensures items { OnOk result (map view items.new.items ≡ filled (index + 1) (map view items.old.items)) }
    ensures inside { OnOk result (index < length items.new.items) }
{
    while items.len() <= index {
        items.push(Val::Null)?;
    }
    Ok(())
}

fn put_items(alloc: Global, mut front: Vec<Val>, mut back: Vec<Val>, part: Val) -> Result<Val, Fail>
    ensures { AnswersAs result (put_between (map view front.items) (view part) (map view back.items)) }
{
    let Val::List(_) = &part else {
        return Err(slice_needs_array(alloc));
    };
    let mut items = part.into_list().into_values()?;
    front.append(&mut items)?;
    front.append(&mut back)?;
    Ok(Val::List(Array::from_vec(alloc, front)?))
}
