// How large a value is, and which keys it has.
ghost use Rattle.std.specs.Prelude.{◌≡◌, ◌&&◌, pos, length, nat_abs, int_le, int_lt};
ghost use Rattle.std.specs.Str.{chars};
ghost use Rattle.jv_arith.specs.Numbers.{in_range};
ghost use Rattle.jv_data.specs.Fails.{AnswersAs};
ghost use Rattle.jv_data.specs.View.{view};
ghost use Rattle.jq_natives.specs.Sizes.{length_of, utf8bytelength_of, keys_of, has_of};

use crate::errors::no_such_key;
use crate::keys::{count, names, places};
use jv_arith::neg;
use jv_data::{Array, Fail, Val, raise, raise_kind};
use std::alloc::Global;

/// `length`: 0 for null, the absolute value of a number, else the number of code points, items or members.
pub(crate) fn length(alloc: Global, value: &Val) -> Result<Val, Fail>
    ensures { AnswersAs result (length_of (view value.now)) }
{
    match value {
        Val::Null => Ok(Val::Num(0)),
        Val::Bool(_) => Err(raise(alloc, "boolean has no length")),
        Val::Num(number) => absolute(alloc, *number),
        Val::Text(text) => Ok(count(char_count(text.as_str()))?),
        Val::List(items) => Ok(count(items.len())?),
        Val::Table(members) => Ok(count(members.len())?),
    }
}

/// `utf8bytelength`: the number of bytes of a string in UTF-8.
pub(crate) fn utf8bytelength(alloc: Global, value: &Val) -> Result<Val, Fail>
    ensures { AnswersAs result (utf8bytelength_of (view value.now)) }
{
    match value {
        Val::Text(text) => Ok(count(text.as_str().len())?),
        _ => Err(raise_kind(alloc, value, " has no UTF-8 length")),
    }
}

/// `keys`: an object's keys in order, or the indices of an array.
pub(crate) fn keys(alloc: Global, value: &Val) -> Result<Val, Fail>
    ensures { AnswersAs result (keys_of (view value.now)) }
{
    match value {
        Val::Table(members) => {
            let names = names(alloc, members)?;
            Ok(Val::List(Array::from_vec(alloc, names)?))
        }
        Val::List(items) => {
            let places = places(alloc, items.len())?;
            Ok(Val::List(Array::from_vec(alloc, places)?))
        }
        _ => Err(raise_kind(alloc, value, " has no keys")),
    }
}

/// `has(key)`: whether an object has a member of this name, or an array an item at this index.
pub(crate) fn has(alloc: Global, value: &Val, key: &Val) -> Result<Val, Fail>
    ensures { AnswersAs result (has_of (view value.now) (view key.now)) }
{
    match (value, key) {
        (Val::Table(members), Val::Text(name)) => Ok(Val::Bool(
            members.get(name.as_str()).is_some(),
        )),
        (Val::List(items), Val::Num(place)) => Ok(Val::Bool(is_place(place, items.len()))),
        _ => Err(no_such_key(alloc, value, key)),
    }
}

fn is_place(place: &i64, length: usize) -> bool
    ensures { result ≡ (int_le (pos 0) place.now && int_lt place.now (pos length)) }
{
    let place = *place;
    place >= 0 && (place as u64) < length as u64
}

fn absolute(alloc: Global, number: i64) -> Result<Val, Fail>
    ensures { AnswersAs result (in_range (pos (nat_abs number))) }
{
    if number < 0 {
        neg(alloc, &Val::Num(number))
    } else {
        Ok(Val::Num(number))
    }
}

fn char_count(text: &str) -> usize
    ensures { result ≡ length (chars text.now) }
{
    text.chars().count()
}
