// Reading a text whose numbers are all written as whole numbers.
ghost use Rattle.std.specs.Prelude.{◌≡◌, option_map};
ghost use Rattle.serde_json.specs.Find.{as_i64};
ghost use Rattle.serde_json.specs.View.{number_view, view as data_view, items_view as data_items, members_view as data_members};
ghost use Rattle.jv_data.specs.Value.{Value};
ghost use Rattle.jv_data.specs.View.{view, items_view, members_view};
ghost use Rattle.jv_text.specs.Json.{value_of, items_of, members_of};
ghost use Rattle.jv_text.specs.Plain.{plain_value};
ghost use Rattle.jv_text.specs.private.Unreadable.{Reads};

use crate::tokens::{Buffers, read_tokens};
use json::Invalid;
use jv_data::{Array, Object, Val};
use serde_json::{Category, Map, Number, Value as Json};
use std::alloc::{AllocError, AllocFailed, Global};
use std::collections::BTreeMap;

/// Why no value was read.
#[derive(Clone, Copy, Debug, PartialEq, Eq)]
pub(crate) enum Unread {
    /// The text has no value.
    NoValue,
    NoMemory,
}

impl From<AllocError> for Unread {
    ghost use Rattle.jv_text.specs.declared.reading.Unread.TheVariants.{NoMemory};

    ghost from_gives = { λ _ e. e ≡ NoMemory };

    fn from(_error: AllocError) -> Unread {
        Unread::NoMemory
    }
}

impl<T: Drop> From<AllocFailed<T>> for Unread {
    ghost use Rattle.jv_text.specs.declared.reading.Unread.TheVariants.{NoMemory};

    ghost from_gives = { λ _ e. e ≡ NoMemory };

    fn from(_error: AllocFailed<T>) -> Unread {
        Unread::NoMemory
    }
}

impl From<Invalid> for Unread {
    ghost use Rattle.jv_text.specs.declared.reading.Unread.TheVariants.{NoValue};

    ghost from_gives = { λ _ e. e ≡ NoValue };

    fn from(_invalid: Invalid) -> Unread {
        Unread::NoValue
    }
}

/// The value of a JSON text whose numbers are all written as whole numbers of 64 bits, with neither a fraction nor an
/// exponent, and not as `-0`.
pub(crate) fn read(alloc: Global, text: &[u8], buffers: &mut Buffers) -> Result<Val, Unread>
    ensures { Reads view result (plain_value text.now) }
{
    match read_tokens(alloc, text, buffers) {
        Err(Unread::NoValue) => read_data(alloc, text),
        read => read,
    }
}

// The same, by way of data that keeps only the last member of each name.
fn read_data(alloc: Global, text: &[u8]) -> Result<Val, Unread>
    ensures { Reads view result (plain_value text.now) }
{
    match Json::from_slice(alloc, text) {
        Ok(json) => value_of(alloc, json),
        Err(error) => match error.classify() {
            Category::Memory => Err(Unread::NoMemory),
            _ => Err(Unread::NoValue),
        },
    }
}

fn number(number: Number) -> Result<Val, Unread>
    ensures { Reads view result (option_map Value.number (as_i64 (number_view number))) }
{
    match number.as_i64() {
        Some(n) => Ok(Val::Num(n)),
        None => Err(Unread::NoValue),
    }
}

// The value of the data, whose parts are moved.
#[cycle(converting)]
fn value_of(alloc: Global, json: Json) -> Result<Val, Unread>
    ensures { Reads view result (value_of (data_view json)) }
{
    match json {
        Json::Null => Ok(Val::Null),
        Json::Bool(b) => Ok(Val::Bool(b)),
        Json::Number(n) => number(n),
        Json::String(text) => Ok(Val::from_string(alloc, text)?),
        Json::Array(items) => Ok(Val::List(Array::from_vec(alloc, items_of(alloc, items)?)?)),
        Json::Object(members) => Ok(Val::Table(Object::from_map(
            alloc,
            members_of(alloc, members)?,
        )?)),
    }
}

#[cycle(converting)]
fn items_of(alloc: Global, items: Vec<Json>) -> Result<Vec<Val>, Unread>
    ensures { Reads (λ v. items_view v.items) result (items_of (data_items items.items)) }
{
    let mut values = Vec::with_capacity(alloc, items.len())?;
    for item in items {
        values.push(value_of(alloc, item)?)?;
    }
    Ok(values)
}

#[cycle(converting)]
fn members_of(alloc: Global, members: Map<String, Json>) -> Result<BTreeMap<String, Val>, Unread>
    ensures { Reads (λ m. members_view m.entries) result (members_of (data_members members.entries)) }
{
    let mut values = BTreeMap::new(alloc);
    for (key, member) in members {
        drop(values.insert(key, value_of(alloc, member)?)?);
    }
    Ok(values)
}
