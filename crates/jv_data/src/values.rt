// JSON values.
ghost use Rattle.std.specs.Prelude.{◌≡◌, IfOk, true};
ghost use Rattle.std.specs.Char.{is_ascii};
ghost use Rattle.std.specs.List.{list_all};
ghost use Rattle.std.specs.Str.{chars};
ghost use Rattle.jv_data.specs.Held.{values_in, members_in};
ghost use Rattle.jv_data.specs.Kind.{kind_of, kind_name};
ghost use Rattle.jv_data.specs.Shared.{text_in};
ghost use Rattle.jv_data.specs.Value.{string, array, object, items_of};
ghost use Rattle.jv_data.specs.Text.{text_of};
ghost use Rattle.jv_data.specs.View.{view};
ghost use Rattle.jv_data.specs.declared.kinds.Kind.TheVariants as kind;

use crate::containers::{Array, Object, SharedText};
use crate::dropping::{
    discard_items, discard_members, items_may_be_deep, members_may_be_deep, take_items_apart,
    take_members_apart,
};
use crate::kinds::Kind;
use std::alloc::{AllocError, Global};

/// A JSON value (RFC 8259, section 3). Its numbers are the whole numbers of 64 bits.
pub enum Val {
    Null,
    Bool(bool),
    Num(i64),
    Text(SharedText),
    List(Array<Val>),
    Table(Object<Val>),
}

// Not derived: code that drops a value calls this, whereas a derived drop is written out at each of its places, with an arm for
// each kind, and lengthens the proof there.
// The drop of a container recurses once for each level, so a value that may be deep is taken apart first.
impl Drop for Val {
    fn drop(self) {
        match self {
            Val::Null => {}
            Val::Bool(_) => {}
            Val::Num(_) => {}
            Val::Text(_) => {}
            Val::List(items) => {
                if items_may_be_deep(&items) {
                    take_items_apart(items)
                }
            }
            Val::Table(members) => {
                if members_may_be_deep(&members) {
                    take_members_apart(members)
                }
            }
        }
    }
}

impl Val {
    /// The string value of a text.
    pub fn from_string(alloc: Global, text: String) -> Result<Val, AllocError>
        ensures { IfOk result (λ v. view v ≡ string (text_of text)) }
    {
        Ok(Val::Text(SharedText::from_string(alloc, text)?))
    }

    /// The string value of a borrowed text, which is copied.
    pub fn from_text(alloc: Global, text: &str) -> Result<Val, AllocError>
        ensures { IfOk result (λ v. view v ≡ string (chars text.now)) }
    {
        Ok(Val::Text(SharedText::from_text(alloc, text)?))
    }

    /// The text of a string.
    pub fn into_text(self) -> SharedText
        requires { kind_of (view self) ≡ kind.String }
        ensures { view self ≡ string (text_in result) }
    {
        match self {
            Val::Text(text) => text,
            _ => unreachable!(),
        }
    }

    /// The items of an array.
    pub fn into_list(self) -> Array<Val>
        requires { kind_of (view self) ≡ kind.Array }
        ensures { view self ≡ array (items_of (values_in result)) }
    {
        match self {
            Val::List(items) => items,
            _ => unreachable!(),
        }
    }

    /// The members of an object.
    pub fn into_table(self) -> Object<Val>
        requires { kind_of (view self) ≡ kind.Object }
        ensures { view self ≡ object (members_in result) }
    {
        match self {
            Val::Table(members) => members,
            _ => unreachable!(),
        }
    }

    // Drops the value, all levels of it by recursion.
    #[cycle(discarding)]
    pub(crate) fn discard(self) {
        match self {
            Val::Null => {}
            Val::Bool(_) => {}
            Val::Num(_) => {}
            Val::Text(_) => {}
            Val::List(items) => discard_items(items),
            Val::Table(members) => discard_members(members),
        }
    }
}

/// The kind of a value.
pub fn kind(value: &Val) -> Kind
    ensures { result ≡ kind_of (view value.now) }
{
    match value {
        Val::Null => Kind::Null,
        Val::Bool(_) => Kind::Boolean,
        Val::Num(_) => Kind::Number,
        Val::Text(_) => Kind::String,
        Val::List(_) => Kind::Array,
        Val::Table(_) => Kind::Object,
    }
}

/// The name of a value's kind, as `type` returns it and as error texts print it (manual of jq 1.7, "type").
pub fn kind_name(value: &Val) -> &'static str
    ensures name { result.now ≡ kind_name (view value.now) }
    ensures ascii { list_all is_ascii result.now ≡ true }
{
    match value {
        Val::Null => "null",
        Val::Bool(_) => "boolean",
        Val::Num(_) => "number",
        Val::Text(_) => "string",
        Val::List(_) => "array",
        Val::Table(_) => "object",
    }
}
