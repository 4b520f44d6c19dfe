// The errors about parts of values: strings that name the kind of the value and the key that it does not accept. If there
// is no memory for an error's text, the failure is out of memory.
ghost use Rattle.std.specs.Prelude.{◌≡◌, IfOk, codes, string_bytes};
ghost use Rattle.std.specs.Str.{chars};
ghost use Rattle.json.specs.Print.{quoted};
ghost use lib.Utf8.{encodes};
ghost use Rattle.jv_data.specs.Fails.{FailsAs, raised};
ghost use Rattle.jv_data.specs.Kind.{kind_name};
ghost use Rattle.jv_data.specs.Text.{text_of};
ghost use Rattle.jv_data.specs.View.{view};
ghost use Rattle.jv_value.specs.ErrorTexts.{cannot_index, cannot_iterate, index_before_start, index_too_large, key_name, not_slice_bounds, slice_needs_array};

use json::Writer;
use jv_data::{Fail, Val, kind_name, raise, raise_string, raise_with_kind, raise_with_kinds};
use std::alloc::{AllocError, Global};

pub(crate) fn cannot_index(alloc: Global, value: &Val, key: &Val) -> Fail
    ensures { FailsAs result (raised (cannot_index (view value.now) (key_name (view key.now)))) }
{
    match key {
        Val::Text(name) => cannot_index_by_name(alloc, value, name.as_str()),
        _ => cannot_index_by_kind(alloc, value, key),
    }
}

pub(crate) fn cannot_slice(alloc: Global, value: &Val) -> Fail
    ensures { FailsAs result (raised (cannot_index (view value.now) (codes "object"))) }
{
    raise_with_kind(alloc, "Cannot index ", value, " with object")
}

pub(crate) fn cannot_iterate(alloc: Global, value: &Val) -> Fail
    ensures { FailsAs result (raised (cannot_iterate (view value.now))) }
{
    raise_with_kind(alloc, "Cannot iterate over ", value, "")
}

pub(crate) fn not_slice_bounds(alloc: Global) -> Fail
    ensures { FailsAs result (raised not_slice_bounds) }
{
    raise(
        alloc,
        "Start and end indices of an array slice must be numbers",
    )
}

pub(crate) fn index_too_large(alloc: Global) -> Fail
    ensures { FailsAs result (raised index_too_large) }
{
    raise(alloc, "Array index too large")
}

pub(crate) fn index_before_start(alloc: Global) -> Fail
    ensures { FailsAs result (raised index_before_start) }
{
    raise(alloc, "Out of bounds negative array index")
}

pub(crate) fn slice_needs_array(alloc: Global) -> Fail
    ensures { FailsAs result (raised slice_needs_array) }
{
    raise(
        alloc,
        "A slice of an array can only be assigned another array",
    )
}

fn cannot_index_by_kind(alloc: Global, value: &Val, key: &Val) -> Fail
    ensures { FailsAs result (raised (cannot_index (view value.now) (kind_name (view key.now)))) }
{
    raise_with_kinds(alloc, "Cannot index ", value, " with ", key, "")
}

fn cannot_index_by_name(alloc: Global, value: &Val, name: &str) -> Fail
    ensures { FailsAs result (raised (cannot_index (view value.now) (quoted (chars name.now)))) }
{
    match cannot_index_text(alloc, value, name) {
        Ok(text) => raise_string(alloc, text),
        Err(_) => Fail::NoMemory,
    }
}

fn cannot_index_text(alloc: Global, value: &Val, name: &str) -> Result<String, AllocError>
    ensures { IfOk result (λ s. text_of s ≡ cannot_index (view value.now) (quoted (chars name.now))) }
{
    let mut text = String::from_str(alloc, "Cannot index ")?;
    text.push_str(kind_name(value))?;
    text.push_str(" with ")?;
    text.push_str(quoted(alloc, name)?.as_str())?;
    Ok(text)
}

// The JSON string that the printer writes for a name.
fn quoted(alloc: Global, name: &str) -> Result<String, AllocError>
    ensures { IfOk result (λ s. string_bytes s ≡ encodes (quoted (chars name.now))) }
{
    let mut writer = Writer::new(Vec::new(alloc));
    writer.string(name)?;
    Ok(String::from_utf8(writer.into_inner()).unwrap())
}
