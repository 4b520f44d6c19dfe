// Values as texts.
ghost use Rattle.std.specs.Prelude.{◌≡◌, IfOk, Ok};
ghost use Rattle.jv_data.specs.Fails.{AnswersAs};
ghost use Rattle.jv_data.specs.View.{view};
ghost use Rattle.jq_natives.specs.Formats.{formatted};
ghost use Rattle.jq_natives.specs.Texts.{tojson_of, tostring_of};

use jv_data::{Fail, NoMemory, Val};
use jv_text::{Format, format, to_compact_string};
use std::alloc::Global;

/// `tostring`: a string itself, or another value's JSON text on one line without spaces (manual of jq 1.7, "tostring").
pub(crate) fn tostring(alloc: Global, value: &Val) -> Result<Val, NoMemory>
    ensures { IfOk result (λ v. tostring_of (view value.now) ≡ Ok (view v)) }
{
    match value {
        Val::Text(_) => value.copy(),
        _ => tojson(alloc, value),
    }
}

/// `tojson`: a value's JSON text on one line without spaces (manual of jq 1.7, "tojson, fromjson").
pub(crate) fn tojson(alloc: Global, value: &Val) -> Result<Val, NoMemory>
    ensures { IfOk result (λ v. tojson_of (view value.now) ≡ Ok (view v)) }
{
    Ok(Val::from_string(alloc, to_compact_string(alloc, value)?)?)
}

/// A format: a value's text in it (manual of jq 1.7, "Format strings and escaping").
pub(crate) fn formatted(alloc: Global, format_name: Format, value: &Val) -> Result<Val, Fail>
    ensures { AnswersAs result (formatted format_name (view value.now)) }
{
    match format(alloc, format_name, value) {
        Ok(text) => Ok(Val::from_string(alloc, text)?),
        Err(failure) => Err(failure),
    }
}
