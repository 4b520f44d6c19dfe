// Numbers and values read from strings.
ghost use Rattle.std.specs.Prelude.{◌≡◌, ◌++◌, IfOk, Result, codes, option_map, string_bytes};
ghost use Rattle.jv_data.specs.Fails.{AnswersAs, FailsAs};
ghost use Rattle.jv_data.specs.Value.{Value, number};
ghost use Rattle.jv_data.specs.View.{view};
ghost use Rattle.jv_number.specs.Number.{number_value};
ghost use Rattle.jv_text.specs.FaultWords.{fault_words};
ghost use Rattle.jv_text.specs.Reading.{FaultIs};
ghost use Rattle.jq_natives.specs.Reading.{fromjson_of, not_a_number, read_answer, tonumber_of};

use jv_data::{Fail, Val, raise, raise_kind};
use jv_number::number_text;
use jv_text::{Fault, read_text};
use std::alloc::{AllocError, Global};

/// `tonumber`: a number itself, or the exact value of a string that is the text of a number (manual of jq 1.7,
/// "tonumber").
pub(crate) fn tonumber(alloc: Global, value: &Val) -> Result<Val, Fail>
    ensures { AnswersAs result (tonumber_of (view value.now)) }
{
    match value {
        Val::Num(number) => Ok(Val::Num(*number)),
        Val::Text(text) => match number_in(text.as_str()) {
            Some(number) => Ok(number),
            None => Err(not_a_number(alloc, value)),
        },
        _ => Err(not_a_number(alloc, value)),
    }
}

fn not_a_number(alloc: Global, value: &Val) -> Fail
    ensures { FailsAs result (not_a_number (view value.now)) }
{
    raise_kind(alloc, value, " cannot be parsed as a number")
}

fn number_in(text: &str) -> Option<Val>
    ensures { option_map view result ≡ option_map number (number_value text.now) }
{
    match number_text(text) {
        Some(number) => Some(Val::Num(number)),
        None => None,
    }
}

/// `fromjson`: the value of a string that is one JSON text (manual of jq 1.7, "tojson, fromjson").
pub(crate) fn fromjson(alloc: Global, value: &Val) -> Result<Val, Fail>
    ensures { AnswersAs result (fromjson_of (view value.now)) }
{
    match value {
        Val::Text(text) => match read_text(alloc, text.as_str().as_bytes()) {
            Ok(value) => Ok(value),
            Err(fault) => Err(unreadable(alloc, fault)),
        },
        _ => Err(raise_kind(alloc, value, " cannot be parsed as JSON")),
    }
}

// The error that says why a text has no value. It depends on the fault alone.
fn unreadable(alloc: Global, fault: Fault) -> Fail
    ensures { (read : Result Value Fault) → FaultIs fault read → FailsAs result (read_answer read) }
{
    match fault {
        Fault::NoMemory => Fail::NoMemory,
        _ => match with_words(alloc, fault) {
            Ok(text) => raise(alloc, text.as_str()),
            Err(_) => Fail::NoMemory,
        },
    }
}

fn with_words(alloc: Global, fault: Fault) -> Result<String, AllocError>
    ensures { IfOk result (λ text. string_bytes text ≡ codes "fromjson: " ++ fault_words fault) }
{
    let words = fault.words();
    Ok(format!(in alloc; "fromjson: {words}")?)
}
