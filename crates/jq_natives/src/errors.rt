// The errors of natives. If there is no memory for the text, the failure is out of memory.
ghost use Rattle.jv_data.specs.Fails.{FailsAs, raised};
ghost use Rattle.jv_data.specs.Value.{Value};
ghost use Rattle.jv_data.specs.View.{view};
ghost use Rattle.jq_natives.specs.Errors.{cannot_check, error_of};

use jv_data::{Fail, Val, raise_with_kinds};
use std::alloc::Global;

/// `error(message)`: raises the message, which may be any value (manual of jq 1.7, "error(message)").
pub fn raise_value(message: &Val) -> Fail
    ensures { (input : Value) → FailsAs result (error_of input (view message.now)) }
{
    match message.copy() {
        Ok(message) => Fail::Raised(message),
        Err(_) => Fail::NoMemory,
    }
}

/// The error of `has` for a value and a key whose kinds do not fit each other.
pub fn no_such_key(alloc: Global, value: &Val, key: &Val) -> Fail
    ensures { FailsAs result (raised (cannot_check (view value.now) (view key.now))) }
{
    raise_with_kinds(
        alloc,
        "Cannot check whether ",
        value,
        " has a ",
        key,
        " key",
    )
}
