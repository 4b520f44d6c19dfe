// The errors of calls on values, which are strings. If there is no memory for the text, the failure is out of memory.
ghost use Rattle.std.specs.Prelude.{◌≡◌, ◌++◌, IfOk, List, ℕ, true};
ghost use Rattle.std.specs.Char.{is_ascii};
ghost use Rattle.std.specs.List.{list_all};
ghost use Rattle.jv_data.specs.Fails.{FailsAs, raised, raised_kind, raised_kinds};
ghost use Rattle.jv_data.specs.Kind.{kind_name};
ghost use Rattle.jv_data.specs.Value.{Value, string};
ghost use Rattle.jv_data.specs.Text.{text_of};
ghost use Rattle.jv_data.specs.View.{view};

use crate::failures::Fail;
use crate::values::{Val, kind_name};
use std::alloc::{AllocError, Global};

/// The error with this text, which is ASCII.
pub fn raise(alloc: Global, text: &str) -> Fail
    requires { list_all is_ascii text.now ≡ true }
    ensures { FailsAs result (raised text.now) }
{
    raised(message(alloc, text))
}

/// The error with this text.
pub fn raise_string(alloc: Global, text: String) -> Fail
    ensures { FailsAs result (raised (text_of text)) }
{
    raised(Val::from_string(alloc, text))
}

/// The error whose text is the kind of a value and then this text, which is ASCII.
pub fn raise_kind(alloc: Global, value: &Val, text: &str) -> Fail
    requires { list_all is_ascii text.now ≡ true }
    ensures { FailsAs {A = Value} result (raised_kind (view value.now) text.now) }
{
    raise_with_kind(alloc, "", value, text)
}

/// The error whose text is the kinds of two values, with `and` between them, and then this text, which is ASCII.
pub fn raise_kinds(alloc: Global, left: &Val, right: &Val, text: &str) -> Fail
    requires { list_all is_ascii text.now ≡ true }
    ensures { FailsAs {A = Value} result (raised_kinds (view left.now) (view right.now) text.now) }
{
    raise_with_kinds(alloc, "", left, " and ", right, text)
}

/// The error whose text is the first text, the kind of a value, and the second text. Both texts are ASCII.
pub fn raise_with_kind(alloc: Global, before: &str, value: &Val, after: &str) -> Fail
    requires before { list_all is_ascii before.now ≡ true }
    requires after { list_all is_ascii after.now ≡ true }
    ensures { FailsAs result (raised (before.now ++ (kind_name (view value.now) ++ after.now))) }
{
    raised(with_kind(alloc, before, value, after))
}

/// The error whose text is three texts, with the kind of a value after the first and that of another after the second.
/// The texts are ASCII.
pub fn raise_with_kinds(
    alloc: Global,
    before: &str,
    left: &Val,
    between: &str,
    right: &Val,
    after: &str,
) -> Fail
    requires before { list_all is_ascii before.now ≡ true }
    requires between { list_all is_ascii between.now ≡ true }
    requires after { list_all is_ascii after.now ≡ true }
    ensures { FailsAs result (raised (before.now ++ (kind_name (view left.now) ++ (between.now ++ (kind_name (view right.now) ++ after.now))))) }
{
    raised(with_kinds(alloc, before, left, between, right, after))
}

fn raised(message: Result<Val, AllocError>) -> Fail
    ensures { (text : List ℕ) → IfOk message (λ v. view v ≡ string text) → FailsAs result (raised text) }
{
    match message {
        Ok(value) => Fail::Raised(value),
        Err(_) => Fail::NoMemory,
    }
}

fn message(alloc: Global, text: &str) -> Result<Val, AllocError>
    requires { list_all is_ascii text.now ≡ true }
    ensures { IfOk result (λ v. view v ≡ string text.now) }
{
    Val::from_text(alloc, text)
}

fn with_kind(alloc: Global, before: &str, value: &Val, after: &str) -> Result<Val, AllocError>
    requires before { list_all is_ascii before.now ≡ true }
    requires after { list_all is_ascii after.now ≡ true }
    ensures { IfOk result (λ v. view v ≡ string (before.now ++ (kind_name (view value.now) ++ after.now))) }
{
    let mut message = String::from_str(alloc, before)?;
    message.push_str(kind_name(value))?;
    message.push_str(after)?;
    Val::from_string(alloc, message)
}

fn with_kinds(
    alloc: Global,
    before: &str,
    left: &Val,
    between: &str,
    right: &Val,
    after: &str,
) -> Result<Val, AllocError>
    requires before { list_all is_ascii before.now ≡ true }
    requires between { list_all is_ascii between.now ≡ true }
    requires after { list_all is_ascii after.now ≡ true }
    ensures { IfOk result (λ v. view v ≡ string (before.now ++ (kind_name (view left.now) ++ (between.now ++ (kind_name (view right.now) ++ after.now))))) }
{
    let mut message = String::from_str(alloc, before)?;
    message.push_str(kind_name(left))?;
    message.push_str(between)?;
    message.push_str(kind_name(right))?;
    message.push_str(after)?;
    Val::from_string(alloc, message)
}
