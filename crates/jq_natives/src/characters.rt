// Natives on the code points of strings.
ghost use Rattle.std.specs.Prelude.{◌≡◌, ◌∷◌, [], IfOk, map, option_map};
ghost use Rattle.std.specs.Str.{chars};
ghost use Rattle.jv_data.specs.Fails.{AnswersAs, FailsAs};
ghost use Rattle.jv_data.specs.Value.{item, no_items};
ghost use Rattle.jv_data.specs.Text.{text_of};
ghost use Rattle.jv_data.specs.View.{items_view, view};
ghost use Rattle.jq_natives.specs.Answers.{count};
ghost use Rattle.jq_natives.specs.Texts.{ascii_downcase_of, ascii_lower, ascii_upcase_of, ascii_upper, code_points, explode_of, implode_error, implode_of};

use jv_data::{Array, Fail, Val, raise, raise_kind};
use std::alloc::{AllocError, Global};

/// The code points of a text.
pub(crate) fn characters_of(alloc: Global, text: &str) -> Result<Vec<char>, AllocError>
    ensures { IfOk result (λ v. v.items ≡ chars text.now) }
{
    text.chars().collect(alloc)
}

/// `explode`: a string's code points as numbers (manual of jq 1.7, "explode").
pub(crate) fn explode(alloc: Global, value: &Val) -> Result<Val, Fail>
    ensures { AnswersAs result (explode_of (view value.now)) }
{
    match value {
        Val::Text(text) => {
            let numbers = numbers(alloc, text.as_str())?;
            Ok(Val::List(Array::from_vec(alloc, numbers)?))
        }
        _ => Err(raise_kind(alloc, value, " cannot be exploded")),
    }
}

fn numbers(alloc: Global, text: &str) -> Result<Vec<Val>, AllocError>
    ensures { IfOk result (λ v. map view v.items ≡ map count (chars text.now)) }
{
    let mut numbers = Vec::new(alloc);
    for c in text.chars() {
        numbers.push(number(c))?;
    }
    Ok(numbers)
}

fn number(c: char) -> Val
    ensures { view result ≡ count c }
{
    Val::Num(i64::from(c as u32))
}

/// `implode`: the string with these code points (manual of jq 1.7, "implode").
pub(crate) fn implode(alloc: Global, value: &Val) -> Result<Val, Fail>
    ensures { AnswersAs result (implode_of (view value.now)) }
{
    let Val::List(items) = value else {
        return Err(no_code_points(alloc));
    };
    match code_points(alloc, items.as_slice())? {
        Some(text) => Ok(Val::from_string(alloc, text)?),
        None => Err(no_code_points(alloc)),
    }
}

fn no_code_points(alloc: Global) -> Fail
    ensures { FailsAs result implode_error }
{
    raise(alloc, "implode needs an array of code points")
}

// The text of the items as code points, if each of them is one.
fn code_points(alloc: Global, items: &[Val]) -> Result<Option<String>, AllocError>
    ensures { IfOk result (λ text. option_map text_of text ≡ code_points (items_view items.now)) }
{
    let mut text = String::new(alloc);
    for item in items {
        match code_point(item) {
            Some(c) => text.push(c)?,
            None => return Ok(None),
        }
    }
    Ok(Some(text))
}

fn code_point(value: &Val) -> Option<char>
    ensures { option_map (λ c. c ∷ []) result ≡ code_points (item (view value.now) no_items) }
{
    match value {
        Val::Num(number) => char::from_u32(u32::try_from(*number).ok()?),
        _ => None,
    }
}

/// `ascii_downcase`: the string with A to Z as a to z (manual of jq 1.7, "ascii_downcase, ascii_upcase").
pub(crate) fn downcase(alloc: Global, value: &Val) -> Result<Val, Fail>
    ensures { AnswersAs result (ascii_downcase_of (view value.now)) }
{
    match value {
        Val::Text(text) => Ok(Val::from_string(alloc, lower(alloc, text.as_str())?)?),
        _ => Err(raise(alloc, "ascii_downcase input must be a string")),
    }
}

/// `ascii_upcase`: the string with a to z as A to Z (manual of jq 1.7, "ascii_downcase, ascii_upcase").
pub(crate) fn upcase(alloc: Global, value: &Val) -> Result<Val, Fail>
    ensures { AnswersAs result (ascii_upcase_of (view value.now)) }
{
    match value {
        Val::Text(text) => Ok(Val::from_string(alloc, upper(alloc, text.as_str())?)?),
        _ => Err(raise(alloc, "ascii_upcase input must be a string")),
    }
}

fn lower(alloc: Global, text: &str) -> Result<String, AllocError>
    ensures { IfOk result (λ s. text_of s ≡ map ascii_lower (chars text.now)) }
{
    let mut changed = String::new(alloc);
    for c in text.chars() {
        changed.push(c.to_ascii_lowercase())?;
    }
    Ok(changed)
}

fn upper(alloc: Global, text: &str) -> Result<String, AllocError>
    ensures { IfOk result (λ s. text_of s ≡ map ascii_upper (chars text.now)) }
{
    let mut changed = String::new(alloc);
    for c in text.chars() {
        changed.push(c.to_ascii_uppercase())?;
    }
    Ok(changed)
}
