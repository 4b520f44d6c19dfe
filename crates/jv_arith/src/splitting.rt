// A string, split by another.
ghost use Rattle.std.specs.Prelude.{◌≡◌, ◌≢◌, IfOk, [], map, zero};
ghost use Rattle.std.specs.Str.{chars};
ghost use Rattle.jv_data.specs.Value.{array, items_of, string};
ghost use Rattle.jv_data.specs.View.{view};
ghost use Rattle.jv_arith.specs.Strings.{parts_after, single, split_of};

use jv_data::{Array, NoMemory, Val};
use std::alloc::{AllocError, Global};

/// The array of the parts of a text between the occurrences of a separator, from left to right. An empty text has no parts,
/// and an empty separator splits between all characters.
pub fn split(alloc: Global, text: &str, separator: &str) -> Result<Val, NoMemory>
    ensures { IfOk result (λ v. view v ≡ array (items_of (map string (split_of (chars text.now) (chars separator.now))))) }
{
    Ok(Val::List(Array::from_vec(alloc, parts_of(alloc, text, separator)?)?))
}

fn parts_of(alloc: Global, text: &str, separator: &str) -> Result<Vec<Val>, AllocError>
    ensures { IfOk result (λ v. map view v.items ≡ map string (split_of (chars text.now) (chars separator.now))) }
{
    if text.is_empty() {
        return Ok(Vec::new(alloc));
    }
    if separator.is_empty() {
        return Ok(characters(alloc, text)?);
    }
    Ok(parts_between(alloc, text, separator)?)
}

fn characters(alloc: Global, text: &str) -> Result<Vec<Val>, AllocError>
    ensures { IfOk result (λ v. map view v.items ≡ map string (map single (chars text.now))) }
{
    let mut parts = Vec::new(alloc);
    for c in text.chars() {
        let part = character(alloc, c)?;
        parts.push(part)?;
    }
    Ok(parts)
}

fn character(alloc: Global, c: char) -> Result<Val, AllocError>
    ensures { IfOk result (λ v. view v ≡ string (single c)) }
{
    let mut text = String::new(alloc);
    text.push(c)?;
    Ok(Val::from_string(alloc, text)?)
}

fn parts_between(alloc: Global, text: &str, separator: &str) -> Result<Vec<Val>, AllocError>
    requires { separator.now ≢ [] }
    ensures { IfOk result (λ v. map view v.items ≡ map string (parts_after (chars separator.now) zero (chars text.now))) }
{
    let mut parts = Vec::new(alloc);
    let mut rest = text;
    while let Some((part, after)) = rest.split_once(separator) {
        parts.push(Val::from_text(alloc, part)?)?;
        rest = after;
    }
    parts.push(Val::from_text(alloc, rest)?)?;
    Ok(parts)
}
