// Values that the language itself makes: constants, keys and errors.
ghost use Rattle.std.specs.Prelude.{◌≡◌, IfOk, codes};
ghost use Rattle.jv_data.specs.Shared.{text_in};
ghost use Rattle.jv_data.specs.Value.{string};
ghost use Rattle.jv_data.specs.Text.{text_of};
ghost use Rattle.jv_data.specs.View.{view};
ghost use Rattle.jv_value.specs.Index as index;
ghost use Rattle.jq_ast.specs.Leaves.{key_of, literal_of};
ghost use Rattle.jq_meaning.specs.Continuations.{value_of_literal};

use jq_ast::{Key, Literal};
use jv_data::{NoMemory, Object, SharedText, Val};
use std::alloc::Global;

/// The value of a constant.
pub fn literal(literal: &Literal) -> Result<Val, NoMemory>
    ensures { IfOk result (λ v. view v ≡ value_of_literal (literal_of literal.now)) }
{
    literal.value().copy()
}

/// The key of an entry, as a shared text.
pub fn entry_key(key: &Key) -> Result<SharedText, NoMemory>
    ensures { IfOk result (λ t. text_in t ≡ key_of key.now) }
{
    match key.value() {
        Val::Text(text) => Ok(text.share()?),
        _ => unreachable!(),
    }
}

/// A member's key as a value.
pub fn member_key(alloc: Global, name: &String) -> Result<Val, NoMemory>
    ensures { IfOk result (λ v. view v ≡ string (text_of name.now)) }
{
    Ok(Val::from_text(alloc, name.as_str())?)
}

/// The key of a slice: an object with its start and its end.
pub fn slice_key(alloc: Global, start: Val, end: Val) -> Result<Val, NoMemory>
    ensures { IfOk result (λ v. view v ≡ index.slice_key (view start) (view end)) }
{
    let mut bounds = Object::new(alloc)?;
    bounds.insert(String::from_str(alloc, "start")?, start)?;
    bounds.insert(String::from_str(alloc, "end")?, end)?;
    Ok(Val::Table(bounds))
}

/// The error of a form that has no paths, inside `path(f)`.
pub fn path_error(alloc: Global) -> Result<Val, NoMemory>
    ensures { IfOk result (λ v. view v ≡ string (codes "Invalid path expression")) }
{
    Ok(Val::from_text(alloc, "Invalid path expression")?)
}

/// The error of an object key that is not a string.
pub fn key_error(alloc: Global) -> Result<Val, NoMemory>
    ensures { IfOk result (λ v. view v ≡ string (codes "Object keys must be strings")) }
{
    Ok(Val::from_text(alloc, "Object keys must be strings")?)
}
