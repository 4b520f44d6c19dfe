// Texts of values in strings.
ghost use Rattle.std.specs.Prelude.{◌≡◌, ◌++◌, IfOk};
ghost use Rattle.std.specs.Str.{chars};
ghost use Rattle.jv_data.specs.Text.{text_of};
ghost use Rattle.jv_data.specs.View.{view};
ghost use Rattle.jv_text.specs.Formats.{Text, GivesText};
ghost use Rattle.jq_ast.specs.Named.{name_of};
ghost use Rattle.jq_meaning.specs.Continuations.{format_of};
ghost use Rattle.jq_operations.specs.Outputs.{Inserts};

use jq_ast::Name;
use jv_data::{Fail, NoMemory, SharedText, Val};
use jv_text::format_of;
use std::alloc::{AllocError, Global};

/// A text that is put into a string, or the error that its format raises.
#[derive(Drop)]
pub enum Inserted {
    Text(SharedText),
    Error(Val),
}

/// The text of a value in the named format, between two texts.
pub fn text_in_format(
    alloc: Global,
    format: &Name,
    front: &str,
    value: &Val,
    back: &str,
) -> Result<Inserted, NoMemory>
    ensures { IfOk result (λ i. Inserts (chars front.now) (format_of (name_of format.now) (view value.now)) (chars back.now) i) }
{
    match format_of(format.text.as_str()) {
        Some(known) => insert(alloc, front, jv_text::format(alloc, known, value), back),
        None => Ok(Inserted::Error(Val::Null)),
    }
}

// A text between two others, or its error.
fn insert(
    alloc: Global,
    front: &str,
    text: Result<String, Fail>,
    back: &str,
) -> Result<Inserted, NoMemory>
    ensures { (expected : Text) → GivesText text expected → IfOk result (λ i. Inserts (chars front.now) expected (chars back.now) i) }
{
    match text {
        Ok(text) => {
            let joined = joined(alloc, front, text.as_str(), back)?;
            Ok(Inserted::Text(SharedText::from_string(alloc, joined)?))
        }
        Err(Fail::Raised(error)) => Ok(Inserted::Error(error)),
        Err(Fail::NoMemory) => Err(NoMemory),
    }
}

fn joined(alloc: Global, front: &str, text: &str, back: &str) -> Result<String, AllocError>
    ensures { IfOk result (λ s. text_of s ≡ chars front.now ++ (chars text.now ++ chars back.now)) }
{
    let mut joined = String::from_str(alloc, front)?;
    joined.push_str(text)?;
    joined.push_str(back)?;
    Ok(joined)
}
