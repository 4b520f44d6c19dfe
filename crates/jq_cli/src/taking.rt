// Taking `--arg` and `--argjson` out of the words.
ghost use Rattle.jq_cli.specs.private.Variables.{Answers, TakesTwo, kind_of, with_first};
ghost use Rattle.std.specs.Prelude.{◌≡◌, ◌++◌, OnOk, map, string_bytes};
ghost use Rattle.std.specs.List.{list_any};
ghost use Rattle.std.specs.Str.{bytes_eq, chars};
ghost use Rattle.std.specs.Vec.Iter.{into_iter_items};
ghost use Rattle.jq_syntax.specs.Chosen.{variable_of, variables_of};
ghost use Rattle.jv_data.specs.View.{view};
ghost use Rattle.jq_cli.specs.Answers.{Takes};
ghost use Rattle.jq_cli.specs.Pieces.{dashes, is_named, read_as, variable};

use crate::faults::UsageFault;
use jq_lexer::is_name;
use jv_data::Val;
use jv_text::{Fault, read_text};
use std::alloc::{AllocError, Global};
use std::vec::IntoIter;

/// How the value of a variable is written.
#[derive(Clone, Copy, Debug, PartialEq, Eq)]
pub(crate) enum Kind {
    /// As the string that it is: `--arg`.
    Text,
    /// As a JSON text: `--argjson`.
    Json,
}

/// Takes `--arg NAME VALUE` and `--argjson NAME JSON` out of the words before the first `--` that is neither a name nor a
/// value, and returns the remaining words and the variables (manual of jq 1.7, "Invoking jq"). Of two variables with one name
/// the first is used. `Usage` if a word is missing, a name is no name or a value is not one JSON text.
pub fn take_args(
    alloc: Global,
    words: Vec<String>,
) -> Result<(Vec<String>, Vec<(String, Val)>), UsageFault>
    ensures { Takes (map string_bytes words.items) result }
{
    let mut left = Vec::new(alloc);
    let mut vars = Vec::new(alloc);
    let mut words = words.into_iter();
    while let Some(word) = words.next() {
        match kind_of(word.as_str()) {
            Some(kind) => {
                let (name, text) = two_words(&mut words)?;
                push_first(&mut vars, variable(alloc, kind, name, text)?)?;
            }
            None => {
                let is_last = is_dashes(word.as_str());
                left.push(word)?;
                if is_last {
                    push_all(&mut left, words)?;
                    return Ok((left, vars));
                }
            }
        }
    }
    Ok((left, vars))
}

// The kind of an option, if the word is one of the two.
fn kind_of(word: &str) -> Option<Kind>
    ensures { result ≡ kind_of word.now }
{
    if word == "--arg" {
        Some(Kind::Text)
    } else if word == "--argjson" {
        Some(Kind::Json)
    } else {
        None
    }
}

fn is_dashes(word: &str) -> bool
    ensures { result ≡ bytes_eq word.now dashes }
{
    word == "--"
}

fn push_all(left: &mut Vec<String>, words: IntoIter<String>) -> Result<(), AllocError>
    ensures { OnOk result (left.new.items ≡ left.old.items ++ into_iter_items words) }
{
    for word in words {
        left.push(word)?;
    }
    Ok(())
}

fn two_words(words: &mut IntoIter<String>) -> Result<(String, String), UsageFault>
    ensures { TakesTwo result (map string_bytes (into_iter_items words.old)) (map string_bytes (into_iter_items words.new)) }
{
    match (words.next(), words.next()) {
        (Some(first), Some(second)) => Ok((first, second)),
        _ => Err(UsageFault::Usage),
    }
}

fn variable(
    alloc: Global,
    kind: Kind,
    name: String,
    text: String,
) -> Result<(String, Val), UsageFault>
    ensures { Answers variable_of result (variable kind (string_bytes name) (string_bytes text)) }
{
    if !is_name(name.as_str()) {
        return Err(UsageFault::Usage);
    }
    let value = value_of(alloc, kind, text)?;
    Ok((name, value))
}

fn value_of(alloc: Global, kind: Kind, text: String) -> Result<Val, UsageFault>
    ensures { Answers view result (read_as kind (string_bytes text)) }
{
    match kind {
        Kind::Text => Ok(Val::from_string(alloc, text)?),
        Kind::Json => match read_text(alloc, text.as_str().as_bytes()) {
            Ok(value) => Ok(value),
            Err(Fault::NoMemory) => Err(UsageFault::NoMemory),
            Err(_) => Err(UsageFault::Usage),
        },
    }
}

// Adds a variable, unless there is one with its name.
fn push_first(vars: &mut Vec<(String, Val)>, var: (String, Val)) -> Result<(), AllocError>
    ensures { OnOk result (variables_of vars.new.items ≡ with_first (variables_of vars.old.items) (variable_of var)) }
{
    if !is_known(vars.as_slice(), var.0.as_str()) {
        vars.push(var)?;
    }
    Ok(())
}

fn is_known(vars: &[(String, Val)], name: &str) -> bool
    ensures { result ≡ list_any (is_named (chars name.now)) (variables_of vars.now) }
{
    vars.iter().any(|var| var.0.as_str() == name)
}
