// Comparison of names by their texts.
ghost use Rattle.std.specs.Prelude.{◌≡◌, bytes_eq, length, map};
ghost use Rattle.jv_data.specs.Text.{text_of};
ghost use Rattle.jq_ast.specs.Named.{name_of};
ghost use Rattle.jq_meaning.specs.Env as meaning;

use jq_ast::{Function, Name, Tree};

/// Whether a name has this text.
#[inline]
pub fn is_text(name: &Name, text: &String) -> bool
    ensures { result ≡ bytes_eq (name_of name.now) (text_of text.now) }
{
    name.text.as_str() == text.as_str()
}

/// Whether a function has this name and this number of parameters.
#[inline]
pub fn is_function(function: &Function<Tree>, name: &Name, count: usize) -> bool
    ensures { result ≡ meaning.is_named (name_of name.now) count (text_of function.now.name) (length (map text_of function.now.parameters.items)) }
{
    function.parameters.len() == count && is_text(name, &function.name)
}
