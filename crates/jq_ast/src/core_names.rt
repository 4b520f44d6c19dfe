// The names of the functions that are neither defined in jq nor natives.
ghost use Rattle.std.specs.Prelude.{◌≡◌};
ghost use Rattle.std.specs.Str.{chars};
ghost use Rattle.jq_ast.specs.CoreNames.{core_named};

use crate::names::Core;

/// The function of the language with this name and this number of arguments, if it is neither defined in jq nor a native
/// (manual of jq 1.7, "empty", "path(path_expression)", "range", "inputs", "halt", "halt_error"). It allocates nothing.
pub fn core_of(name: &str, arity: usize) -> Option<Core>
    ensures { result ≡ core_named (chars name.now) arity }
{
    by_bytes(name, arity)
}

// The names are ASCII, so the bytes of a name decide.
fn by_bytes(name: &str, arity: usize) -> Option<Core>
    ensures { result ≡ core_named name.now arity }
{
    match arity {
        0 => without_arguments(name),
        1 => with_one(name),
        2 => with_two(name),
        3 => with_three(name),
        _ => None,
    }
}

fn without_arguments(name: &str) -> Option<Core>
    ensures { result ≡ core_named name.now 0 }
{
    match name {
        "empty" => Some(Core::Empty),
        "inputs" => Some(Core::Inputs),
        "halt" => Some(Core::Halt),
        _ => None,
    }
}

fn with_one(name: &str) -> Option<Core>
    ensures { result ≡ core_named name.now 1 }
{
    match name {
        "path" => Some(Core::Path),
        "halt_error" => Some(Core::HaltError),
        _ => None,
    }
}

fn with_two(name: &str) -> Option<Core>
    ensures { result ≡ core_named name.now 2 }
{
    match name {
        "range" => Some(Core::Range),
        _ => None,
    }
}

fn with_three(name: &str) -> Option<Core>
    ensures { result ≡ core_named name.now 3 }
{
    match name {
        "range" => Some(Core::RangeBy),
        _ => None,
    }
}
