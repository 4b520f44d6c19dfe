// Names of the language: natives, and those whose meaning is more than one value.
ghost use Rattle.std.specs.Prelude.{◌≡◌};
ghost use Rattle.std.specs.Str.{chars};
ghost use Rattle.jq_meaning.specs.Builtins as meaning;
ghost use Rattle.jq_operations.specs.Language.{meaning_of};
ghost use Rattle.jq_operations.specs.private.CoreCalls.{core_meaning};
ghost use Rattle.jq_operations.specs.private.PathCalls.{keeps_paths};

use jq_ast::{Core, core_of};
use jq_natives::{Native, native_of};

/// The meaning of a name that no definition binds (manual of jq 1.7, "empty", "path(path_expression)", "range", "inputs").
#[derive(Clone, Copy)]
pub enum Builtin {
    NoOutputs,
    Paths,
    Range,
    AllInputs,
    Halts,
    Native(Native),
    Unknown,
}

impl Builtin {
    // Whether it may run on an item with a path: `getpath` is the only native that keeps paths.
    pub(crate) fn keeps_paths(self) -> bool
        ensures { result ≡ keeps_paths self }
    {
        match self {
            Builtin::NoOutputs => true,
            Builtin::Paths => false,
            Builtin::Range => false,
            Builtin::AllInputs => false,
            Builtin::Halts => true,
            Builtin::Native(Native::GetPath) => true,
            Builtin::Native(_) => false,
            Builtin::Unknown => true,
        }
    }
}

/// The meaning of a name with this number of arguments, if no definition binds it.
pub fn builtin_named(name: &str, count: usize) -> Builtin
    ensures { meaning_of result ≡ meaning.builtin_named (chars name.now) count }
{
    match core_of(name, count) {
        Some(core) => of_core(core),
        None => of_native(native_of(name, count)),
    }
}

fn of_core(core: Core) -> Builtin
    ensures { meaning_of result ≡ core_meaning core }
{
    match core {
        Core::Empty => Builtin::NoOutputs,
        Core::Path => Builtin::Paths,
        Core::Range => Builtin::Range,
        Core::RangeBy => Builtin::Range,
        Core::Inputs => Builtin::AllInputs,
        Core::Halt => Builtin::Halts,
        Core::HaltError => Builtin::Halts,
    }
}

fn of_native(native: Option<Native>) -> Builtin
    ensures { meaning_of result ≡ meaning.native_or_unknown native }
{
    match native {
        Some(native) => Builtin::Native(native),
        None => Builtin::Unknown,
    }
}
