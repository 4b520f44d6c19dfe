// A search among the program's bindings.
use crate::buckets::{VARIABLE, bucket};
use crate::environments::ProgramBinding;
use crate::names::{is_function, is_text};
use jq_ast::Name;

/// A search among the program's bindings: for a function with a name and a number of parameters, or for a variable with a name.
#[derive(Clone, Copy)]
pub enum Sought<'n> {
    Function(&'n Name, usize),
    Variable(&'n Name),
}

impl<'n> Sought<'n> {
    ghost use Rattle.std.specs.Prelude.{◌≡◌, ◌<◌, true};
    ghost use Rattle.jq_state.specs.Nodes.{program_binding};
    ghost use Rattle.jq_state.specs.Listed.{is_sought};
    ghost use Rattle.jq_state.specs.declared.environments.ProgramBinding.{ProgramBinding};
    ghost use Rattle.jq_state.specs.Buckets.{bucket_of};

    // The bucket of all bindings that match the search.
    #[inline]
    pub(crate) fn bucket(self) -> usize
        ensures bucket { (b : ProgramBinding) → is_sought self.entry (program_binding b) ≡ true → bucket_of b ≡ result }
        ensures within { result < 128 }
    {
        match self {
            Sought::Function(name, count) => bucket(name.text.as_str(), count),
            Sought::Variable(name) => bucket(name.text.as_str(), VARIABLE),
        }
    }

    // Whether a binding matches the search.
    #[inline]
    pub(crate) fn finds(self, binding: &ProgramBinding) -> bool
        ensures { result ≡ is_sought self.entry (program_binding binding.now) }
    {
        match self {
            Sought::Function(name, count) => match binding {
                ProgramBinding::Function(function) => is_function(function, name, count),
                ProgramBinding::Value(_, _) => false,
            },
            Sought::Variable(name) => match binding {
                ProgramBinding::Value(other, _) => is_text(name, other),
                ProgramBinding::Function(_) => false,
            },
        }
    }
}
