// Whether the filter's own names hide `inputs`, functions that halt, or functions of the prelude.
ghost use Rattle.std.specs.Prelude.{◌≡◌, ◌&&◌, ◌||◌, not, codes, bytes_eq, map, true};
ghost use Rattle.std.specs.Char.{is_ascii};
ghost use Rattle.std.specs.List.{list_all};
ghost use Rattle.std.specs.Str.{chars};
ghost use Rattle.jv_data.specs.Text.{text_of};
ghost use Rattle.jq_tree.specs.Names.{to_function, same_reference};
ghost use Rattle.jq_inputs.specs.private.Hidden.{nothing_hidden, hiding, hiding_parameters, is_inputs, is_first, is_any, is_limit, is_halt};

/// Whether a definition or a parameter of the filter around this point binds `inputs`, the name of a function that halts, or
/// the name of a function of the prelude that evaluates an argument at most once.
#[derive(Clone, Copy)]
pub(crate) struct Hidden {
    inputs: bool,
    first: bool,
    last: bool,
    isempty: bool,
    any: bool,
    all: bool,
    limit: bool,
    halt: bool,
    // `halt_error` without an argument.
    halt_error: bool,
    halt_error_with: bool,
}

impl Hidden {
    pub(crate) fn nothing() -> Hidden
        ensures { result ≡ nothing_hidden }
    {
        Hidden {
            inputs: false,
            first: false,
            last: false,
            isempty: false,
            any: false,
            all: false,
            limit: false,
            halt: false,
            halt_error: false,
            halt_error_with: false,
        }
    }

    // What is hidden after this function's name is bound.
    pub(crate) fn with(self, name: &str, arity: usize) -> Hidden
        ensures { result ≡ hiding (to_function (chars name.now) arity) self }
    {
        Hidden {
            inputs: is_hidden("inputs", 0, name, arity, self.inputs),
            first: is_hidden("first", 1, name, arity, self.first),
            last: is_hidden("last", 1, name, arity, self.last),
            isempty: is_hidden("isempty", 1, name, arity, self.isempty),
            any: is_hidden("any", 2, name, arity, self.any),
            all: is_hidden("all", 2, name, arity, self.all),
            limit: is_hidden("limit", 2, name, arity, self.limit),
            halt: is_hidden("halt", 0, name, arity, self.halt),
            halt_error: is_hidden("halt_error", 0, name, arity, self.halt_error),
            halt_error_with: is_hidden("halt_error", 1, name, arity, self.halt_error_with),
        }
    }

    // What is hidden inside a function with these parameters.
    pub(crate) fn with_parameters(self, parameters: &[String]) -> Hidden
        ensures { result ≡ hiding_parameters (map text_of parameters.now) self }
    {
        let mut hidden = self;
        for parameter in parameters {
            hidden = hidden.with(parameter.as_str(), 0);
        }
        hidden
    }

    // Whether a call with no arguments is `inputs`.
    pub(crate) fn is_inputs(self, name: &str) -> bool
        ensures { result ≡ is_inputs self (chars name.now) }
    {
        is_named("inputs", name) && !self.inputs
    }

    // Whether a call with one argument evaluates it at most once.
    pub(crate) fn is_first(self, name: &str) -> bool
        ensures { result ≡ is_first self (chars name.now) }
    {
        is_named("first", name) && !self.first
            || is_named("last", name) && !self.last
            || is_named("isempty", name) && !self.isempty
    }

    // Whether a call with two arguments evaluates the first one at most once.
    pub(crate) fn is_any(self, name: &str) -> bool
        ensures { result ≡ is_any self (chars name.now) }
    {
        is_named("any", name) && !self.any || is_named("all", name) && !self.all
    }

    pub(crate) fn is_limit(self, name: &str) -> bool
        ensures { result ≡ is_limit self (chars name.now) }
    {
        is_named("limit", name) && !self.limit
    }

    // Whether a call of this function halts.
    pub(crate) fn is_halt(self, name: &str, arity: usize) -> bool
        ensures { result ≡ is_halt self (to_function (chars name.now) arity) }
    {
        is_function("halt", 0, name, arity) && !self.halt
            || is_function("halt_error", 0, name, arity) && !self.halt_error
            || is_function("halt_error", 1, name, arity) && !self.halt_error_with
    }
}

fn is_named(known: &str, name: &str) -> bool
    requires { list_all is_ascii known.now ≡ true }
    ensures { result ≡ bytes_eq known.now (chars name.now) }
{
    known == name
}

// Whether a function is hidden inside a binder of this name and arity; `before` says whether it was hidden around it.
fn is_hidden(known: &str, known_arity: usize, name: &str, arity: usize, before: bool) -> bool
    requires { list_all is_ascii known.now ≡ true }
    ensures { result ≡ (same_reference (to_function known.now known_arity) (to_function (chars name.now) arity) || before) }
{
    is_function(known, known_arity, name, arity) || before
}

fn is_function(known: &str, known_arity: usize, name: &str, arity: usize) -> bool
    requires { list_all is_ascii known.now ≡ true }
    ensures { result ≡ same_reference (to_function known.now known_arity) (to_function (chars name.now) arity) }
{
    is_named(known, name) && known_arity == arity
}
