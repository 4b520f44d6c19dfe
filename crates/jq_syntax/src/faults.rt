// Why a filter is refused.
ghost use Rattle.std.specs.Prelude.{◌≡◌};

use jq_resolver::Undefined;
use jv_data::NoMemory;
use std::alloc::{AllocError, AllocFailed};
use std::fmt;
use thiserror::Error;

/// Why a filter is refused: the first of its faults in the order `Lex`, `TooManyTokens`, `TooNested`, `Syntax`, `Undefined`,
/// `InputsPlace`, `InputsNeedNull`. `NoMemory` may come before any of them is found.
#[derive(Debug, PartialEq, Eq, Drop, Error)]
pub enum CompileFault {
    /// The filter's text has tokens up to this byte, and no token begins there.
    Lex { at: usize },
    /// The tokens are no filter.
    Syntax,
    /// More than 8,192 tokens.
    TooManyTokens,
    /// Somewhere more than 256 brackets are open: `(`, `[`, `{` and `\(`.
    TooNested,
    /// The first name in the order of the text that nothing binds.
    Undefined(Undefined),
    /// `inputs` is called more than once, or where it may be evaluated more than once.
    InputsPlace,
    /// `inputs` is called without `--null-input`.
    InputsNeedNull,
    NoMemory,
}

/// The words of the refusal in the error message: `bad token at byte 2`, `f/1 is not defined`.
impl fmt::Display for CompileFault {
    ghost use Rattle.std.specs.Prelude.{Some};
    ghost use Rattle.jq_syntax.specs.Reasons.{reason};

    ghost output = { λ fault. Some (reason fault) };

    fn fmt<W: fmt::Write>(&self, f: &mut fmt::Formatter<W>) -> fmt::Result {
        match self {
            CompileFault::Lex { at } => {
                let at = *at;
                write!(f, "bad token at byte {at}")
            }
            CompileFault::Syntax => f.write_str("syntax error"),
            CompileFault::TooManyTokens => f.write_str("more than 8192 tokens"),
            CompileFault::TooNested => f.write_str("more than 256 open brackets"),
            CompileFault::Undefined(name) => write!(f, "{name} is not defined"),
            CompileFault::InputsPlace => {
                f.write_str("inputs stands where it may be evaluated again")
            }
            CompileFault::InputsNeedNull => f.write_str("inputs needs -n"),
            CompileFault::NoMemory => f.write_str("out of memory"),
        }
    }
}

impl From<NoMemory> for CompileFault {
    ghost use Rattle.jq_syntax.specs.declared.faults.CompileFault.TheVariants.{NoMemory};

    ghost from_gives = { λ _ e. e ≡ NoMemory };

    fn from(_error: NoMemory) -> CompileFault {
        CompileFault::NoMemory
    }
}

impl From<AllocError> for CompileFault {
    ghost use Rattle.jq_syntax.specs.declared.faults.CompileFault.TheVariants.{NoMemory};

    ghost from_gives = { λ _ e. e ≡ NoMemory };

    fn from(_error: AllocError) -> CompileFault {
        CompileFault::NoMemory
    }
}

impl<T: Drop> From<AllocFailed<T>> for CompileFault {
    ghost use Rattle.jq_syntax.specs.declared.faults.CompileFault.TheVariants.{NoMemory};

    ghost from_gives = { λ _ e. e ≡ NoMemory };

    fn from(_error: AllocFailed<T>) -> CompileFault {
        CompileFault::NoMemory
    }
}
