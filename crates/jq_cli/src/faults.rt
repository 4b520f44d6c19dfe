// Why no run is made for some words.
ghost use Rattle.std.specs.Prelude.{◌≡◌};
ghost use Rattle.clap.specs.Words.{kind_of};
ghost use Rattle.jq_cli.specs.private.Variables.{IsFaultOf};

use clap::error::ErrorKind;
use std::alloc::{AllocError, AllocFailed, Global};
use thiserror::Error;

/// Why words ask for no run.
#[derive(Debug, Drop, Error)]
pub enum UsageFault {
    /// `--arg` or `--argjson` lacks a word or has one that is no name or no JSON text, or both `-n` and `-s` are there, or
    /// `--follow` without `--live`.
    #[error("usage")]
    Usage,
    /// The words ask for help.
    #[error("help")]
    Help,
    /// The words ask for the version.
    #[error("version")]
    Version,
    /// `clap` refuses the words, with this text.
    #[error("{0}")]
    Line(String),
    #[error("out of memory")]
    NoMemory,
}

impl From<AllocError> for UsageFault {
    ghost use Rattle.jq_cli.specs.declared.faults.UsageFault.TheVariants.{NoMemory};

    ghost from_gives = { λ _ f. f ≡ NoMemory };

    fn from(_error: AllocError) -> UsageFault {
        UsageFault::NoMemory
    }
}

impl<T: Drop> From<AllocFailed<T>> for UsageFault {
    ghost use Rattle.jq_cli.specs.declared.faults.UsageFault.TheVariants.{NoMemory};

    ghost from_gives = { λ _ f. f ≡ NoMemory };

    fn from(_error: AllocFailed<T>) -> UsageFault {
        UsageFault::NoMemory
    }
}

/// The fault of words that `clap` does not accept: it refuses them, or they ask for help or for the version.
pub(crate) fn line_fault(alloc: Global, error: &clap::Error) -> UsageFault
    ensures { IsFaultOf (kind_of error.now) result }
{
    match error.kind() {
        ErrorKind::OutOfMemory => UsageFault::NoMemory,
        ErrorKind::DisplayHelp => UsageFault::Help,
        ErrorKind::DisplayVersion => UsageFault::Version,
        _ => match error.to_string(alloc) {
            Ok(text) => UsageFault::Line(text),
            Err(_) => UsageFault::NoMemory,
        },
    }
}
