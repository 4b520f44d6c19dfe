// Why a call of a session is refused.
ghost use Rattle.std.specs.Prelude.{◌≡◌};
ghost use Rattle.jq_session.specs.private.Refusals.{refusal_in};

use jq_pages::Refusal as PagesRefusal;
use jq_starts::Starts;
use jv_data::NoMemory;
use thiserror::Error;

/// Why a call of a session is refused.
#[derive(Clone, Copy, Debug, PartialEq, Eq, Error)]
pub enum Refusal {
    /// There is no input of that number; or for an insertion, the number is above the count.
    #[error("no such place")]
    NoPlace,
    /// The session has 1,000,000 inputs, or would start with more.
    #[error("too many inputs")]
    Full,
    /// The bytes could not be written.
    #[error("write fault")]
    Write,
    #[error("out of memory")]
    NoMemory,
}

impl From<NoMemory> for Refusal {
    ghost use Rattle.jq_session.specs.declared.refusals.Refusal.TheVariants as refusal;

    ghost from_gives = { λ _ r. r ≡ refusal.NoMemory };

    fn from(_error: NoMemory) -> Refusal {
        Refusal::NoMemory
    }
}

/// A start that was refused. It gives the count of starts back.
#[derive(Drop)]
pub struct NotStarted {
    pub starts: Starts,
    pub refusal: Refusal,
}

/// The same refusal of a session.
pub(crate) fn refusal_of(refusal: PagesRefusal) -> Refusal
    ensures { result ≡ refusal_in refusal }
{
    match refusal {
        PagesRefusal::NoPlace => Refusal::NoPlace,
        PagesRefusal::Full => Refusal::Full,
        PagesRefusal::NoMemory => Refusal::NoMemory,
    }
}
