// Why a call of `Pages` is refused.
ghost use Rattle.std.specs.Prelude.{◌≡◌};

use jv_data::NoMemory;
use thiserror::Error;

/// Why a call of `Pages` is refused.
#[derive(Clone, Copy, Debug, PartialEq, Eq, Error)]
pub enum Refusal {
    /// There is no input of that number; or for an insertion, the number is above the count.
    #[error("no such place")]
    NoPlace,
    /// There are 1,000,000 inputs, or there would be more at the start.
    #[error("too many inputs")]
    Full,
    #[error("out of memory")]
    NoMemory,
}

impl From<NoMemory> for Refusal {
    ghost use Rattle.jq_pages.specs.declared.refusals.Refusal.TheVariants as refusal;

    ghost from_gives = { λ _ r. r ≡ refusal.NoMemory };

    fn from(_error: NoMemory) -> Refusal {
        Refusal::NoMemory
    }
}

/// A start that was refused. It gives the steps back.
#[derive(Drop)]
pub struct NotStarted<S> {
    pub steps: S,
    pub refusal: Refusal,
}
