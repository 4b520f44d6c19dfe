// What an edit changed.
ghost use Rattle.std.specs.Prelude.{◌≡◌, ℕ, List, length, IfOk};
ghost use Rattle.jq_session.specs.Splices.{ReplacesAll};

use jq_pages::Splice;
use jv_data::NoMemory;
use std::alloc::Global;

/// What an accepted edit changed: the splices of the output and of the errors, the new status, and how often the filter was started.
#[derive(Debug, Drop, PartialEq, Eq)]
pub struct Follow {
    pub out: Splice,
    pub err: Splice,
    pub status: u8,
    pub runs: u64,
}

/// The splice that replaces all bytes, of which there are so many, by these.
pub(crate) fn all_of(count: u128, put: Vec<u8>) -> Splice
    ensures { (old : List ℕ) → length old ≡ count → ReplacesAll result old put.items }
{
    Splice {
        at: 0,
        cut: count,
        put,
    }
}

/// The splice that replaces all old bytes by all new ones.
pub(crate) fn replace_all(alloc: Global, old: &[u8], new: &[u8]) -> Result<Splice, NoMemory>
    ensures { IfOk result (λ splice. ReplacesAll splice old.now new.now) }
{
    let put = Vec::from_slice(alloc, new)?;
    Ok(all_of(old.len() as u128, put))
}
