// What an edit changed.
use crate::splices::Splice;
use crate::totals::Totals;

/// The edit replaced `cut` pieces of the old list, from number `from` on, by `put` pieces. `closed` says whether `close` was run
/// again.
#[derive(Clone, Copy, Debug, PartialEq, Eq)]
pub struct Change {
    pub from: u64,
    pub cut: u64,
    pub put: u64,
    pub closed: bool,
}

/// An accepted edit: which pieces it changed, and the bytes of the output and of the errors that it changed.
#[derive(Debug, Drop, PartialEq, Eq)]
pub struct Edited {
    pub change: Change,
    pub out: Splice,
    pub err: Splice,
}

/// An accepted move: what its removal and its insertion changed.
#[derive(Debug, Drop, PartialEq, Eq)]
pub struct Moved {
    pub removal: Edited,
    /// The totals of all pieces between the removal and the insertion, and how often the filter was started up to there.
    pub between: Totals,
    pub starts: u64,
    pub insertion: Edited,
}
