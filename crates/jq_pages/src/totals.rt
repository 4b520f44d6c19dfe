// The totals of pieces.
ghost use Rattle.std.specs.Prelude.{◌≡◌, ◌+◌, ◌<◌, ◌^◌, length, map};
ghost use Rattle.jq_pages.specs.Pieces.{piece_view};
ghost use Rattle.jq_pages.specs.Totals.{joined, nothing, total, totals};
ghost use Rattle.jq_pages.specs.private.Bounds.{IsBounded};

use crate::pieces::{Last, Piece};

/// The totals of a list of pieces: how many bytes of output and of errors they have, how many of them failed, the last output, and
/// the status of the first that halted.
#[derive(Clone, Copy, Debug, PartialEq, Eq)]
pub struct Totals {
    pub out: u128,
    pub err: u128,
    pub failed: u64,
    pub last: Last,
    pub halt: Option<u8>,
}

impl Totals {
    // Those of no piece.
    pub(crate) fn none() -> Totals
        ensures value { result ≡ nothing }
        ensures bounded { IsBounded result 0 }
    {
        Totals {
            out: 0,
            err: 0,
            failed: 0,
            last: Last::Nothing,
            halt: None,
        }
    }

    // Those of one piece.
    #[tactic(auto, unfolding(crate::specs::Pieces::piece_view))]
    pub(crate) fn of(piece: &Piece) -> Totals
        ensures value { result ≡ total (piece_view piece.now) }
        ensures bounded { IsBounded result 1 }
    {
        Totals {
            out: piece.out.len() as u128,
            err: piece.err.len() as u128,
            failed: if piece.failed { 1 } else { 0 },
            last: piece.last,
            halt: piece.halt,
        }
    }

    // Those of these pieces and of others after them.
    pub(crate) fn and(self, others: Totals) -> Totals
        requires out { self.out + others.out < 2 ^ 128 }
        requires err { self.err + others.err < 2 ^ 128 }
        requires failed { self.failed + others.failed < 2 ^ 64 }
        ensures { result ≡ joined self others }
    {
        Totals {
            out: self.out + others.out,
            err: self.err + others.err,
            failed: self.failed + others.failed,
            last: match others.last {
                Last::Nothing => self.last,
                last => last,
            },
            halt: match self.halt {
                None => others.halt,
                halt => halt,
            },
        }
    }
}

// The totals of some pieces.
pub(crate) fn totals_of(pieces: &[Piece]) -> Totals
    ensures value { result ≡ totals (map piece_view pieces.now) }
    ensures bounded { IsBounded result (length pieces.now) }
{
    let mut sum = Totals::none();
    for piece in pieces {
        sum = sum.and(Totals::of(piece));
    }
    sum
}
