// What `Pages` keeps.
ghost use Rattle.std.specs.Prelude.{◌≡◌, ◌≤◌};
ghost use Rattle.jq_pages.specs.Edits.{most_inputs};
ghost use Rattle.jq_pages.specs.private.Reruns.{count_in};
ghost use Rattle.jq_pages.specs.private.Groups.{IsIndex};
ghost use Rattle.jq_pages.specs.private.Pages.{IsBegun, IsFilled, IsHeld};

use crate::grouping::Group;
use crate::page::Page;
use crate::pieces::Piece;
use crate::steps::Steps;

/// The steps, and what they gave: the first piece and the first state, the pages and the sums of their groups, the last piece.
/// `count` is the number of inputs.
#[derive(Drop)]
pub(crate) struct Kept<S: Steps> {
    pub(crate) steps: S,
    pub(crate) head: Piece,
    pub(crate) first: S::State,
    pub(crate) groups: Vec<Group>,
    pub(crate) pages: Vec<Page<S::State>>,
    pub(crate) tail: Piece,
    pub(crate) count: usize,
    ghost begun: { ∥ IsBegun S.seen (S.fold steps) head first ∥₁ },
    ghost held: { ∥ IsHeld S.seen (S.fold steps) (S.seen first) pages.items tail ∥₁ },
    ghost filled: { ∥ IsFilled pages.items ∥₁ },
    ghost counted: { count ≡ count_in pages.items },
    ghost indexed: { IsIndex groups.items pages.items },
    ghost not_over_full: { count ≤ most_inputs },
}
