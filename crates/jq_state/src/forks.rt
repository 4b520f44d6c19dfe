// Fork points: what runs when the machine goes back for more outputs.
use crate::frames::Scope;
use crate::items::Item;
use crate::numbers::number_after;
use jq_ast::Tree;
use jv_data::Val;

/// What a fork point runs when the machine goes back to it.
#[derive(Drop)]
pub enum Choice<'p> {
    /// The right side of a comma.
    Other(&'p Tree, Item),
    /// Items that are still to be given, the last one first.
    Remaining(Vec<Item>),
    /// The numbers of `range`: the next one, the end, and the step.
    Numbers(i64, i64, i64),
    /// The inputs from an index on.
    Inputs(usize),
    /// The array of the values in the cell.
    Collected,
    /// The state of `reduce`.
    LastState,
    /// The end of `foreach`.
    NoMore,
    /// The right side of `//`.
    RightSide(&'p Tree, Item),
    /// Inside `path(f)`: an update without output is an error.
    CheckUpdate(u32),
}

/// A fork point, with the counts of frames and environments when it was made. Its cell has what changes during a run: the items
/// of an array so far, the state of a fold, or an item once the left side of `//` has given one that is true.
#[derive(Drop)]
pub struct Fork<'p> {
    pub choice: Choice<'p>,
    pub cell: Vec<Item>,
    pub scope: Scope,
    pub next: u32,
    pub frames: u32,
    pub envs: u32,
}

impl<'p> Choice<'p> {
    ghost use Rattle.std.specs.Prelude.{◌≡◌, ◌≤◌, IfSome, IfNone};
    ghost use Rattle.jq_state.specs.Forks.{left_in};
    ghost use Rattle.jq_state.specs.private.Firsts.{GivesFirst};

    // Takes the first of the numbers or items that are still to be given, if there are at least two of them.
    #[inline]
    pub(crate) fn take_first(&mut self) -> Option<Item>
        ensures none { IfNone result (self.new ≡ self.old) }
        ensures few { IfNone result (left_in self.old ≤ 1) }
        ensures some { IfSome result (λ x. GivesFirst self.old x self.new) }
    {
        if let Choice::Numbers(first, end, step) = *self {
            let next = number_after(first, end, step)?;
            if let Choice::Numbers(left, _, _) = self {
                *left = next;
            }
            return Some(Item::plain(Val::Num(first)));
        }
        let Choice::Remaining(items) = self else {
            return None;
        };
        if items.len() < 2 {
            return None;
        }
        items.pop()
    }
}
