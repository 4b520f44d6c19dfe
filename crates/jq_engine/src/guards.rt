// How much is run at once. This is only advice: no contract speaks of how much.

ghost use Rattle.std.specs.Prelude.{◌≡◌, IsTrue, false, is_some};
ghost use Rattle.jq_state.specs.Items.{keys_of};

use jq_ast::Tree;
use jq_heuristics::{is_small, is_tried};
use jq_state::items::Item;

// The least price of a filter that is run at once without success, in transitions.
const COST: u32 = 400;

// The most credit, and the greatest price.
const MOST: u32 = 4_000;

/// Credit for running filters at once. Each transition adds to it, and a filter that is run at once without success costs the
/// price, which doubles then, and halves where another one comes to its end. So filters that nest too deep cost little more
/// than the machine's transitions do.
#[derive(Drop)]
pub(crate) struct Guard {
    credit: u32,
    price: u32,
}

impl Guard {
    pub(crate) fn new() -> Guard {
        Guard {
            credit: MOST,
            price: COST,
        }
    }

    /// Whether a filter is run at once on an item without a path: a small one always, and with enough credit any one that may
    /// have at most one output.
    #[inline(always)]
    pub(crate) fn tries(&self, tree: &Tree, item: &Item) -> bool
        ensures { IsTrue result → is_some (keys_of item.now.path) ≡ false }
    {
        !item.path.is_present() && self.tries_plain(tree)
    }

    /// The same on an item that has no path.
    #[inline(always)]
    pub(crate) fn tries_plain(&self, tree: &Tree) -> bool {
        if self.has_credit() {
            is_tried(tree)
        } else {
            is_small(tree)
        }
    }

    /// Whether there is credit for a filter that is run at once without success.
    #[inline(always)]
    pub(crate) fn has_credit(&self) -> bool {
        self.credit >= self.price
    }

    /// A transition was made.
    #[inline(always)]
    pub(crate) fn earn(&mut self) {
        if self.credit < MOST {
            self.credit += 1;
        }
    }

    /// A filter was run at once and came to its end.
    #[inline(always)]
    pub(crate) fn gain(&mut self) {
        if self.price > COST && self.credit >= self.price {
            self.price /= 2;
        }
    }

    /// A filter was run at once and did not come to its end.
    pub(crate) fn pay(&mut self) {
        self.credit = self.credit.saturating_sub(self.price);
        self.price = if self.price < MOST / 2 {
            self.price * 2
        } else {
            MOST
        };
    }
}
