// The totals of the pieces of pages.
ghost use Rattle.std.specs.Prelude.{◌≡◌, ◌<◌, ◌^◌, length};
ghost use Rattle.jq_pages.specs.Totals.{totals};
ghost use Rattle.jq_pages.specs.private.Bounds.{IsBounded};
ghost use Rattle.jq_pages.specs.private.Pages.{all_pieces};

use crate::page::Page;
use crate::totals::Totals;

// The totals of the pieces of some pages.
pub(crate) fn totals_in<T>(pages: &[Page<T>]) -> Totals
    requires { length (all_pieces pages.now) < 2 ^ 32 }
    ensures value { result ≡ totals (all_pieces pages.now) }
    ensures bounded { IsBounded result (length (all_pieces pages.now)) }
{
    let mut sum = Totals::none();
    for page in pages {
        sum = sum.and(page.pieces.sum);
    }
    sum
}
