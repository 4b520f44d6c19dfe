// The status by the totals of all pieces.
ghost use Rattle.std.specs.Prelude.{◌≡◌, nat_lt};
ghost use Rattle.jq_filters.specs.Outcomes.{end_status};
ghost use Rattle.jq_filters.specs.Pieces.{last_of, status_in};

use jq_pages::{Last, Totals};

// The status after pieces with these totals, if no run halts.
fn end_status_of(exit: bool, totals: Totals) -> u8
    ensures { result ≡ end_status exit (nat_lt 0 totals.failed) (last_of totals.last) }
{
    if totals.failed > 0 {
        return 5;
    }
    if !exit {
        return 0;
    }
    match totals.last {
        Last::Nothing => 4,
        Last::Falsy => 1,
        Last::Truthy => 0,
    }
}

/// The status after pieces with these totals.
pub(crate) fn status_of(exit: bool, totals: Totals) -> u8
    ensures { result ≡ status_in exit totals }
{
    match totals.halt {
        Some(status) => status,
        None => end_status_of(exit, totals),
    }
}
