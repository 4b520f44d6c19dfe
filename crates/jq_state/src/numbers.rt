// Numbers of a range.
ghost use Rattle.std.specs.Prelude.{◌≡◌, ◌↔◌, ◌<◌, ◌∷◌, [], length, IsTrue, IfNone, IfSome};
ghost use Rattle.jv_data.specs.Value.{number};
ghost use Rattle.jq_meaning.specs.Builtins.{steps_between, numbers_up_to};
ghost use Rattle.jq_meaning.specs.Runs.{before, one, plain};

use jq_meaning::laws::ranges_stop_at_the_end;

/// Whether a number is before the end of a range.
#[inline]
pub fn is_before(first: i64, end: i64, step: i64) -> bool
    ensures { IsTrue result ↔ (0 < steps_between first end step) }
{
    ranges_stop_at_the_end();
    if step > 0 {
        return first < end;
    }
    step < 0 && end < first
}

/// The second number of a range, if it is before the end. A sum that does not fit in 64 bits is after the end too.
#[inline]
pub fn number_after(first: i64, end: i64, step: i64) -> Option<i64>
    ensures last { IfNone result (0 < steps_between first end step → numbers_up_to first end step ≡ one (plain (number first))) }
    ensures left { IfSome result (λ n. 0 < length (numbers_up_to n end step).items) }
    ensures others { IfSome result (λ n. numbers_up_to first end step ≡ before (plain (number first) ∷ []) (numbers_up_to n end step)) }
{
    ranges_stop_at_the_end();
    let next = first.checked_add(step)?;
    if !is_before(next, end, step) {
        return None;
    }
    Some(next)
}
