// Sessions that stand on pages, at their start.
ghost use Rattle.std.specs.Prelude.{◌≡◌, ◌≤◌, false, true, length, map, IfErr, IfOk};
ghost use Rattle.jv_data.specs.View.{view};
ghost use Rattle.jq_inputs.specs.Plans.{view_of};
ghost use Rattle.jq_pages.specs.Edits.{most_inputs};
ghost use Rattle.jq_starts.specs.Starts.{starts_in};
ghost use Rattle.jq_filters.specs.Filters.{filter_mode};
ghost use Rattle.jq_filters.specs.Outcomes.{on_each, on_null};
ghost use Rattle.jq_tree.specs.Filter.{fold};
ghost use Rattle.jq_session.specs.Sessions.{IsStartRefusal, paged_starts, paged_state};
ghost use Rattle.jq_session.specs.Starts.{IsFirstRun};
ghost use Rattle.jq_session.specs.States.{state_in};

use crate::each::EachInput;
use crate::paged::PagedSession;
use crate::refusals::{NotStarted, Refusal, refusal_of};
use crate::until_halt::UntilHalt;
use jq_filters::Filter;
use jq_fold_steps::FoldSteps;
use jq_fold_steps::laws::a_compiled_fold_writes_what_its_run_writes;
use jq_starts::Starts;
use jq_stream::piece_laws::pieces_are_the_outcome;
use jv_data::Val;
use std::alloc::{AllocError, Global};
use std::rc::Rc;

// The filter, and one more reference to it.
fn share(alloc: Global, filter: Filter) -> Result<(Rc<Filter>, Rc<Filter>), AllocError>
    ensures first { IfOk result (λ r. r.0.value ≡ filter) }
    ensures second { IfOk result (λ r. r.1.value ≡ filter) }
{
    let shared = Rc::new(alloc, filter)?;
    let other = shared.clone()?;
    Ok((shared, other))
}

/// Starts a session whose edits run the edited input alone, and runs the filter on each of these inputs.
pub(crate) fn start_each(
    alloc: Global,
    starts: Starts,
    filter: Filter,
    inputs: Vec<Val>,
) -> Result<PagedSession<EachInput>, NotStarted>
    requires mode { filter_mode filter ≡ on_each }
    requires halts { filter.halts ≡ false }
    requires room { length inputs.items ≤ most_inputs }
    ensures state { IfOk result (λ s. paged_state s ≡ state_in filter (map view inputs.items)) }
    ensures refused { IfErr result (λ n. IsStartRefusal n.refusal (length inputs.items)) }
    ensures started { IfOk result (λ s. IsFirstRun (state_in filter (map view inputs.items)) (starts_in starts) (paged_starts s)) }
    ensures at_most { IfErr result (λ n. IsFirstRun (state_in filter (map view inputs.items)) (starts_in starts) (starts_in n.starts)) }
{
    pieces_are_the_outcome();
    match share(alloc, filter) {
        Ok((filter, shared)) => {
            let steps = EachInput {
                alloc,
                filter: shared,
                starts,
            };
            match PagedSession::start(alloc, filter, steps, inputs) {
                Ok(session) => Ok(session),
                Err(refused) => Err(NotStarted {
                    starts: refused.steps.starts,
                    refusal: refusal_of(refused.refusal),
                }),
            }
        }
        Err(_) => Err(NotStarted {
            starts,
            refusal: Refusal::NoMemory,
        }),
    }
}

/// Starts a session whose edits run the steps up to the first input whose run halts, and runs the filter on these inputs up to it.
pub(crate) fn start_until_halt(
    alloc: Global,
    starts: Starts,
    filter: Filter,
    inputs: Vec<Val>,
) -> Result<PagedSession<UntilHalt>, NotStarted>
    requires mode { filter_mode filter ≡ on_each }
    requires halts { filter.halts ≡ true }
    requires room { length inputs.items ≤ most_inputs }
    ensures state { IfOk result (λ s. paged_state s ≡ state_in filter (map view inputs.items)) }
    ensures refused { IfErr result (λ n. IsStartRefusal n.refusal (length inputs.items)) }
    ensures started { IfOk result (λ s. IsFirstRun (state_in filter (map view inputs.items)) (starts_in starts) (paged_starts s)) }
    ensures at_most { IfErr result (λ n. IsFirstRun (state_in filter (map view inputs.items)) (starts_in starts) (starts_in n.starts)) }
{
    match share(alloc, filter) {
        Ok((filter, shared)) => {
            let steps = UntilHalt {
                alloc,
                filter: shared,
                starts,
            };
            match PagedSession::start(alloc, filter, steps, inputs) {
                Ok(session) => Ok(session),
                Err(refused) => Err(NotStarted {
                    starts: refused.steps.starts,
                    refusal: refusal_of(refused.refusal),
                }),
            }
        }
        Err(_) => Err(NotStarted {
            starts,
            refusal: Refusal::NoMemory,
        }),
    }
}

/// Starts a session whose edits run the steps of the filter's fold, and runs the fold over these inputs.
pub(crate) fn start_fold(
    alloc: Global,
    starts: Starts,
    filter: Filter,
    inputs: Vec<Val>,
) -> Result<PagedSession<FoldSteps>, NotStarted>
    requires mode { filter_mode filter ≡ on_null true }
    requires plan { view_of filter.plan ≡ fold }
    requires room { length inputs.items ≤ most_inputs }
    ensures state { IfOk result (λ s. paged_state s ≡ state_in filter (map view inputs.items)) }
    ensures refused { IfErr result (λ n. IsStartRefusal n.refusal (length inputs.items)) }
    ensures started { IfOk result (λ s. IsFirstRun (state_in filter (map view inputs.items)) (starts_in starts) (paged_starts s)) }
    ensures at_most { IfErr result (λ n. IsFirstRun (state_in filter (map view inputs.items)) (starts_in starts) (starts_in n.starts)) }
{
    a_compiled_fold_writes_what_its_run_writes();
    match share(alloc, filter) {
        Ok((filter, shared)) => {
            let steps = FoldSteps::new(alloc, starts, shared);
            match PagedSession::start(alloc, filter, steps, inputs) {
                Ok(session) => Ok(session),
                Err(refused) => Err(NotStarted {
                    starts: refused.steps.into_starts(),
                    refusal: refusal_of(refused.refusal),
                }),
            }
        }
        Err(_) => Err(NotStarted {
            starts,
            refusal: Refusal::NoMemory,
        }),
    }
}
