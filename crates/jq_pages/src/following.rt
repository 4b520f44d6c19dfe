// The pages after an edited one: they run again up to the first that ends in the state that it had.
ghost use Rattle.std.specs.Prelude.{◌≡◌, ◌≤◌, ◌↔◌, length, take, IfOk, IsTrue, IsFalse};
ghost use Rattle.jq_pages.specs.Folds.{Rises};
ghost use Rattle.jq_pages.specs.private.Reruns.{RunsOver, AtMeetings, exit_of, kept_of, count_in};

use crate::page::{Page, Rerun};
use crate::running::run_page;
use crate::steps::Steps;
use jv_data::NoMemory;
use std::alloc::Global;

/// The runs over the first of some pages, and whether the last of them ends in the state that its page keeps.
#[derive(Drop)]
pub(crate) struct Following<T> {
    pub(crate) runs: Vec<Rerun<T>>,
    pub(crate) met: bool,
}

// The state after some runs.
pub(crate) fn exit_after<'a, S: Steps>(
    entry: &'a S::State,
    runs: &'a [Rerun<S::State>],
) -> &'a S::State
    ensures { S.seen result.now ≡ exit_of S.seen (S.seen entry.now) runs.now }
{
    let count = runs.len();
    if count == 0 {
        entry
    } else {
        &runs[count - 1].exit
    }
}

// The state that some pages keep at their end.
pub(crate) fn kept_after<'a, S: Steps>(
    entry: &'a S::State,
    pages: &'a [Page<S::State>],
) -> &'a S::State
    ensures { S.seen result.now ≡ kept_of S.seen (S.seen entry.now) pages.now }
{
    let count = pages.len();
    if count == 0 {
        entry
    } else {
        &pages[count - 1].exit
    }
}

// Whether the runs end in the state that their pages keep.
fn has_met<S: Steps>(
    steps: &S,
    exit: &S::State,
    kept: &S::State,
    pages: &[Page<S::State>],
    runs: &[Rerun<S::State>],
) -> bool
    requires { length runs.now ≤ length pages.now }
    ensures { IsTrue result ↔ (exit_of S.seen (S.seen exit.now) runs.now ≡ kept_of S.seen (S.seen kept.now) (take (length runs.now) pages.now)) }
{
    let first = &pages[..runs.len()];
    steps.meets(exit_after::<S>(exit, runs), kept_after::<S>(kept, first))
}

// Runs over pages from a state, up to the first that ends in the state that it had. `kept` is the state that was kept before the
// first of them.
#[tactic(auto, using(crate::proofs::Reruns::runs_fit))]
pub(crate) fn follow<S: Steps>(
    alloc: Global,
    steps: &mut S,
    exit: &S::State,
    kept: &S::State,
    pages: &[Page<S::State>],
) -> Result<Following<S::State>, NoMemory>
    ensures runs { IfOk result (λ f. RunsOver S.seen (S.fold steps.old) (S.seen exit.now) pages.now f.runs.items) }
    ensures fit { IfOk result (λ f. length f.runs.items ≤ length pages.now) }
    ensures met { IfOk result (λ f. IsTrue f.met ↔ (exit_of S.seen (S.seen exit.now) f.runs.items ≡ kept_of S.seen (S.seen kept.now) (take (length f.runs.items) pages.now))) }
    ensures unmet { IfOk result (λ f. IsFalse f.met → length f.runs.items ≡ length pages.now) }
    ensures short { IfOk result (λ f. AtMeetings S.seen (S.fold steps.old) (S.seen exit.now) (S.seen kept.now) pages.now (λ t. length f.runs.items ≤ t)) }
    ensures same { S.fold steps.new ≡ S.fold steps.old }
    ensures rises { Rises (S.starts steps.old) (S.starts steps.new) (count_in pages.now) }
    ensures rises_to { AtMeetings S.seen (S.fold steps.old) (S.seen exit.now) (S.seen kept.now) pages.now (λ t. Rises (S.starts steps.old) (S.starts steps.new) (count_in (take t pages.now))) }
{
    let mut runs = Vec::new(alloc);
    for page in pages {
        if has_met(steps, exit, kept, pages, &runs) {
            return Ok(Following { runs, met: true });
        }
        let entry = exit_after::<S>(exit, &runs);
        let run = run_page(alloc, steps, entry, &page.inputs, &[], &[])?;
        runs.push(run)?;
    }
    let met = has_met(steps, exit, kept, pages, &runs);
    Ok(Following { runs, met })
}
