// What an edit runs, before anything changes.
ghost use Rattle.std.specs.Prelude.{◌≡◌, ◌+◌, ◌<◌, ◌≤◌, ◌^◌, length, IfOk};
ghost use Rattle.jq_pages.specs.private.Made.{IsMade, IsMadeStart};

use crate::following::{exit_after, follow};
use crate::page::{Page, Rerun};
use crate::pieces::Piece;
use crate::running::run_page;
use crate::steps::Steps;
use jv_data::{NoMemory, Val};
use std::alloc::Global;

/// What was run for an edit: the edited page, the first pages after it, and `close` if the runs reached the end without meeting the
/// old state.
#[derive(Drop)]
pub(crate) struct Made<T> {
    pub(crate) run: Rerun<T>,
    pub(crate) runs: Vec<Rerun<T>>,
    pub(crate) tail: Option<Piece>,
}

// Runs over the inputs of a page with `cut` of them replaced, and over the pages after it up to the first that ends in the state
// that it had.
pub(crate) fn run_edit<S: Steps>(
    alloc: Global,
    steps: &mut S,
    entry: &S::State,
    page: &Page<S::State>,
    after: &[Page<S::State>],
    i: usize,
    put: &[Val],
    cut: usize,
) -> Result<Made<S::State>, NoMemory>
    requires small { i + cut < 2 ^ 32 }
    requires place { i + cut ≤ length page.now.inputs.items }
    ensures made { IfOk result (λ e. IsMade S.seen (S.fold steps.old) (S.seen entry.now) page.now after.now i put.now cut e) }
    ensures same { S.fold steps.new ≡ S.fold steps.old }
    ensures starts { IsMadeStart S.seen (S.fold steps.old) (S.seen entry.now) page.now after.now i put.now cut (S.starts steps.old) (S.starts steps.new) }
{
    let run = run_page(
        alloc,
        steps,
        entry,
        &page.inputs[..i],
        put,
        &page.inputs[i + cut..],
    )?;
    let following = follow(alloc, steps, &run.exit, &page.exit, after)?;
    if following.met {
        return Ok(Made {
            run,
            runs: following.runs,
            tail: None,
        });
    }
    let closing = steps.close(exit_after::<S>(&run.exit, &following.runs))?;
    Ok(Made {
        run,
        runs: following.runs,
        tail: Some(closing),
    })
}
