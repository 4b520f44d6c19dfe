// Laws of the pieces of runs on each input.
ghost use Rattle.std.specs.Prelude.{◌≡◌, List, length};
ghost use Rattle.jv_data.specs.Value.{Value};
ghost use Rattle.jq_pages.specs.Contents.{folded_in};
ghost use Rattle.jq_pages.specs.Folds.{all, errors, output};
ghost use Rattle.jq_pages.specs.Totals.{totals};
ghost use Rattle.jq_filters.specs.Outcomes.{Job, on_each};
ghost use Rattle.jq_filters.specs.Pieces.{each_fold, status_in};
ghost use Rattle.jq_filters.specs.Present.{run_count, values_outcome};
ghost use Rattle.jq_filters.specs.Unhalted.{NeverHalts};

/// If no run halts, the outcome of the runs on each input is that of their pieces, one after the other: the output and the errors are
/// theirs joined, and the status depends on their totals. Each input has one run.
#[tactic(auto, using(crate::proofs::Piecing::pieces_printed, crate::proofs::Piecing::pieces_reported, crate::proofs::Piecing::pieces_status, crate::proofs::Piecing::pieces_counted))]
pub fn pieces_are_the_outcome()
    ensures output { (job : Job) (vs : List Value) → NeverHalts job.run → output (folded_in (each_fold job) vs) ≡ (values_outcome on_each job vs).output }
    ensures errors { (job : Job) (vs : List Value) → NeverHalts job.run → errors (folded_in (each_fold job) vs) ≡ (values_outcome on_each job vs).errors }
    ensures status { (job : Job) (vs : List Value) → NeverHalts job.run → status_in job.exit (totals (all (folded_in (each_fold job) vs))) ≡ (values_outcome on_each job vs).status }
    ensures runs { (job : Job) (vs : List Value) → NeverHalts job.run → run_count on_each job vs ≡ length vs }
{}
