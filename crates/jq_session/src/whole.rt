// A session whose edits make all runs again.
ghost use Rattle.std.specs.Prelude.{◌≡◌, ◌≤◌, ◌+◌, length, map, IfOk};
ghost use Rattle.jv_data.specs.View.{view};
ghost use Rattle.jq_pages.specs.Edits.{most_inputs};
ghost use Rattle.jq_pages.specs.Folds.{Rises};
ghost use Rattle.jq_starts.specs.Starts.{starts_in};
ghost use Rattle.jq_filters.specs.Filters.{filter_job, filter_mode};
ghost use Rattle.jq_filters.specs.Present.{values_outcome};
ghost use Rattle.jq_session.specs.Splices.{ReplacesAll};
ghost use Rattle.jq_session.specs.private.Runs.{runs_over};

use crate::listing::joined;
use crate::refusals::{NotStarted, Refusal};
use crate::splices::{Follow, replace_all};
use jq_devices::{Watched, Write, write};
use jq_filters::Filter;
use jq_pages::MOST_INPUTS;
use jq_starts::Starts;
use jq_stream::{Written, run_values};
use jv_data::{NoMemory, Val, copies};
use std::alloc::Global;

/// A filter, its inputs and what its runs wrote. It owns the count of its starts.
#[derive(Drop)]
pub(crate) struct WholeSession {
    alloc: Global,
    filter: Filter,
    starts: Starts,
    inputs: Vec<Val>,
    written: Written,
    ghost not_over_full: { length inputs.items ≤ most_inputs },
    ghost output: { written.output.items ≡ (values_outcome (filter_mode filter) (filter_job filter) (map view inputs.items)).output },
    ghost errors: { written.errors.items ≡ (values_outcome (filter_mode filter) (filter_job filter) (map view inputs.items)).errors },
    ghost status: { written.status ≡ (values_outcome (filter_mode filter) (filter_job filter) (map view inputs.items)).status },
}

impl WholeSession {
    ghost use Rattle.std.specs.Prelude.{Ok, IfErr, OnErr, OnOk};
    ghost use Rattle.std.specs.Io.KnownBytes.{Appends};
    ghost use Rattle.jq_devices.specs.Watched.{HasFailed, device_of, failures_of};
    ghost use Rattle.jq_devices.specs.Writing.{AppendsFirst};
    ghost use Rattle.jq_pages.specs.Edits.{Edit, insert, remove, replace};
    ghost use Rattle.jq_session.specs.Sessions.{IsMoveRefusal, IsRefusal, IsStartRefusal, whole_state};
    ghost use Rattle.jq_session.specs.Splices.{Follows, FollowsMove};
    ghost use Rattle.jq_session.specs.Starts.{IsMoveStarted, IsStarted};
    ghost use Rattle.jq_session.specs.States.{after, after_move, outcome, over};

    /// Makes all runs on these inputs.
    pub(crate) fn start(
        alloc: Global,
        starts: Starts,
        filter: Filter,
        inputs: Vec<Val>,
    ) -> Result<WholeSession, NotStarted>
        requires { length inputs.items ≤ most_inputs }
        ensures filter { IfOk result (λ s. s.filter ≡ filter) }
        ensures inputs { IfOk result (λ s. s.inputs ≡ inputs) }
        ensures refused { IfErr result (λ n. IsStartRefusal n.refusal (length inputs.items)) }
        ensures started { IfOk result (λ s. Rises (starts_in starts) (starts_in s.starts) (runs_over filter (map view inputs.items))) }
        ensures at_most { IfErr result (λ n. Rises (starts_in starts) (starts_in n.starts) (runs_over filter (map view inputs.items))) }
    {
        let mut starts = starts;
        let settings = filter.settings();
        match run_values(alloc, &filter.runner(), settings, &mut starts, &inputs) {
            Ok(written) => Ok(WholeSession {
                alloc,
                filter,
                starts,
                inputs,
                written,
            }),
            Err(NoMemory) => Err(NotStarted {
                starts,
                refusal: Refusal::NoMemory,
            }),
        }
    }

    pub(crate) fn insert(&mut self, k: u64, value: Val) -> Result<Follow, Refusal>
        ensures edited { OnOk result (after (insert k (view value)) (whole_state self.old) ≡ Ok (whole_state self.new)) }
        ensures follow { IfOk result (λ follow. Follows follow (insert k (view value)) (whole_state self.old) (whole_state self.new)) }
        ensures refused { IfErr result (λ refusal. IsRefusal refusal (after (insert k (view value)) (whole_state self.old))) }
        ensures unchanged { OnErr result (whole_state self.new ≡ whole_state self.old) }
        ensures runs { IfOk result (λ follow. starts_in self.new.starts ≡ starts_in self.old.starts + follow.runs) }
        ensures started { IsStarted (insert k (view value)) (whole_state self.old) (starts_in self.old.starts) (starts_in self.new.starts) }
    {
        if k > self.len() {
            return Err(Refusal::NoPlace);
        }
        if self.inputs.len() == MOST_INPUTS {
            return Err(Refusal::Full);
        }
        let at = k as usize;
        let inputs = joined(
            self.alloc,
            &self.inputs[..at],
            Some(value),
            &self.inputs[at..],
        )?;
        Ok(self.follow(inputs)?)
    }

    pub(crate) fn replace(&mut self, k: u64, value: Val) -> Result<Follow, Refusal>
        ensures edited { OnOk result (after (replace k (view value)) (whole_state self.old) ≡ Ok (whole_state self.new)) }
        ensures follow { IfOk result (λ follow. Follows follow (replace k (view value)) (whole_state self.old) (whole_state self.new)) }
        ensures refused { IfErr result (λ refusal. IsRefusal refusal (after (replace k (view value)) (whole_state self.old))) }
        ensures unchanged { OnErr result (whole_state self.new ≡ whole_state self.old) }
        ensures runs { IfOk result (λ follow. starts_in self.new.starts ≡ starts_in self.old.starts + follow.runs) }
        ensures started { IsStarted (replace k (view value)) (whole_state self.old) (starts_in self.old.starts) (starts_in self.new.starts) }
    {
        if k >= self.len() {
            return Err(Refusal::NoPlace);
        }
        let place = k as usize;
        let inputs = joined(
            self.alloc,
            &self.inputs[..place],
            Some(value),
            &self.inputs[place + 1..],
        )?;
        Ok(self.follow(inputs)?)
    }

    pub(crate) fn remove(&mut self, k: u64) -> Result<Follow, Refusal>
        ensures edited { OnOk result (after (remove k) (whole_state self.old) ≡ Ok (whole_state self.new)) }
        ensures follow { IfOk result (λ follow. Follows follow (remove k) (whole_state self.old) (whole_state self.new)) }
        ensures refused { IfErr result (λ refusal. IsRefusal refusal (after (remove k) (whole_state self.old))) }
        ensures unchanged { OnErr result (whole_state self.new ≡ whole_state self.old) }
        ensures runs { IfOk result (λ follow. starts_in self.new.starts ≡ starts_in self.old.starts + follow.runs) }
        ensures started { IsStarted (remove k) (whole_state self.old) (starts_in self.old.starts) (starts_in self.new.starts) }
    {
        if k >= self.len() {
            return Err(Refusal::NoPlace);
        }
        let gap = k as usize;
        let inputs = joined(
            self.alloc,
            &self.inputs[..gap],
            None,
            &self.inputs[gap + 1..],
        )?;
        Ok(self.follow(inputs)?)
    }

    pub(crate) fn shift(&mut self, k: u64, l: u64) -> Result<(Follow, Follow), Refusal>
        ensures moved { OnOk result (after_move k l (whole_state self.old) ≡ Ok (whole_state self.new)) }
        ensures follow { IfOk result (λ r. FollowsMove r.0 r.1 k l (whole_state self.old) (whole_state self.new)) }
        ensures refused { IfErr result (λ refusal. IsMoveRefusal refusal (after_move k l (whole_state self.old))) }
        ensures unchanged { OnErr result (whole_state self.new ≡ whole_state self.old) }
        ensures runs { IfOk result (λ r. starts_in self.new.starts ≡ starts_in self.old.starts + (r.0.runs + r.1.runs)) }
        ensures started { IsMoveStarted k l (whole_state self.old) (starts_in self.old.starts) (starts_in self.new.starts) }
    {
        if k >= self.len() || l >= self.len() {
            return Err(Refusal::NoPlace);
        }
        let (from, to) = (k as usize, l as usize);
        let all = &self.inputs;
        let value = all[from].copy()?;
        let others = joined(self.alloc, &all[..from], None, &all[from + 1..])?;
        let inputs = joined(self.alloc, &others[..to], Some(value), &others[to..])?;
        Ok(self.follow_move(&others, inputs)?)
    }

    // Runs the filter over other inputs, and takes these inputs unless memory runs out.
    fn follow(&mut self, inputs: Vec<Val>) -> Result<Follow, NoMemory>
        requires { length inputs.items ≤ most_inputs }
        ensures edited { OnOk result (whole_state self.new ≡ over (whole_state self.old) (map view inputs.items)) }
        ensures follow { IfOk result (λ follow. (edit : Edit) → Follows follow edit (whole_state self.old) (whole_state self.new)) }
        ensures unchanged { OnErr result (whole_state self.new ≡ whole_state self.old) }
        ensures runs { IfOk result (λ follow. starts_in self.new.starts ≡ starts_in self.old.starts + follow.runs) }
        ensures rises { Rises (starts_in self.old.starts) (starts_in self.new.starts) (runs_over self.old.filter (map view inputs.items)) }
    {
        let (written, runs) = run_over(self.alloc, &self.filter, &mut self.starts, &inputs)?;
        let follow = answer(self.alloc, &self.written, &written, runs)?;
        self.inputs = inputs;
        self.written = written;
        Ok(follow)
    }

    // Runs the filter over all inputs but one, and then over all of them in another order, and takes these unless memory runs out.
    fn follow_move(
        &mut self,
        others: &[Val],
        inputs: Vec<Val>,
    ) -> Result<(Follow, Follow), NoMemory>
        requires { length inputs.items ≤ most_inputs }
        ensures moved { OnOk result (whole_state self.new ≡ over (whole_state self.old) (map view inputs.items)) }
        ensures first { IfOk result (λ r. (edit : Edit) → Follows r.0 edit (whole_state self.old) (over (whole_state self.old) (map view others.now))) }
        ensures second { IfOk result (λ r. (edit : Edit) → Follows r.1 edit (over (whole_state self.old) (map view others.now)) (whole_state self.new)) }
        ensures unchanged { OnErr result (whole_state self.new ≡ whole_state self.old) }
        ensures runs { IfOk result (λ r. starts_in self.new.starts ≡ starts_in self.old.starts + (r.0.runs + r.1.runs)) }
        ensures rises { Rises (starts_in self.old.starts) (starts_in self.new.starts) (runs_over self.old.filter (map view others.now) + runs_over self.old.filter (map view inputs.items)) }
    {
        let (between, first_runs) = run_over(self.alloc, &self.filter, &mut self.starts, others)?;
        let (written, runs) = run_over(self.alloc, &self.filter, &mut self.starts, &inputs)?;
        let first = answer(self.alloc, &self.written, &between, first_runs)?;
        let second = answer(self.alloc, &between, &written, runs)?;
        self.inputs = inputs;
        self.written = written;
        Ok((first, second))
    }

    /// Copies of the inputs.
    pub(crate) fn inputs(&self) -> Result<Vec<Val>, NoMemory>
        ensures copied { IfOk result (λ inputs. map view inputs.items ≡ (whole_state self.now).inputs) }
        ensures room { IfOk result (λ inputs. length inputs.items ≤ most_inputs) }
    {
        Ok(copies(self.alloc, &self.inputs)?)
    }

    /// The output and the errors.
    pub(crate) fn written(&self) -> Result<(Vec<u8>, Vec<u8>), NoMemory>
        ensures output { IfOk result (λ w. w.0.items ≡ (outcome (whole_state self.now)).output) }
        ensures errors { IfOk result (λ w. w.1.items ≡ (outcome (whole_state self.now)).errors) }
    {
        let output = Vec::from_slice(self.alloc, &self.written.output)?;
        let errors = Vec::from_slice(self.alloc, &self.written.errors)?;
        Ok((output, errors))
    }

    /// Gives the count of starts back.
    pub(crate) fn into_starts(self) -> Starts
        ensures { result ≡ self.starts }
    {
        self.starts
    }

    /// The count of starts.
    pub(crate) fn starts(&self) -> u64
        ensures { result ≡ starts_in self.now.starts }
    {
        self.starts.count()
    }

    pub(crate) fn status(&self) -> u8
        ensures { result ≡ (outcome (whole_state self.now)).status }
    {
        self.written.status
    }

    pub(crate) fn len(&self) -> u64
        ensures count { result ≡ length (whole_state self.now).inputs }
        ensures bound { result ≤ most_inputs }
    {
        self.inputs.len() as u64
    }

    pub(crate) fn out_len(&self) -> u128
        ensures { result ≡ length (outcome (whole_state self.now)).output }
    {
        self.written.output.len() as u128
    }

    pub(crate) fn err_len(&self) -> u128
        ensures { result ≡ length (outcome (whole_state self.now)).errors }
    {
        self.written.errors.len() as u128
    }

    pub(crate) fn write_out<W: Write>(&self, writer: &mut Watched<W>) -> Result<(), Refusal>
        ensures ok { OnOk result (Appends (W.contents (device_of writer.old)) (W.contents (device_of writer.new)) (outcome (whole_state self.now)).output) }
        ensures err { OnErr result (AppendsFirst (W.contents (device_of writer.old)) (W.contents (device_of writer.new)) (outcome (whole_state self.now)).output) }
        ensures unfailed { OnOk result (failures_of writer.new ≡ failures_of writer.old) }
        ensures failed { OnErr result (HasFailed (failures_of writer.old) (failures_of writer.new)) }
        ensures fault { IfErr result (λ refusal. refusal ≡ Refusal.Write) }
    {
        write(writer, &self.written.output).map_err(|_| Refusal::Write)
    }

    pub(crate) fn write_err<W: Write>(&self, writer: &mut Watched<W>) -> Result<(), Refusal>
        ensures ok { OnOk result (Appends (W.contents (device_of writer.old)) (W.contents (device_of writer.new)) (outcome (whole_state self.now)).errors) }
        ensures err { OnErr result (AppendsFirst (W.contents (device_of writer.old)) (W.contents (device_of writer.new)) (outcome (whole_state self.now)).errors) }
        ensures unfailed { OnOk result (failures_of writer.new ≡ failures_of writer.old) }
        ensures failed { OnErr result (HasFailed (failures_of writer.old) (failures_of writer.new)) }
        ensures fault { IfErr result (λ refusal. refusal ≡ Refusal.Write) }
    {
        write(writer, &self.written.errors).map_err(|_| Refusal::Write)
    }
}

// What the runs on these inputs write, and how many starts were counted.
fn run_over(
    alloc: Global,
    filter: &Filter,
    starts: &mut Starts,
    inputs: &[Val],
) -> Result<(Written, u64), NoMemory>
    ensures output { IfOk result (λ r. r.0.output.items ≡ (values_outcome (filter_mode filter.now) (filter_job filter.now) (map view inputs.now)).output) }
    ensures errors { IfOk result (λ r. r.0.errors.items ≡ (values_outcome (filter_mode filter.now) (filter_job filter.now) (map view inputs.now)).errors) }
    ensures status { IfOk result (λ r. r.0.status ≡ (values_outcome (filter_mode filter.now) (filter_job filter.now) (map view inputs.now)).status) }
    ensures runs { IfOk result (λ r. starts_in starts.new ≡ starts_in starts.old + r.1) }
    ensures rises { Rises (starts_in starts.old) (starts_in starts.new) (runs_over filter.now (map view inputs.now)) }
{
    let before = starts.count();
    let settings = filter.settings();
    let written = run_values(alloc, &filter.runner(), settings, starts, inputs)?;
    Ok((written, starts.count() - before))
}

// The answer where other bytes were written than before, by so many runs.
fn answer(alloc: Global, old: &Written, new: &Written, runs: u64) -> Result<Follow, NoMemory>
    ensures out { IfOk result (λ follow. ReplacesAll follow.out old.now.output.items new.now.output.items) }
    ensures err { IfOk result (λ follow. ReplacesAll follow.err old.now.errors.items new.now.errors.items) }
    ensures status { IfOk result (λ follow. follow.status ≡ new.now.status) }
    ensures runs { IfOk result (λ follow. follow.runs ≡ runs) }
{
    Ok(Follow {
        out: replace_all(alloc, &old.output, &new.output)?,
        err: replace_all(alloc, &old.errors, &new.errors)?,
        status: new.status,
        runs,
    })
}
