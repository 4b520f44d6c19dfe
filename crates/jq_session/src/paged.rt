// A session that stands on the pages of a fold.
ghost use Rattle.std.specs.Prelude.{◌≡◌};
ghost use Rattle.jq_pages.specs.Contents.{folded_of};
ghost use Rattle.jq_session.specs.private.Kept.{Serves};

use crate::listing::add_copies;
use crate::refusals::{Refusal, refusal_of};
use crate::splices::Follow;
use crate::statuses::status_of;
use crate::writing::{Part, bytes_in, write_pieces};
use jq_devices::{Watched, Write};
use jq_filters::Filter;
use jq_pages::{
    Edited, NotStarted as PagesNotStarted, Pages, Steps, totals_count_bytes_and_failures,
};
use jv_data::{NoMemory, Val};
use std::alloc::Global;
use std::rc::Rc;

/// A session whose edits run the steps that the pages of a fold have to run. The pieces of the fold are what the filter's runs write.
#[derive(Drop)]
pub(crate) struct PagedSession<S: Steps> {
    filter: Rc<Filter>,
    pages: Pages<S>,
    ghost serves: { ∥ Serves filter.value (folded_of pages).fold ∥₁ },
}

impl<S: Steps> PagedSession<S> {
    ghost use Rattle.std.specs.Prelude.{Ok, ◌≤◌, ◌+◌, length, map, IfErr, IfOk, OnErr, OnOk};
    ghost use Rattle.std.specs.Io.KnownBytes.{Appends};
    ghost use Rattle.jv_data.specs.View.{view};
    ghost use Rattle.jq_devices.specs.Watched.{HasFailed, device_of, failures_of};
    ghost use Rattle.jq_devices.specs.Writing.{AppendsFirst};
    ghost use Rattle.jq_pages.specs.Contents.{starts_of};
    ghost use Rattle.jq_pages.specs.Edits.{insert, most_inputs, remove, replace};
    ghost use Rattle.jq_pages.specs.Refusals.{IsStartRefusal};
    ghost use Rattle.jq_session.specs.Sessions.{IsMoveRefusal, IsRefusal, paged_state};
    ghost use Rattle.jq_session.specs.Splices.{Follows, FollowsMove};
    ghost use Rattle.jq_session.specs.Starts.{IsFirstRun, IsMoveStarted, IsStarted};
    ghost use Rattle.jq_session.specs.States.{after, after_move, outcome, state_in};

    /// Runs these steps over the inputs.
    pub(crate) fn start(
        alloc: Global,
        filter: Rc<Filter>,
        steps: S,
        inputs: Vec<Val>,
    ) -> Result<PagedSession<S>, PagesNotStarted<S>>
        requires { ∥ Serves filter.value (S.fold steps) ∥₁ }
        ensures state { IfOk result (λ s. paged_state s ≡ state_in filter.value (map view inputs.items)) }
        ensures refused { IfErr result (λ n. IsStartRefusal n.refusal (length inputs.items)) }
        ensures started { IfOk result (λ s. IsFirstRun (state_in filter.value (map view inputs.items)) (S.starts steps) (starts_of s.pages)) }
        ensures at_most { IfErr result (λ n. IsFirstRun (state_in filter.value (map view inputs.items)) (S.starts steps) (S.starts n.steps)) }
    {
        match Pages::start(alloc, steps, inputs) {
            Ok(pages) => Ok(PagedSession { filter, pages }),
            Err(refused) => Err(refused),
        }
    }

    pub(crate) fn insert(&mut self, k: u64, value: Val) -> Result<Follow, Refusal>
        ensures edited { OnOk result (after (insert k (view value)) (paged_state self.old) ≡ Ok (paged_state self.new)) }
        ensures follow { IfOk result (λ follow. Follows follow (insert k (view value)) (paged_state self.old) (paged_state self.new)) }
        ensures refused { IfErr result (λ refusal. IsRefusal refusal (after (insert k (view value)) (paged_state self.old))) }
        ensures unchanged { OnErr result (paged_state self.new ≡ paged_state self.old) }
        ensures runs { IfOk result (λ follow. starts_of self.new.pages ≡ starts_of self.old.pages + follow.runs) }
        ensures started { IsStarted (insert k (view value)) (paged_state self.old) (starts_of self.old.pages) (starts_of self.new.pages) }
    {
        let before = self.starts();
        match self.pages.insert(k, value) {
            Ok(edited) => Ok(self.followed(edited, before)),
            Err(refusal) => Err(refusal_of(refusal)),
        }
    }

    pub(crate) fn replace(&mut self, k: u64, value: Val) -> Result<Follow, Refusal>
        ensures edited { OnOk result (after (replace k (view value)) (paged_state self.old) ≡ Ok (paged_state self.new)) }
        ensures follow { IfOk result (λ follow. Follows follow (replace k (view value)) (paged_state self.old) (paged_state self.new)) }
        ensures refused { IfErr result (λ refusal. IsRefusal refusal (after (replace k (view value)) (paged_state self.old))) }
        ensures unchanged { OnErr result (paged_state self.new ≡ paged_state self.old) }
        ensures runs { IfOk result (λ follow. starts_of self.new.pages ≡ starts_of self.old.pages + follow.runs) }
        ensures started { IsStarted (replace k (view value)) (paged_state self.old) (starts_of self.old.pages) (starts_of self.new.pages) }
    {
        let before = self.starts();
        match self.pages.replace(k, value) {
            Ok(edited) => Ok(self.followed(edited, before)),
            Err(refusal) => Err(refusal_of(refusal)),
        }
    }

    pub(crate) fn remove(&mut self, k: u64) -> Result<Follow, Refusal>
        ensures edited { OnOk result (after (remove k) (paged_state self.old) ≡ Ok (paged_state self.new)) }
        ensures follow { IfOk result (λ follow. Follows follow (remove k) (paged_state self.old) (paged_state self.new)) }
        ensures refused { IfErr result (λ refusal. IsRefusal refusal (after (remove k) (paged_state self.old))) }
        ensures unchanged { OnErr result (paged_state self.new ≡ paged_state self.old) }
        ensures runs { IfOk result (λ follow. starts_of self.new.pages ≡ starts_of self.old.pages + follow.runs) }
        ensures started { IsStarted (remove k) (paged_state self.old) (starts_of self.old.pages) (starts_of self.new.pages) }
    {
        let before = self.starts();
        match self.pages.remove(k) {
            Ok(edited) => Ok(self.followed(edited, before)),
            Err(refusal) => Err(refusal_of(refusal)),
        }
    }

    pub(crate) fn shift(&mut self, k: u64, l: u64) -> Result<(Follow, Follow), Refusal>
        ensures moved { OnOk result (after_move k l (paged_state self.old) ≡ Ok (paged_state self.new)) }
        ensures follow { IfOk result (λ r. FollowsMove r.0 r.1 k l (paged_state self.old) (paged_state self.new)) }
        ensures refused { IfErr result (λ refusal. IsMoveRefusal refusal (after_move k l (paged_state self.old))) }
        ensures unchanged { OnErr result (paged_state self.new ≡ paged_state self.old) }
        ensures runs { IfOk result (λ r. starts_of self.new.pages ≡ starts_of self.old.pages + (r.0.runs + r.1.runs)) }
        ensures started { IsMoveStarted k l (paged_state self.old) (starts_of self.old.pages) (starts_of self.new.pages) }
    {
        let before = self.starts();
        match self.pages.shift(k, l) {
            Ok(moved) => {
                let first = Follow {
                    out: moved.removal.out,
                    err: moved.removal.err,
                    status: status_of(self.filter.settings().exit, moved.between),
                    runs: moved.starts - before,
                };
                let second = self.followed(moved.insertion, moved.starts);
                Ok((first, second))
            }
            Err(refusal) => Err(refusal_of(refusal)),
        }
    }

    // The answer to an edit, before which the count of starts was this one.
    fn followed(&self, edited: Edited, before: u64) -> Follow
        requires { before ≤ starts_of self.now.pages }
        ensures out { result.out ≡ edited.out }
        ensures err { result.err ≡ edited.err }
        ensures status { result.status ≡ (outcome (paged_state self.now)).status }
        ensures runs { starts_of self.now.pages ≡ before + result.runs }
    {
        Follow {
            out: edited.out,
            err: edited.err,
            status: self.status(),
            runs: self.starts() - before,
        }
    }

    /// Copies of the inputs.
    pub(crate) fn inputs(&self, alloc: Global) -> Result<Vec<Val>, NoMemory>
        ensures copied { IfOk result (λ inputs. map view inputs.items ≡ (paged_state self.now).inputs) }
        ensures room { IfOk result (λ inputs. length inputs.items ≤ most_inputs) }
    {
        let mut inputs = Vec::with_capacity(alloc, self.len() as usize)?;
        for j in 0..self.pages.page_count() {
            add_copies(&mut inputs, self.pages.inputs(j))?;
        }
        Ok(inputs)
    }

    /// The output and the errors.
    pub(crate) fn written(&self, alloc: Global) -> Result<(Vec<u8>, Vec<u8>), NoMemory>
        ensures output { IfOk result (λ w. w.0.items ≡ (outcome (paged_state self.now)).output) }
        ensures errors { IfOk result (λ w. w.1.items ≡ (outcome (paged_state self.now)).errors) }
    {
        let output = bytes_in(alloc, &self.pages, Part::Output)?;
        let errors = bytes_in(alloc, &self.pages, Part::Errors)?;
        Ok((output, errors))
    }

    /// Gives the steps back.
    pub(crate) fn into_steps(self) -> S
        ensures { S.starts result ≡ starts_of self.pages }
    {
        self.pages.into_steps()
    }

    /// The count of starts.
    pub(crate) fn starts(&self) -> u64
        ensures { result ≡ starts_of self.now.pages }
    {
        self.pages.steps().count()
    }

    pub(crate) fn status(&self) -> u8
        ensures { result ≡ (outcome (paged_state self.now)).status }
    {
        status_of(self.filter.settings().exit, self.pages.totals())
    }

    pub(crate) fn len(&self) -> u64
        ensures count { result ≡ length (paged_state self.now).inputs }
        ensures bound { result ≤ most_inputs }
    {
        self.pages.len()
    }

    pub(crate) fn out_len(&self) -> u128
        ensures { result ≡ length (outcome (paged_state self.now)).output }
    {
        totals_count_bytes_and_failures();
        self.pages.totals().out
    }

    pub(crate) fn err_len(&self) -> u128
        ensures { result ≡ length (outcome (paged_state self.now)).errors }
    {
        totals_count_bytes_and_failures();
        self.pages.totals().err
    }

    pub(crate) fn write_out<W: Write>(&self, writer: &mut Watched<W>) -> Result<(), Refusal>
        ensures ok { OnOk result (Appends (W.contents (device_of writer.old)) (W.contents (device_of writer.new)) (outcome (paged_state self.now)).output) }
        ensures err { OnErr result (AppendsFirst (W.contents (device_of writer.old)) (W.contents (device_of writer.new)) (outcome (paged_state self.now)).output) }
        ensures unfailed { OnOk result (failures_of writer.new ≡ failures_of writer.old) }
        ensures failed { OnErr result (HasFailed (failures_of writer.old) (failures_of writer.new)) }
        ensures fault { IfErr result (λ refusal. refusal ≡ Refusal.Write) }
    {
        write_pieces(&self.pages, Part::Output, writer).map_err(|_| Refusal::Write)
    }

    pub(crate) fn write_err<W: Write>(&self, writer: &mut Watched<W>) -> Result<(), Refusal>
        ensures ok { OnOk result (Appends (W.contents (device_of writer.old)) (W.contents (device_of writer.new)) (outcome (paged_state self.now)).errors) }
        ensures err { OnErr result (AppendsFirst (W.contents (device_of writer.old)) (W.contents (device_of writer.new)) (outcome (paged_state self.now)).errors) }
        ensures unfailed { OnOk result (failures_of writer.new ≡ failures_of writer.old) }
        ensures failed { OnErr result (HasFailed (failures_of writer.old) (failures_of writer.new)) }
        ensures fault { IfErr result (λ refusal. refusal ≡ Refusal.Write) }
    {
        write_pieces(&self.pages, Part::Errors, writer).map_err(|_| Refusal::Write)
    }
}
