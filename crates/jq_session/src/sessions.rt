// A filter over a list of inputs that is edited.
use crate::kept::Kept;
use crate::refusals::{NotStarted, Refusal};
use crate::splices::{Follow, all_of};
use jq_devices::{Watched, Write};
use jq_filters::Filter;
use jq_pages::MOST_INPUTS;
use jq_starts::Starts;
use jq_syntax::Options;
use jv_data::{NoMemory, Val};
use std::alloc::Global;
use std::mem;

/// A filter over a list of inputs that is edited. Its output, its errors and its status are always those of runs from scratch
/// on the present inputs, which are numbered from 0.
#[derive(Drop)]
pub struct Session {
    alloc: Global,
    options: Options,
    kept: Kept,
}

impl Session {
    ghost use Rattle.std.specs.Prelude.{◌≡◌, ◌+◌, ◌<◌, ◌≤◌, Ok, length, map, IfErr, IfOk, OnErr, OnOk};
    ghost use Rattle.std.specs.Io.KnownBytes.{Appends};
    ghost use Rattle.jv_data.specs.View.{view};
    ghost use Rattle.jq_devices.specs.Watched.{HasFailed, device_of, failures_of};
    ghost use Rattle.jq_devices.specs.Writing.{AppendsFirst};
    ghost use Rattle.jq_pages.specs.Edits.{insert, most_inputs, remove, replace};
    ghost use Rattle.jq_starts.specs.Starts.{starts_in};
    ghost use Rattle.jq_syntax.specs.Chosen.{chosen};
    ghost use Rattle.jq_session.specs.Sessions.{IsMoveRefusal, IsRefusal, IsStartRefusal, options_of, point_of, starts_kept, starts_of, state_kept, state_of};
    ghost use Rattle.jq_session.specs.Splices.{Follows, FollowsFilter, FollowsMove};
    ghost use Rattle.jq_session.specs.Starts.{IsFirstRun, IsMoveStarted, IsStarted};
    ghost use Rattle.jq_session.specs.States.{after, after_move, outcome, refiltered, state_in};

    /// Starts a session of a filter over its first inputs, and makes the runs on them. Each start of the filter is counted. It is
    /// refused if there are more than 1,000,000 inputs, or if memory runs out; the count then comes back with the refusal. The options
    /// are those under which the filter was compiled; the session keeps them.
    pub fn start(
        alloc: Global,
        starts: Starts,
        options: Options,
        filter: Filter,
        inputs: Vec<Val>,
    ) -> Result<Session, NotStarted>
        ensures state { IfOk result (λ session. state_of session ≡ state_in filter (map view inputs.items)) }
        ensures room { OnOk result (length inputs.items ≤ most_inputs) }
        ensures refused { IfErr result (λ n. IsStartRefusal n.refusal (length inputs.items)) }
        ensures started { IfOk result (λ session. IsFirstRun (state_in filter (map view inputs.items)) (starts_in starts) (starts_of session)) }
        ensures at_most { IfErr result (λ n. IsFirstRun (state_in filter (map view inputs.items)) (starts_in starts) (starts_in n.starts)) }
        ensures full { most_inputs < length inputs.items → IfErr result (λ n. starts_in n.starts ≡ starts_in starts) }
        ensures options { IfOk result (λ session. options_of session ≡ chosen options) }
    {
        if inputs.len() > MOST_INPUTS {
            return Err(NotStarted {
                starts,
                refusal: Refusal::Full,
            });
        }
        let kept = Kept::start(alloc, starts, filter, inputs)?;
        Ok(Session {
            alloc,
            options,
            kept,
        })
    }

    /// Inserts an input in front of the one with this number, or after the last one if the number is the count.
    pub fn insert(&mut self, k: u64, value: Val) -> Result<Follow, Refusal>
        ensures edited { OnOk result (after (insert k (view value)) (state_of self.old) ≡ Ok (state_of self.new)) }
        ensures follow { IfOk result (λ follow. Follows follow (insert k (view value)) (state_of self.old) (state_of self.new)) }
        ensures refused { IfErr result (λ refusal. IsRefusal refusal (after (insert k (view value)) (state_of self.old))) }
        ensures unchanged { OnErr result (state_of self.new ≡ state_of self.old) }
        ensures runs { IfOk result (λ follow. starts_of self.new ≡ starts_of self.old + follow.runs) }
        ensures started { IsStarted (insert k (view value)) (state_of self.old) (starts_of self.old) (starts_of self.new) }
        ensures options { options_of self.new ≡ options_of self.old }
    {
        match &mut self.kept {
            Kept::Each(session) => session.insert(k, value),
            Kept::Fold(session) => session.insert(k, value),
            Kept::UntilHalt(session) => session.insert(k, value),
            Kept::Whole(session) => session.insert(k, value),
        }
    }

    /// Replaces an input by a value.
    pub fn replace(&mut self, k: u64, value: Val) -> Result<Follow, Refusal>
        ensures edited { OnOk result (after (replace k (view value)) (state_of self.old) ≡ Ok (state_of self.new)) }
        ensures follow { IfOk result (λ follow. Follows follow (replace k (view value)) (state_of self.old) (state_of self.new)) }
        ensures refused { IfErr result (λ refusal. IsRefusal refusal (after (replace k (view value)) (state_of self.old))) }
        ensures unchanged { OnErr result (state_of self.new ≡ state_of self.old) }
        ensures runs { IfOk result (λ follow. starts_of self.new ≡ starts_of self.old + follow.runs) }
        ensures started { IsStarted (replace k (view value)) (state_of self.old) (starts_of self.old) (starts_of self.new) }
        ensures options { options_of self.new ≡ options_of self.old }
    {
        match &mut self.kept {
            Kept::Each(session) => session.replace(k, value),
            Kept::Fold(session) => session.replace(k, value),
            Kept::UntilHalt(session) => session.replace(k, value),
            Kept::Whole(session) => session.replace(k, value),
        }
    }

    /// Removes an input.
    pub fn remove(&mut self, k: u64) -> Result<Follow, Refusal>
        ensures edited { OnOk result (after (remove k) (state_of self.old) ≡ Ok (state_of self.new)) }
        ensures follow { IfOk result (λ follow. Follows follow (remove k) (state_of self.old) (state_of self.new)) }
        ensures refused { IfErr result (λ refusal. IsRefusal refusal (after (remove k) (state_of self.old))) }
        ensures unchanged { OnErr result (state_of self.new ≡ state_of self.old) }
        ensures runs { IfOk result (λ follow. starts_of self.new ≡ starts_of self.old + follow.runs) }
        ensures started { IsStarted (remove k) (state_of self.old) (starts_of self.old) (starts_of self.new) }
        ensures options { options_of self.new ≡ options_of self.old }
    {
        match &mut self.kept {
            Kept::Each(session) => session.remove(k),
            Kept::Fold(session) => session.remove(k),
            Kept::UntilHalt(session) => session.remove(k),
            Kept::Whole(session) => session.remove(k),
        }
    }

    /// Adds an input after the last one.
    pub fn append(&mut self, value: Val) -> Result<Follow, Refusal>
        ensures edited { OnOk result (after (insert (length (state_of self.old).inputs) (view value)) (state_of self.old) ≡ Ok (state_of self.new)) }
        ensures follow { IfOk result (λ follow. Follows follow (insert (length (state_of self.old).inputs) (view value)) (state_of self.old) (state_of self.new)) }
        ensures refused { IfErr result (λ refusal. IsRefusal refusal (after (insert (length (state_of self.old).inputs) (view value)) (state_of self.old))) }
        ensures unchanged { OnErr result (state_of self.new ≡ state_of self.old) }
        ensures runs { IfOk result (λ follow. starts_of self.new ≡ starts_of self.old + follow.runs) }
        ensures started { IsStarted (insert (length (state_of self.old).inputs) (view value)) (state_of self.old) (starts_of self.old) (starts_of self.new) }
        ensures options { options_of self.new ≡ options_of self.old }
    {
        self.insert(self.len(), value)
    }

    /// Moves an input: input `k` is removed, and inserted at place `l` of the shorter list. The answers are those to the removal and
    /// to the insertion; the status of the second is the session's. If it is refused, nothing changed.
    pub fn shift(&mut self, k: u64, l: u64) -> Result<(Follow, Follow), Refusal>
        ensures moved { OnOk result (after_move k l (state_of self.old) ≡ Ok (state_of self.new)) }
        ensures follow { IfOk result (λ r. FollowsMove r.0 r.1 k l (state_of self.old) (state_of self.new)) }
        ensures refused { IfErr result (λ refusal. IsMoveRefusal refusal (after_move k l (state_of self.old))) }
        ensures unchanged { OnErr result (state_of self.new ≡ state_of self.old) }
        ensures runs { IfOk result (λ r. starts_of self.new ≡ starts_of self.old + (r.0.runs + r.1.runs)) }
        ensures started { IsMoveStarted k l (state_of self.old) (starts_of self.old) (starts_of self.new) }
        ensures options { options_of self.new ≡ options_of self.old }
    {
        match &mut self.kept {
            Kept::Each(session) => session.shift(k, l),
            Kept::Fold(session) => session.shift(k, l),
            Kept::UntilHalt(session) => session.shift(k, l),
            Kept::Whole(session) => session.shift(k, l),
        }
    }

    /// Runs another filter over the present inputs, with its own count of starts, and takes it unless memory runs out. Returns the
    /// answer, whose runs are those of the new filter, and the count of the old one. If it is refused, the session and its count are
    /// unchanged, and the count that was passed in comes back.
    pub fn refilter(
        &mut self,
        starts: Starts,
        filter: Filter,
    ) -> Result<(Follow, Starts), NotStarted>
        ensures taken { OnOk result (state_of self.new ≡ refiltered filter (state_of self.old)) }
        ensures follow { IfOk result (λ r. FollowsFilter r.0 (state_of self.old) (state_of self.new)) }
        ensures returned { IfOk result (λ r. starts_in r.1 ≡ starts_of self.old) }
        ensures runs { IfOk result (λ r. starts_of self.new ≡ starts_in starts + r.0.runs) }
        ensures started { OnOk result (IsFirstRun (state_of self.new) (starts_in starts) (starts_of self.new)) }
        ensures unchanged { OnErr result (point_of self.new ≡ point_of self.old) }
        ensures refused { IfErr result (λ n. (n.refusal ≡ Refusal.NoMemory) × IsFirstRun (refiltered filter (state_of self.old)) (starts_in starts) (starts_in n.starts)) }
        ensures options { options_of self.new ≡ options_of self.old }
    {
        let before = starts.count();
        let kept = self.kept_for(starts, filter)?;
        match kept.written(self.alloc) {
            Ok((output, errors)) => {
                let follow = Follow {
                    out: all_of(self.out_len(), output),
                    err: all_of(self.err_len(), errors),
                    status: kept.status(),
                    runs: kept.starts() - before,
                };
                let old = mem::replace(&mut self.kept, kept);
                Ok((follow, old.into_starts()))
            }
            Err(NoMemory) => Err(NotStarted {
                starts: kept.into_starts(),
                refusal: Refusal::NoMemory,
            }),
        }
    }

    // Makes the runs of a filter on copies of the inputs.
    fn kept_for(&self, starts: Starts, filter: Filter) -> Result<Kept, NotStarted>
        ensures state { IfOk result (λ kept. state_kept kept ≡ refiltered filter (state_of self.now)) }
        ensures started { IfOk result (λ kept. IsFirstRun (refiltered filter (state_of self.now)) (starts_in starts) (starts_kept kept)) }
        ensures refused { IfErr result (λ n. (n.refusal ≡ Refusal.NoMemory) × IsFirstRun (refiltered filter (state_of self.now)) (starts_in starts) (starts_in n.starts)) }
    {
        match self.kept.inputs(self.alloc) {
            Ok(inputs) => Kept::start(self.alloc, starts, filter, inputs),
            Err(NoMemory) => Err(NotStarted {
                starts,
                refusal: Refusal::NoMemory,
            }),
        }
    }

    /// Writes the output and flushes the writer. After a fault, the first bytes of it were written.
    pub fn write_out<W: Write>(&self, writer: &mut Watched<W>) -> Result<(), Refusal>
        ensures ok { OnOk result (Appends (W.contents (device_of writer.old)) (W.contents (device_of writer.new)) (outcome (state_of self.now)).output) }
        ensures err { OnErr result (AppendsFirst (W.contents (device_of writer.old)) (W.contents (device_of writer.new)) (outcome (state_of self.now)).output) }
        ensures unfailed { OnOk result (failures_of writer.new ≡ failures_of writer.old) }
        ensures failed { OnErr result (HasFailed (failures_of writer.old) (failures_of writer.new)) }
        ensures fault { IfErr result (λ refusal. refusal ≡ Refusal.Write) }
    {
        match &self.kept {
            Kept::Each(session) => session.write_out(writer),
            Kept::Fold(session) => session.write_out(writer),
            Kept::UntilHalt(session) => session.write_out(writer),
            Kept::Whole(session) => session.write_out(writer),
        }
    }

    /// Writes the errors' lines and flushes the writer. After a fault, the first bytes of them were written.
    pub fn write_err<W: Write>(&self, writer: &mut Watched<W>) -> Result<(), Refusal>
        ensures ok { OnOk result (Appends (W.contents (device_of writer.old)) (W.contents (device_of writer.new)) (outcome (state_of self.now)).errors) }
        ensures err { OnErr result (AppendsFirst (W.contents (device_of writer.old)) (W.contents (device_of writer.new)) (outcome (state_of self.now)).errors) }
        ensures unfailed { OnOk result (failures_of writer.new ≡ failures_of writer.old) }
        ensures failed { OnErr result (HasFailed (failures_of writer.old) (failures_of writer.new)) }
        ensures fault { IfErr result (λ refusal. refusal ≡ Refusal.Write) }
    {
        match &self.kept {
            Kept::Each(session) => session.write_err(writer),
            Kept::Fold(session) => session.write_err(writer),
            Kept::UntilHalt(session) => session.write_err(writer),
            Kept::Whole(session) => session.write_err(writer),
        }
    }

    /// The status of a run from scratch on the present inputs.
    pub fn status(&self) -> u8
        ensures { result ≡ (outcome (state_of self.now)).status }
    {
        self.kept.status()
    }

    /// How often the filter was started, by the count that came with it.
    pub fn starts(&self) -> u64
        ensures { result ≡ starts_of self.now }
    {
        self.kept.starts()
    }

    /// The options that the session was started with. Another filter is compiled under them.
    pub fn options(&self) -> &Options
        ensures { chosen result.now ≡ options_of self.now }
    {
        &self.options
    }

    /// Ends the session, and returns its count of starts.
    pub fn into_starts(self) -> Starts
        ensures { starts_in result ≡ starts_of self }
    {
        self.kept.into_starts()
    }

    /// The number of inputs.
    pub fn len(&self) -> u64
        ensures count { result ≡ length (state_of self.now).inputs }
        ensures bound { result ≤ most_inputs }
    {
        match &self.kept {
            Kept::Each(session) => session.len(),
            Kept::Fold(session) => session.len(),
            Kept::UntilHalt(session) => session.len(),
            Kept::Whole(session) => session.len(),
        }
    }

    /// The number of bytes of the output.
    pub fn out_len(&self) -> u128
        ensures { result ≡ length (outcome (state_of self.now)).output }
    {
        match &self.kept {
            Kept::Each(session) => session.out_len(),
            Kept::Fold(session) => session.out_len(),
            Kept::UntilHalt(session) => session.out_len(),
            Kept::Whole(session) => session.out_len(),
        }
    }

    /// The number of bytes of the errors' lines.
    pub fn err_len(&self) -> u128
        ensures { result ≡ length (outcome (state_of self.now)).errors }
    {
        match &self.kept {
            Kept::Each(session) => session.err_len(),
            Kept::Fold(session) => session.err_len(),
            Kept::UntilHalt(session) => session.err_len(),
            Kept::Whole(session) => session.err_len(),
        }
    }
}
