// What a session keeps, by how an edit is followed.
ghost use Rattle.std.specs.Prelude.{◌≡◌, ◌≤◌, length, map, IfErr, IfOk};
ghost use Rattle.jv_data.specs.View.{view};
ghost use Rattle.jq_pages.specs.Edits.{most_inputs};
ghost use Rattle.jq_starts.specs.Starts.{starts_in};
ghost use Rattle.jq_session.specs.Sessions.{IsStartRefusal, starts_kept, state_kept};
ghost use Rattle.jq_session.specs.Starts.{IsFirstRun};
ghost use Rattle.jq_session.specs.States.{outcome, state_in};

use crate::each::EachInput;
use crate::paged::PagedSession;
use crate::paging::{start_each, start_fold, start_until_halt};
use crate::plans::{Following, plan_for};
use crate::refusals::NotStarted;
use crate::until_halt::UntilHalt;
use crate::whole::WholeSession;
use jq_filters::Filter;
use jq_fold_steps::FoldSteps;
use jq_starts::Starts;
use jv_data::{NoMemory, Val};
use std::alloc::Global;

/// What is kept, by how an edit is followed.
pub(crate) enum Kept {
    Each(PagedSession<EachInput>),
    Fold(PagedSession<FoldSteps>),
    UntilHalt(PagedSession<UntilHalt>),
    Whole(WholeSession),
}

impl Drop for Kept {
    fn drop(self) {
        match self {
            Kept::Each(_) => {}
            Kept::Fold(_) => {}
            Kept::UntilHalt(_) => {}
            Kept::Whole(_) => {}
        }
    }
}

impl Kept {
    /// Makes the runs of a filter on these inputs.
    pub(crate) fn start(
        alloc: Global,
        starts: Starts,
        filter: Filter,
        inputs: Vec<Val>,
    ) -> Result<Kept, NotStarted>
        requires { length inputs.items ≤ most_inputs }
        ensures state { IfOk result (λ kept. state_kept kept ≡ state_in filter (map view inputs.items)) }
        ensures refused { IfErr result (λ n. IsStartRefusal n.refusal (length inputs.items)) }
        ensures started { IfOk result (λ kept. IsFirstRun (state_in filter (map view inputs.items)) (starts_in starts) (starts_kept kept)) }
        ensures at_most { IfErr result (λ n. IsFirstRun (state_in filter (map view inputs.items)) (starts_in starts) (starts_in n.starts)) }
    {
        Ok(match plan_for(&filter) {
            Following::Each => Kept::Each(start_each(alloc, starts, filter, inputs)?),
            Following::Fold => Kept::Fold(start_fold(alloc, starts, filter, inputs)?),
            Following::UntilHalt => {
                Kept::UntilHalt(start_until_halt(alloc, starts, filter, inputs)?)
            }
            Following::Whole => Kept::Whole(WholeSession::start(alloc, starts, filter, inputs)?),
        })
    }

    /// Copies of the inputs.
    pub(crate) fn inputs(&self, alloc: Global) -> Result<Vec<Val>, NoMemory>
        ensures copied { IfOk result (λ inputs. map view inputs.items ≡ (state_kept self.now).inputs) }
        ensures room { IfOk result (λ inputs. length inputs.items ≤ most_inputs) }
    {
        match self {
            Kept::Each(session) => session.inputs(alloc),
            Kept::Fold(session) => session.inputs(alloc),
            Kept::UntilHalt(session) => session.inputs(alloc),
            Kept::Whole(session) => session.inputs(),
        }
    }

    /// The output and the errors.
    pub(crate) fn written(&self, alloc: Global) -> Result<(Vec<u8>, Vec<u8>), NoMemory>
        ensures output { IfOk result (λ w. w.0.items ≡ (outcome (state_kept self.now)).output) }
        ensures errors { IfOk result (λ w. w.1.items ≡ (outcome (state_kept self.now)).errors) }
    {
        match self {
            Kept::Each(session) => session.written(alloc),
            Kept::Fold(session) => session.written(alloc),
            Kept::UntilHalt(session) => session.written(alloc),
            Kept::Whole(session) => session.written(),
        }
    }

    pub(crate) fn status(&self) -> u8
        ensures { result ≡ (outcome (state_kept self.now)).status }
    {
        match self {
            Kept::Each(session) => session.status(),
            Kept::Fold(session) => session.status(),
            Kept::UntilHalt(session) => session.status(),
            Kept::Whole(session) => session.status(),
        }
    }

    /// The count of starts.
    pub(crate) fn starts(&self) -> u64
        ensures { result ≡ starts_kept self.now }
    {
        match self {
            Kept::Each(session) => session.starts(),
            Kept::Fold(session) => session.starts(),
            Kept::UntilHalt(session) => session.starts(),
            Kept::Whole(session) => session.starts(),
        }
    }

    /// Gives the count of starts back.
    pub(crate) fn into_starts(self) -> Starts
        ensures { starts_in result ≡ starts_kept self }
    {
        match self {
            Kept::Each(session) => session.into_steps().starts,
            Kept::Fold(session) => session.into_steps().into_starts(),
            Kept::UntilHalt(session) => session.into_steps().starts,
            Kept::Whole(session) => session.into_starts(),
        }
    }
}
