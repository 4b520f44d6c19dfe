// How a session follows an edit.
ghost use Rattle.jq_session.specs.private.Plans.{IsFollowing};

use jq_filters::{Filter, Mode};
use jq_inputs::Plan;

/// How a session follows an edit.
#[derive(Clone, Copy)]
pub(crate) enum Following {
    /// It runs the edited input alone.
    Each,
    /// It runs the steps of the filter's fold, up to a page after which the state is unchanged.
    Fold,
    /// It runs the inputs up to the first whose run halts, up to a page after which it is as before whether a run has halted.
    UntilHalt,
    /// It makes the one run again.
    Whole,
}

/// How a session follows the edits of this filter's inputs.
pub(crate) fn plan_for(filter: &Filter) -> Following
    ensures { IsFollowing result filter.now }
{
    match filter.settings().mode {
        Mode::OnEach => {
            if filter.halts() {
                Following::UntilHalt
            } else {
                Following::Each
            }
        }
        Mode::OnNull { reads: true } => match filter.plan() {
            Plan::Fold => Following::Fold,
            Plan::PerInput | Plan::Whole => Following::Whole,
        },
        Mode::OnNull { reads: false } | Mode::OnAll => Following::Whole,
    }
}
