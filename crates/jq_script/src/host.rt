// The session that scripts are served from.
ghost use Rattle.std.specs.Prelude.{IsSome};

use jq_filters::Filter;
use jq_session::{Follow, Session};
use jq_starts::Starts;
use jv_data::NoMemory;

/// A session, and the count of starts for its next filter.
#[derive(Drop)]
pub struct Host {
    pub(crate) session: Session,
    spare: Option<Starts>,
    ghost ready: { IsSome spare },
}

impl Host {
    ghost use Rattle.std.specs.Prelude.{◌≡◌, ◌+◌, IfOk, OnErr, OnOk};
    ghost use Rattle.jq_starts.specs.Starts.{starts_in};
    ghost use Rattle.jq_session.specs.Sessions.{options_of, starts_of, state_of};
    ghost use Rattle.jq_session.specs.Splices.{FollowsFilter};
    ghost use Rattle.jq_session.specs.Starts.{IsFirstRun};
    ghost use Rattle.jq_session.specs.States.{refiltered};
    ghost use Rattle.jq_script.specs.Script.{point};
    ghost use Rattle.jq_script.specs.Serving.{point_of};

    /// The next filter of the session counts its starts in `spare`.
    pub fn new(session: Session, spare: Starts) -> Host
        ensures { point_of result ≡ point (options_of session) (state_of session) (starts_of session + starts_in spare) }
    {
        Host {
            session,
            spare: Some(spare),
        }
    }

    /// Ends the session, and returns both counts of starts: that of its filter, and the spare one.
    pub fn into_starts(self) -> (Starts, Starts)
        ensures { starts_in result.0 + starts_in result.1 ≡ (point_of self).starts }
    {
        (self.session.into_starts(), self.spare.unwrap())
    }

    /// Runs another filter over the present inputs, and takes it unless memory runs out. The count of the old filter becomes the
    /// spare one.
    pub(crate) fn refilter(&mut self, filter: Filter) -> Result<Follow, NoMemory>
        ensures taken { OnOk result (state_of self.new.session ≡ refiltered filter (state_of self.old.session)) }
        ensures follow { IfOk result (λ follow. FollowsFilter follow (state_of self.old.session) (state_of self.new.session)) }
        ensures unchanged { OnErr result (state_of self.new.session ≡ state_of self.old.session) }
        ensures started { IsFirstRun (refiltered filter (state_of self.old.session)) (point_of self.old).starts (point_of self.new).starts }
        ensures options { options_of self.new.session ≡ options_of self.old.session }
    {
        let spare = self.spare.take().unwrap();
        match self.session.refilter(spare, filter) {
            Ok((follow, old)) => {
                self.spare = Some(old);
                Ok(follow)
            }
            Err(refused) => {
                self.spare = Some(refused.starts);
                Err(NoMemory)
            }
        }
    }
}
