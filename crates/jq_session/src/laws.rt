// Laws of a session after any list of calls, of moves, of its plan, and of runs up to a halt.
ghost use Rattle.jq_session.specs.laws.Halts.{PiecesUpToAHaltAreTheOutcome};
ghost use Rattle.jq_session.specs.laws.Histories.{FollowsErrors, FollowsOutput, IsAlwaysRight, StandsForPresentInputs, StartsNoMore};
ghost use Rattle.jq_session.specs.laws.Moves.{HalvesAreMoves, MovesHaveHalves};
ghost use Rattle.jq_session.specs.laws.Plans.{PlansAreByTheTree};

use jq_fold_steps::laws::a_compiled_fold_comes_after_the_prelude;

/// After any calls, accepted or refused, a session's state is that of the last filter it took, with the inputs that the accepted edits and
/// moves leave, and what it writes is the outcome of runs from scratch on these inputs. The filters were started no more often than the
/// calls may start them together.
#[tactic(auto, using(crate::proofs::Calls::stands_for_present, crate::proofs::Calls::always_right, crate::proofs::Calls::no_more))]
pub fn a_session_stands_for_its_present_inputs()
    ensures stands { StandsForPresentInputs }
    ensures right { IsAlwaysRight }
    ensures starts { StartsNoMore }
{}

/// After any calls, a client that applied the splices of the accepted ones has the output and the errors.
#[tactic(auto, using(crate::proofs::Calls::follows_output, crate::proofs::Calls::follows_errors))]
pub fn splices_lead_to_what_is_written()
    ensures output { FollowsOutput }
    ensures errors { FollowsErrors }
{}

/// A move that the definition accepts is a removal and then an insertion, and each two such edits are a move.
#[tactic(auto, using(crate::proofs::Moving::moves_have_halves, crate::proofs::Moving::halves_are_moves))]
pub fn a_move_is_a_removal_and_an_insertion()
    ensures halves { MovesHaveHalves }
    ensures moves { HalvesAreMoves }
{}

/// The plan of a session is by the options, the filter's tree and the inputs on which it runs.
pub fn plans_are_by_the_tree()
    ensures { PlansAreByTheTree }
{
    a_compiled_fold_comes_after_the_prelude();
}

/// The pieces of the runs on each input up to the first one that halts, one after the other, are the output, the errors and the status
/// of runs from scratch.
pub fn pieces_up_to_a_halt_are_the_outcome()
    ensures { PiecesUpToAHaltAreTheOutcome }
{}
