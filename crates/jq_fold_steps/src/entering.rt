// The fold of a filter, in a state where nothing was run yet.
ghost use Rattle.std.specs.Prelude.{◌≡◌, IfOk, IfSome, option_map};
ghost use Rattle.jq_fold_steps.specs.private.Entered.{entered_in, IsEntered};
ghost use Rattle.jq_fold_steps.specs.private.Starting.{fold_of_runner};

use crate::placing::{Parts, Place, enter_definitions};
use jq_filters::Runner;
use jq_state::frames::Scope;
use jq_state::states::State;
use jv_data::NoMemory;
use std::alloc::Global;

/// A state without frames and fork points, a fold, and the scope of its parts in this state.
#[derive(Drop)]
pub(crate) struct Entered<'p> {
    pub state: State<'p>,
    pub parts: Parts<'p>,
    pub scope: Scope,
}

/// The fold of a filter, if it has one, after its definitions.
pub(crate) fn enter<'p>(alloc: Global, runner: Runner<'p>) -> Result<Option<Entered<'p>>, NoMemory>
    ensures fold { IfOk result (λ o. option_map entered_in o ≡ fold_of_runner runner.entry) }
    ensures entered { IfOk result (λ o. IfSome o (IsEntered runner.entry.depth)) }
{
    let mut state = State::new(alloc, runner.bindings)?;
    state.nodes().program_comes_first();
    let env = state.nodes().count() - 1;
    let Some(Place { parts, env }) = enter_definitions(&mut state, runner.tree, env)? else {
        return Ok(None);
    };
    let scope = Scope {
        env,
        depth: runner.depth,
        level: 0,
    };
    Ok(Some(Entered {
        state,
        parts,
        scope,
    }))
}
