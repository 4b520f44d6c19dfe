// The fold in a filter's tree.
ghost use Rattle.std.specs.Prelude.{◌≡◌, ◌<◌, List, IfOk, IfSome, OnOk, option_map};
ghost use Rattle.jv_data.specs.Value.{Value};
ghost use Rattle.jq_ast.specs.Named.{named};
ghost use Rattle.jq_meaning.specs.Env.{Env};
ghost use Rattle.jq_meaning.specs.Runs.{Run};
ghost use Rattle.jq_state.specs.Environments.{count_of};
ghost use Rattle.jq_state.specs.Nodes.{env_at};
ghost use Rattle.jq_state.specs.Views.{envs_in, frames_in, forks_in};
ghost use Rattle.jq_folds.specs.Folding.{fold_before, fold_in};
ghost use Rattle.jq_fold_steps.specs.private.Parts.{closing_of, place_in};

use jq_ast::{Pattern, Tree};
use jq_state::environments::Binding;
use jq_state::states::State;
use jv_data::NoMemory;

/// What a fold gives for each state.
#[derive(Clone, Copy)]
pub(crate) enum Extraction<'p> {
    /// Nothing: a `reduce`.
    Nothing,
    /// The outputs of the extraction of a `foreach`.
    Each(&'p Tree),
}

/// The filter that a fold is piped into.
#[derive(Clone, Copy)]
pub(crate) enum Closing<'p> {
    Nothing,
    Pipe(&'p Tree),
}

/// The parts of a fold in the tree of its filter.
#[derive(Clone, Copy)]
pub(crate) struct Parts<'p> {
    pub pattern: &'p Pattern,
    pub start: &'p Tree,
    pub update: &'p Tree,
    pub extraction: Extraction<'p>,
    pub closing: Closing<'p>,
}

/// A fold, and the index of the environment of its parts.
#[derive(Clone, Copy)]
pub(crate) struct Place<'p> {
    pub parts: Parts<'p>,
    pub env: u32,
}

/// Adds the definitions in front of a fold to the environments, and returns the fold that comes after them, if there is one.
pub(crate) fn enter_definitions<'p>(
    state: &mut State<'p>,
    tree: &'p Tree,
    env: u32,
) -> Result<Option<Place<'p>>, NoMemory>
    requires { env < count_of state.old.nodes }
    ensures within { IfOk result (λ o. IfSome o (λ p. p.env < count_of state.new.nodes)) }
    ensures placed { IfOk result (λ o. (inputs : Run Value) → option_map (place_in (envs_in inputs state.new)) o ≡ fold_in (named tree.now) (env_at (envs_in inputs state.old) env)) }
    ensures frames { OnOk result ((inputs : Run Value) → frames_in inputs state.new ≡ frames_in inputs state.old) }
    ensures forks { OnOk result ((inputs : Run Value) → forks_in inputs state.new ≡ forks_in inputs state.old) }
{
    match tree {
        Tree::Define(function, rest) => {
            let inner = state.add(Binding::Function(function), env)?;
            let place = enter_definitions(state, rest, inner)?;
            Ok(place)
        }
        Tree::Pipe(fold, filter) => Ok(place_of(fold, Closing::Pipe(filter), env)),
        _ => Ok(place_of(tree, Closing::Nothing, env)),
    }
}

fn place_of<'p>(tree: &'p Tree, closing: Closing<'p>, env: u32) -> Option<Place<'p>>
    ensures env { IfSome result (λ p. p.env ≡ env) }
    ensures fold { (envs : List Env) → option_map (place_in envs) result ≡ fold_before (closing_of closing.entry) (named tree.now) (env_at envs env) }
{
    match tree {
        Tree::Reduce(_, pattern, start, update) => Some(Place {
            parts: Parts {
                pattern,
                start,
                update,
                extraction: Extraction::Nothing,
                closing,
            },
            env,
        }),
        Tree::Foreach(_, pattern, start, update, extract) => Some(Place {
            parts: Parts {
                pattern,
                start,
                update,
                extraction: Extraction::Each(extract),
                closing,
            },
            env,
        }),
        _ => None,
    }
}
