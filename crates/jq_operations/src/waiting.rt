// Forms that wait for the output of one of their parts.
ghost use Rattle.std.specs.Prelude.{◌∷◌, ◌<◌, IfOk};
ghost use Rattle.jq_ast.specs.Named.{named};
ghost use Rattle.jq_meaning.specs.machine.State as machine;
ghost use Rattle.jq_state.specs.Environments.{count_of};
ghost use Rattle.jq_state.specs.Items.{item_of};
ghost use Rattle.jq_state.specs.Nexts.{ComesTo, transition};
ghost use Rattle.jq_state.specs.Steps.{making_in};

use jq_ast::Tree;
use jq_state::frames::Scope;
use jq_state::items::Item;
use jq_state::next::Next;
use jq_state::states::State;
use jq_state::steps::{Making, Step};
use jv_data::NoMemory;
use std::alloc::Global;

/// Runs a part of a form. A frame waits for the part's output.
pub fn run_part<'p>(
    alloc: Global,
    state: &mut State<'p>,
    part: &'p Tree,
    form: Making<'p>,
    scope: Scope,
    input: Item,
) -> Result<Next<'p>, NoMemory>
    requires { scope.env < count_of state.old.nodes }
    ensures { IfOk result (λ n. ComesTo (transition state.old scope (λ p k fs. machine.state (machine.evaluate (named part.now) p (item_of input)) (making_in form.entry p ∷ k) fs)) state.new n) }
{
    state.push(Step::Making(Box::new(alloc, form)?), scope)?;
    Ok(Next::Evaluate(part, scope, input))
}
