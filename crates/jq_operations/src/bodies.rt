// The bodies of functions and of filters that were passed as arguments.
ghost use Rattle.std.specs.Prelude.{◌≡◌, ◌<◌, ℕ, IfOk};
ghost use Rattle.jq_ast.specs.Named.{named};
ghost use Rattle.jq_meaning.specs.machine.Evaluating as machine;
ghost use Rattle.jq_meaning.specs.machine.State.{state};
ghost use Rattle.jq_state.specs.Environments.{count_of};
ghost use Rattle.jq_state.specs.Items.{item_of};
ghost use Rattle.jq_state.specs.Nexts.{ComesTo, NextFits};
ghost use Rattle.jq_operations.specs.private.Bodies.{EntersBody, function_entered};

use crate::call_arguments::bind_arguments;
use jq_ast::{Function, Tree};
use jq_state::frames::Scope;
use jq_state::items::Item;
use jq_state::next::{Next, Stop};
use jq_state::states::State;
use jv_data::NoMemory;

// Runs the body of a function, in the function's own environment, on the arguments.
pub(crate) fn enter_function<'p>(
    state: &mut State<'p>,
    function: &'p Function<Tree>,
    own: u32,
    arguments: &'p [Tree],
    scope: Scope,
    input: Item,
) -> Result<Next<'p>, NoMemory>
    requires caller { scope.env < count_of state.old.nodes }
    requires own { own < count_of state.old.nodes }
    ensures { IfOk result (λ n. ComesTo (function_entered state.old scope function.now own arguments.now (item_of input)) state.new n) }
{
    let env = bind_arguments(
        state,
        function.parameters.as_slice(),
        arguments,
        scope.env,
        own,
    )?;
    Ok(enter_body(&function.body, env, scope, input))
}

// Runs a body in an environment, with a call depth that is smaller by one.
pub(crate) fn enter_body<'p>(body: &'p Tree, env: u32, scope: Scope, input: Item) -> Next<'p>
    ensures fits { (count : ℕ) → env < count → NextFits count result }
    ensures next { EntersBody scope (named body.now) env (item_of input) result }
{
    if scope.depth == 0 {
        return Next::Quit(Stop::Deep);
    }
    let inside = Scope {
        env,
        depth: scope.depth - 1,
        level: scope.level,
    };
    Next::Evaluate(body, inside, input)
}
