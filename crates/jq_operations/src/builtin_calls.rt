// Calls of the names of the language.
ghost use Rattle.std.specs.Prelude.{◌≡◌, ◌<◌, [], IfOk, map};
ghost use Rattle.jv_data.specs.View.{view};
ghost use Rattle.jq_ast.specs.Named.{named};
ghost use Rattle.jq_tree.specs.Tree.{trees_of};
ghost use Rattle.jq_tree.specs.Tree as form;
ghost use Rattle.jq_meaning.specs.machine.Evaluating as machine;
ghost use Rattle.jq_state.specs.Environments.{count_of};
ghost use Rattle.jq_state.specs.Inputs.{inputs_of};
ghost use Rattle.jq_state.specs.Items.{item_of};
ghost use Rattle.jq_state.specs.Nexts.{ComesTo, transition};
ghost use Rattle.jq_state.specs.Steps.{builtin_of};
ghost use Rattle.jq_operations.specs.private.Bodies.{EntersBuiltin};

use crate::arguments::next_argument;
use crate::delivery::{deliver_inputs, refuse_paths};
use crate::named_builtins::Builtin;
use jq_ast::Tree;
use jq_state::frames::Scope;
use jq_state::inputs::Inputs;
use jq_state::items::Item;
use jq_state::next::Next;
use jq_state::states::State;
use jq_state::steps::{self, Operation, Step};
use jv_data::{Array, NoMemory, Val};
use std::alloc::Global;

// A call of a name that no definition binds.
pub(crate) fn enter_builtin<'p>(
    alloc: Global,
    state: &mut State<'p>,
    tree: &'p Tree,
    builtin: Builtin,
    arguments: &'p [Tree],
    scope: Scope,
    input: Item,
    inputs: &Inputs,
) -> Result<Next<'p>, NoMemory>
    requires { scope.env < count_of state.old.nodes }
    ensures { IfOk result (EntersBuiltin (inputs_of inputs.now) state.old state.new scope tree.now arguments.now builtin (item_of input)) }
{
    let Item { value, path } = input;
    if path.is_present() && !builtin.keeps_paths() {
        return refuse_paths(state, tree, scope, value);
    }
    match builtin {
        Builtin::NoOutputs => Ok(Next::GoBack),
        Builtin::Paths => enter_paths(state, arguments, scope, value),
        Builtin::Range => {
            let input = Item { value, path };
            first_argument(alloc, state, steps::Builtin::Range, arguments, scope, input)
        }
        Builtin::AllInputs => {
            state.inputs_stand_outermost();
            deliver_inputs(alloc, state, inputs, 0)
        }
        Builtin::Halts => {
            let input = Item { value, path };
            first_argument(alloc, state, steps::Builtin::Halts, arguments, scope, input)
        }
        Builtin::Native(native) => {
            let input = Item { value, path };
            let waiting = steps::Builtin::Native(native);
            first_argument(alloc, state, waiting, arguments, scope, input)
        }
        Builtin::Unknown => Ok(Next::GoBack),
    }
}

// Runs the first argument of a call; if it has none, the call itself.
fn first_argument<'p>(
    alloc: Global,
    state: &mut State<'p>,
    builtin: steps::Builtin,
    arguments: &'p [Tree],
    scope: Scope,
    input: Item,
) -> Result<Next<'p>, NoMemory>
    requires { scope.env < count_of state.old.nodes }
    ensures { IfOk result (λ n. ComesTo (transition state.old scope (λ p. machine.next_argument (builtin_of builtin) (trees_of (map named arguments.now)) [] p (item_of input))) state.new n) }
{
    let known = Array::from_vec(alloc, Vec::new(alloc))?;
    next_argument(alloc, state, builtin, arguments, known, scope, input)
}

// `path(f)`: f is run on the value with the empty path, and a frame turns its outputs into their paths.
fn enter_paths<'p>(
    state: &mut State<'p>,
    arguments: &'p [Tree],
    scope: Scope,
    value: Val,
) -> Result<Next<'p>, NoMemory>
    requires { scope.env < count_of state.old.nodes }
    ensures { IfOk result (λ n. ComesTo (transition state.old scope (λ p. machine.enter_paths (trees_of (map named arguments.now)) p (view value))) state.new n) }
{
    match arguments {
        [] => Ok(Next::GoBack),
        [filter, ..] => {
            state.push(Step::Operation(Operation::PathValue), scope)?;
            Ok(Next::Evaluate(filter, scope, Item::start(value)))
        }
    }
}
