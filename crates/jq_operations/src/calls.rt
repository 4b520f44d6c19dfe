// Definitions and calls.
ghost use Rattle.std.specs.Prelude.{◌≡◌, ◌<◌, IfOk, map};
ghost use Rattle.jq_ast.specs.Named.{name_of, named};
ghost use Rattle.jq_tree.specs.Tree.{trees_of};
ghost use Rattle.jq_tree.specs.Tree as form;
ghost use Rattle.jq_meaning.specs.machine.Evaluating.{enter};
ghost use Rattle.jq_state.specs.Environments.{count_of};
ghost use Rattle.jq_state.specs.Inputs.{inputs_of};
ghost use Rattle.jq_state.specs.Items.{item_of};
ghost use Rattle.jq_state.specs.Nexts.{ComesTo, ComesWith, transition};
ghost use Rattle.jq_operations.specs.Entering.{called, defined};

use crate::bodies::{enter_body, enter_function};
use crate::builtin_calls::enter_builtin;
use crate::callees::{Callee, find_callee};
use crate::named_builtins::builtin_named;
use crate::prelude::find_in_prelude;
use jq_ast::{Function, Name, Tree};
use jq_state::environments::Binding;
use jq_state::frames::Scope;
use jq_state::inputs::Inputs;
use jq_state::items::Item;
use jq_state::next::Next;
use jq_state::states::State;
use jv_data::NoMemory;
use std::alloc::Global;

/// A definition: the filter after it is run with the function bound.
pub fn enter_define<'p>(
    state: &mut State<'p>,
    function: &'p Function<Tree>,
    rest: &'p Tree,
    scope: Scope,
    input: Item,
) -> Result<Next<'p>, NoMemory>
    requires { scope.env < count_of state.old.nodes }
    ensures { IfOk result (λ n. ComesTo (transition state.old scope (λ p. enter (defined function.now (named rest.now)) p (item_of input))) state.new n) }
{
    let env = state.add(Binding::Function(function), scope.env)?;
    let inside = Scope {
        env,
        depth: scope.depth,
        level: scope.level,
    };
    Ok(Next::Evaluate(rest, inside, input))
}

/// A call of the prelude's own function, whatever is defined later.
pub fn enter_prelude_call<'p>(
    state: &mut State<'p>,
    name: &Name,
    arguments: &'p [Tree],
    scope: Scope,
    input: Item,
) -> Result<Next<'p>, NoMemory>
    requires { scope.env < count_of state.old.nodes }
    ensures { IfOk result (λ n. ComesTo (transition state.old scope (λ p. enter (form.prelude_call (name_of name.now) (trees_of (map named arguments.now))) p (item_of input))) state.new n) }
{
    match find_in_prelude(state.nodes(), name, arguments.len(), scope.env) {
        Callee::Function(function, own) => {
            enter_function(state, function, own, arguments, scope, input)
        }
        Callee::Closure(body, own) => Ok(enter_body(body, own, scope, input)),
        Callee::NoCallee => Ok(Next::GoBack),
    }
}

/// A call of a function, of a parameter, or of a name of the language. `inputs` returns these inputs.
pub fn enter_call<'p>(
    alloc: Global,
    state: &mut State<'p>,
    tree: &'p Tree,
    name: &Name,
    arguments: &'p [Tree],
    scope: Scope,
    input: Item,
    inputs: &Inputs,
) -> Result<Next<'p>, NoMemory>
    requires env { scope.env < count_of state.old.nodes }
    requires tree { named tree.now ≡ form.call (name_of name.now) (trees_of (map named arguments.now)) }
    ensures { IfOk result (λ n. ComesWith (inputs_of inputs.now) (transition state.old scope (λ p. enter (called name.now arguments.now) p (item_of input)) (inputs_of inputs.now)) state.new n) }
{
    match find_callee(state.nodes(), name, arguments.len(), scope.env) {
        Callee::Function(function, own) => {
            enter_function(state, function, own, arguments, scope, input)
        }
        Callee::Closure(body, own) => Ok(enter_body(body, own, scope, input)),
        Callee::NoCallee => {
            let builtin = builtin_named(name.text.as_str(), arguments.len());
            enter_builtin(alloc, state, tree, builtin, arguments, scope, input, inputs)
        }
    }
}
