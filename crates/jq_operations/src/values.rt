// Variables.
ghost use Rattle.std.specs.Prelude.{◌≡◌, ◌<◌, ◌≤◌, IfOk, MatchOption, length};
ghost use Rattle.jv_data.specs.Value.{Value};
ghost use Rattle.jv_data.specs.View.{view};
ghost use Rattle.jq_ast.specs.Named.{name_of, named};
ghost use Rattle.jq_tree.specs.Tree as form;
ghost use Rattle.jq_meaning.specs.Env as meaning;
ghost use Rattle.jq_meaning.specs.Runs.{Run};
ghost use Rattle.jq_meaning.specs.machine.Evaluating.{enter};
ghost use Rattle.jq_state.specs.Environments.{count_of, envs_of, program_of};
ghost use Rattle.jq_state.specs.Items.{item_of};
ghost use Rattle.jq_state.specs.Nexts.{ComesTo, transition};
ghost use Rattle.jq_state.specs.Nodes.{env_at};
ghost use Rattle.jq_operations.specs.private.Values.{HasNoValue, HasValue};

use crate::delivery::refuse_paths;
use crate::program::program_is_a_list;
use jq_ast::{Name, Tree};
use jq_state::environments::{Binding, Nodes, ProgramBinding};
use jq_state::frames::Scope;
use jq_state::items::Item;
use jq_state::names::is_text;
use jq_state::next::Next;
use jq_state::sought::Sought;
use jq_state::states::State;
use jv_data::{NoMemory, Val};

/// A variable gives its value, which has no path.
pub fn enter_variable<'p>(
    state: &mut State<'p>,
    tree: &'p Tree,
    name: &'p Name,
    scope: Scope,
    input: Item,
) -> Result<Next<'p>, NoMemory>
    requires env { scope.env < count_of state.old.nodes }
    requires tree { named tree.now ≡ form.variable (name_of name.now) }
    ensures { IfOk result (λ n. ComesTo (transition state.old scope (λ p. enter (form.variable (name_of name.now)) p (item_of input))) state.new n) }
{
    let Item { value, path } = input;
    if path.is_present() {
        return refuse_paths(state, tree, scope, value);
    }
    let found = find_value(state.nodes(), name, scope.env)?;
    Ok(Next::Give(Item::plain(found)))
}

/// The value of the innermost variable of this name, or null if there is none.
pub fn find_value(nodes: &Nodes<'_>, name: &Name, env: u32) -> Result<Val, NoMemory>
    requires { env < count_of nodes.now }
    ensures { IfOk result (λ v. (inputs : Run Value) → view v ≡ meaning.find_value (name_of name.now) (env_at (envs_of inputs nodes.now) env)) }
{
    let mut at = env;
    while let Some(node) = nodes.node(at) {
        if let Some(value) = value_in(&node.binding, name) {
            return value.copy();
        }
        at = node.outer;
    }
    find_in_program(nodes, name, at)
}

// The same in an environment of the program.
fn find_in_program(nodes: &Nodes<'_>, name: &Name, env: u32) -> Result<Val, NoMemory>
    requires { env ≤ length (program_of nodes.now) }
    ensures { IfOk result (λ v. (inputs : Run Value) → view v ≡ meaning.find_value (name_of name.now) (env_at (envs_of inputs nodes.now) env)) }
{
    program_is_a_list(nodes);
    match nodes.program().last(Sought::Variable(name), env) {
        Some((_, ProgramBinding::Value(_, value))) => value.copy(),
        Some((_, ProgramBinding::Function(_))) => Ok(Val::Null),
        None => Ok(Val::Null),
    }
}

// The value in a binding, if the binding is a variable of this name.
fn value_in<'a>(binding: &'a Binding<'_>, name: &Name) -> Option<&'a Val>
    ensures { MatchOption result (HasNoValue (name_of name.now) binding.now) (λ v. HasValue (name_of name.now) binding.now (view v.now)) }
{
    match binding {
        Binding::Value(other, value) => {
            if is_text(name, *other) {
                Some(value)
            } else {
                None
            }
        }
        Binding::Function(_) => None,
        Binding::Closure(_, _, _) => None,
        Binding::Label(_, _) => None,
    }
}
