// The prelude's own functions, whatever is defined later.
ghost use Rattle.std.specs.Prelude.{◌≡◌, ◌<◌, ◌≤◌, MatchOption, length};
ghost use Rattle.jv_data.specs.Value.{Value};
ghost use Rattle.jq_ast.specs.Named.{name_of};
ghost use Rattle.jq_meaning.specs.Env as meaning;
ghost use Rattle.jq_meaning.specs.Runs.{Run};
ghost use Rattle.jq_state.specs.Environments.{count_of, envs_of, program_of};
ghost use Rattle.jq_state.specs.Nodes.{env_at};
ghost use Rattle.jq_operations.specs.Callees.{CalleeFits, callee_in};
ghost use Rattle.jq_operations.specs.private.Found.{HasNoFunction, HasFunction};

use crate::callees::Callee;
use crate::program::program_is_a_list;
use jq_ast::{Function, Name, Tree};
use jq_state::environments::{Binding, Nodes, ProgramBinding};
use jq_state::names::is_function;
use jq_state::sought::Sought;

/// The prelude's own function with this name and this number of parameters: the outermost one, since the prelude is outside of
/// every filter.
pub fn find_in_prelude<'p>(nodes: &Nodes<'p>, name: &Name, count: usize, env: u32) -> Callee<'p>
    requires { env < count_of nodes.now }
    ensures fits { CalleeFits (count_of nodes.now) result }
    ensures callee { (inputs : Run Value) → callee_in (envs_of inputs nodes.now) result ≡ meaning.find_in_prelude (name_of name.now) count (env_at (envs_of inputs nodes.now) env) }
{
    let mut outermost = Callee::NoCallee;
    let mut at = env;
    while let Some(node) = nodes.node(at) {
        if let Some(function) = function_of(&node.binding, name, count) {
            outermost = Callee::Function(function, at);
        }
        at = node.outer;
    }
    first_in_program(nodes, name, count, at).or(outermost)
}

// The same in an environment of the program.
fn first_in_program<'p>(nodes: &Nodes<'p>, name: &Name, count: usize, env: u32) -> Callee<'p>
    requires { env ≤ length (program_of nodes.now) }
    ensures fits { CalleeFits (count_of nodes.now) result }
    ensures callee { (inputs : Run Value) → callee_in (envs_of inputs nodes.now) result ≡ meaning.find_in_prelude (name_of name.now) count (env_at (envs_of inputs nodes.now) env) }
{
    program_is_a_list(nodes);
    let sought = Sought::Function(name, count);
    match nodes.program().first(sought, env) {
        Some((place, ProgramBinding::Function(function))) => Callee::Function(function, place + 1),
        Some((_, ProgramBinding::Value(_, _))) => Callee::NoCallee,
        None => Callee::NoCallee,
    }
}

// A binding's function, if it has this name and this number of parameters.
fn function_of<'p>(binding: &Binding<'p>, name: &Name, count: usize) -> Option<&'p Function<Tree>>
    ensures { MatchOption result (HasNoFunction (name_of name.now) count binding.now) (λ f. HasFunction (name_of name.now) count binding.now f.now) }
{
    match binding {
        Binding::Function(function) => {
            if is_function(*function, name, count) {
                Some(*function)
            } else {
                None
            }
        }
        Binding::Value(_, _) => None,
        Binding::Closure(_, _, _) => None,
        Binding::Label(_, _) => None,
    }
}
