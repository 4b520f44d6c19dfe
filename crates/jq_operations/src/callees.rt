// What a call finds.
ghost use Rattle.std.specs.Prelude.{◌≡◌, ◌<◌, ◌≤◌, ℕ, List, MatchOption, length};
ghost use Rattle.jv_data.specs.Value.{Value};
ghost use Rattle.jq_ast.specs.Named.{name_of};
ghost use Rattle.jq_meaning.specs.Env.{Env};
ghost use Rattle.jq_meaning.specs.Env as meaning;
ghost use Rattle.jq_meaning.specs.Runs.{Run};
ghost use Rattle.jq_state.specs.Environments.{count_of, envs_of, program_of};
ghost use Rattle.jq_state.specs.Nodes.{BindingFits, env_at};
ghost use Rattle.jq_operations.specs.Callees.{CalleeFits, callee_in};
ghost use Rattle.jq_operations.specs.private.Found.{HasNoCallee, HasCallee};

use crate::program::program_is_a_list;
use jq_ast::{Function, Name, Tree};
use jq_state::environments::{Binding, Nodes, ProgramBinding};
use jq_state::names::{is_function, is_text};
use jq_state::sought::Sought;

/// What a call finds.
#[derive(Clone, Copy)]
pub enum Callee<'p> {
    /// A function, with the environment that begins with its own binding.
    Function(&'p Function<Tree>, u32),
    /// A filter that was passed as an argument, with its own environment.
    Closure(&'p Tree, u32),
    NoCallee,
}

impl<'p> Callee<'p> {
    // This callee, or the other one if this is `NoCallee`.
    pub(crate) fn or(self, other: Callee<'p>) -> Callee<'p>
        ensures callee { (envs : List Env) → callee_in envs result ≡ meaning.callee_or (callee_in envs self.entry) (callee_in envs other.entry) }
        ensures fits { (count : ℕ) → CalleeFits count self.entry → CalleeFits count other.entry → CalleeFits count result }
    {
        match self {
            Callee::Function(function, own) => Callee::Function(function, own),
            Callee::Closure(body, own) => Callee::Closure(body, own),
            Callee::NoCallee => other,
        }
    }
}

/// The innermost function or parameter with this name and this number of arguments.
pub fn find_callee<'p>(nodes: &Nodes<'p>, name: &Name, count: usize, env: u32) -> Callee<'p>
    requires { env < count_of nodes.now }
    ensures fits { CalleeFits (count_of nodes.now) result }
    ensures callee { (inputs : Run Value) → callee_in (envs_of inputs nodes.now) result ≡ meaning.find_callee (name_of name.now) count (env_at (envs_of inputs nodes.now) env) }
{
    let mut at = env;
    while let Some(node) = nodes.node(at) {
        if let Some(callee) = callee_of(&node.binding, name, count, at) {
            return callee;
        }
        at = node.outer;
    }
    find_in_program(nodes, name, count, at)
}

// The same in an environment of the program.
fn find_in_program<'p>(nodes: &Nodes<'p>, name: &Name, count: usize, env: u32) -> Callee<'p>
    requires { env ≤ length (program_of nodes.now) }
    ensures fits { CalleeFits (count_of nodes.now) result }
    ensures callee { (inputs : Run Value) → callee_in (envs_of inputs nodes.now) result ≡ meaning.find_callee (name_of name.now) count (env_at (envs_of inputs nodes.now) env) }
{
    program_is_a_list(nodes);
    let sought = Sought::Function(name, count);
    match nodes.program().last(sought, env) {
        Some((place, ProgramBinding::Function(function))) => Callee::Function(function, place + 1),
        Some((_, ProgramBinding::Value(_, _))) => Callee::NoCallee,
        None => Callee::NoCallee,
    }
}

// What a call finds in the binding of the environment at an index.
fn callee_of<'p>(binding: &Binding<'p>, name: &Name, count: usize, index: u32) -> Option<Callee<'p>>
    requires { BindingFits index binding.now }
    ensures { MatchOption result (HasNoCallee (name_of name.now) count binding.now) (HasCallee (name_of name.now) count binding.now index) }
{
    match binding {
        Binding::Function(function) => {
            if is_function(*function, name, count) {
                Some(Callee::Function(*function, index))
            } else {
                None
            }
        }
        Binding::Closure(parameter, body, own) => {
            if count == 0 && is_text(name, *parameter) {
                Some(Callee::Closure(*body, *own))
            } else {
                None
            }
        }
        Binding::Value(_, _) => None,
        Binding::Label(_, _) => None,
    }
}
