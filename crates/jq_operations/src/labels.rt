// Labels and breaks.
ghost use Rattle.std.specs.Prelude.{◌≡◌, ◌<◌, IfOk, MatchOption};
ghost use Rattle.jv_data.specs.Value.{Value};
ghost use Rattle.jv_data.specs.Text.{text_of};
ghost use Rattle.jq_ast.specs.Named.{name_of, named};
ghost use Rattle.jq_tree.specs.Tree as form;
ghost use Rattle.jq_meaning.specs.Env as meaning;
ghost use Rattle.jq_meaning.specs.Runs.{Run};
ghost use Rattle.jq_meaning.specs.Runs as runs;
ghost use Rattle.jq_meaning.specs.machine.Evaluating.{enter};
ghost use Rattle.jq_state.specs.Environments.{count_of, envs_of};
ghost use Rattle.jq_state.specs.Items.{item_of};
ghost use Rattle.jq_state.specs.Nexts.{ComesTo, transition};
ghost use Rattle.jq_state.specs.Nodes.{env_at};
ghost use Rattle.jq_operations.specs.private.Levels.{HasNoLevel, HasLevel};

use crate::program::program_is_a_list;
use jq_ast::{Name, Tree};
use jq_state::environments::{Binding, Nodes};
use jq_state::frames::Scope;
use jq_state::items::Item;
use jq_state::names::is_text;
use jq_state::next::Next;
use jq_state::states::State;
use jq_state::steps::{Holding, Step};
use jv_data::NoMemory;

/// A label: its body is run with the label bound, so that its breaks find its level.
pub fn enter_label<'p>(
    state: &mut State<'p>,
    name: &'p String,
    body: &'p Tree,
    scope: Scope,
    input: Item,
) -> Result<Next<'p>, NoMemory>
    requires { scope.env < count_of state.old.nodes }
    ensures { IfOk result (λ n. ComesTo (transition state.old scope (λ p. enter (form.label (text_of name.now) (named body.now)) p (item_of input))) state.new n) }
{
    if scope.level == u32::MAX {
        return Err(NoMemory);
    }
    let holding = Holding::LabelBody(state.height(), scope.level);
    state.push(Step::Holding(holding), scope)?;
    let env = state.add(Binding::Label(name, scope.level), scope.env)?;
    let inside = Scope {
        env,
        depth: scope.depth,
        level: scope.level + 1,
    };
    Ok(Next::Evaluate(body, inside, input))
}

/// A break leaves its label. Without a label there are no outputs.
pub fn enter_break<'p>(state: &State<'p>, name: &Name, scope: Scope) -> Next<'p>
    requires { scope.env < count_of state.now.nodes }
    ensures { (x : runs.Item) → ComesTo (transition state.now scope (λ p. enter (form.break (name_of name.now)) p x)) state.now result }
{
    match find_level(state.nodes(), name, scope.env) {
        Some(level) => Next::Leave(level),
        None => Next::GoBack,
    }
}

/// The level of the innermost label of a name in an environment.
pub fn find_level(nodes: &Nodes<'_>, name: &Name, env: u32) -> Option<u32>
    requires { env < count_of nodes.now }
    ensures { (inputs : Run Value) → result ≡ meaning.find_level (name_of name.now) (env_at (envs_of inputs nodes.now) env) }
{
    program_is_a_list(nodes);
    let mut at = env;
    while let Some(node) = nodes.node(at) {
        if let Some(level) = level_in(&node.binding, name) {
            return Some(level);
        }
        at = node.outer;
    }
    None
}

// The level of the label in a binding, if the binding is a label of this name.
fn level_in(binding: &Binding<'_>, name: &Name) -> Option<u32>
    ensures { MatchOption result (HasNoLevel (name_of name.now) binding.now) (HasLevel (name_of name.now) binding.now) }
{
    match binding {
        Binding::Label(other, level) => {
            if is_text(name, *other) {
                Some(*level)
            } else {
                None
            }
        }
        Binding::Value(_, _) => None,
        Binding::Function(_) => None,
        Binding::Closure(_, _, _) => None,
    }
}
