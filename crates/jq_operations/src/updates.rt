// The prelude's `_modify`, which `f |= g` calls.
ghost use Rattle.std.specs.Prelude.{◌<◌, ◌≤◌, IsTrue, length};
ghost use Rattle.jv_data.specs.Value.{Value};
ghost use Rattle.jq_meaning.specs.Runs.{Run};
ghost use Rattle.jq_state.specs.Environments.{count_of, envs_of, program_of};
ghost use Rattle.jq_state.specs.Nodes.{env_at};
ghost use Rattle.jq_meaning.specs.updates.Known.{HasModify};

use crate::program::program_is_a_list;
use jq_meaning::updates::the_preludes_update_stays;
use jq_state::environments::Nodes;

/// Whether it is known of an environment that `f |= g` calls the prelude's `_modify` in it.
pub fn has_modify(nodes: &Nodes<'_>, env: u32) -> bool
    requires { env < count_of nodes.now }
    ensures { IsTrue result → (inputs : Run Value) → ∥ HasModify (env_at (envs_of inputs nodes.now) env) ∥₁ }
{
    the_preludes_update_stays();
    let mut at = env;
    while let Some(node) = nodes.node(at) {
        at = node.outer;
    }
    is_inside_modify(nodes, at)
}

// The same of an environment of the program.
fn is_inside_modify(nodes: &Nodes<'_>, env: u32) -> bool
    requires { env ≤ length (program_of nodes.now) }
    ensures { IsTrue result → (inputs : Run Value) → ∥ HasModify (env_at (envs_of inputs nodes.now) env) ∥₁ }
{
    the_preludes_update_stays();
    program_is_a_list(nodes);
    nodes.program_comes_first();
    match nodes.program().modify() {
        Some(count) => count <= env,
        None => false,
    }
}
