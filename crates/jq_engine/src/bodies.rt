// The bodies of functions without parameters, and of filters that were passed as arguments.
ghost use Rattle.std.specs.Prelude.{◌≡◌, ◌<◌, IfSome};
ghost use Rattle.jq_ast.specs.Named.{name_of, named};
ghost use Rattle.jq_tree.specs.Tree.{no_trees};
ghost use Rattle.jq_tree.specs.Tree as form;
ghost use Rattle.jq_meaning.specs.Runs as runs;
ghost use Rattle.jq_meaning.specs.machine.Evaluating as machine;
ghost use Rattle.jq_meaning.specs.machine.State as abstract;
ghost use Rattle.jq_state.specs.Environments.{count_of};
ghost use Rattle.jq_engine.specs.private.Forms.{EntersIn, RunsBody};

use jq_ast::{Name, Referent, Tree};
use jq_operations::{Callee, find_callee};
use jq_state::environments::Nodes;
use jq_state::frames::Scope;

/// The body that a call without arguments runs, with its scope, if it calls a function or a parameter and calls may nest so deep.
#[inline(always)]
pub(crate) fn called_body<'p>(
    nodes: &Nodes<'p>,
    tree: &'p Tree,
    scope: Scope,
) -> Option<(&'p Tree, Scope)>
    requires { scope.env < count_of nodes.now }
    ensures within { IfSome result (λ r. r.1.env < count_of nodes.now) }
    ensures body { IfSome result (λ r. RunsBody nodes.now (named tree.now) scope r.0.now r.1) }
{
    match tree {
        Tree::Call(name, arguments) if arguments.as_slice().is_empty() => {
            body_of(nodes, name, scope)
        }
        _ => None,
    }
}

// The same of a name.
#[inline(always)]
fn body_of<'p>(nodes: &Nodes<'p>, name: &Name, scope: Scope) -> Option<(&'p Tree, Scope)>
    requires { scope.env < count_of nodes.now }
    ensures within { IfSome result (λ r. r.1.env < count_of nodes.now) }
    ensures body { IfSome result (λ r. RunsBody nodes.now (form.call (name_of name.now) no_trees) scope r.0.now r.1) }
{
    if !is_defined(name) {
        return None;
    }
    match find_callee(nodes, name, 0, scope.env) {
        Callee::Function(function, own) => {
            let inside = below(scope, own)?;
            Some((&function.body, inside))
        }
        Callee::Closure(body, own) => {
            let inside = below(scope, own)?;
            Some((body, inside))
        }
        Callee::NoCallee => None,
    }
}

// The scope of a body in an environment, whose call depth is smaller by one.
#[inline(always)]
fn below(scope: Scope, env: u32) -> Option<Scope>
    ensures env { IfSome result (λ q. q.env ≡ env) }
    ensures enters { IfSome result (EntersIn scope env) }
{
    if scope.depth == 0 {
        return None;
    }
    Some(Scope {
        env,
        depth: scope.depth - 1,
        level: scope.level,
    })
}

// Whether a name refers to a function or a parameter. This is only advice: a name that does not is left to the machine.
fn is_defined(name: &Name) -> bool {
    match name.referent {
        Referent::Inner(_) => true,
        Referent::Outer(_) => true,
        _ => false,
    }
}
