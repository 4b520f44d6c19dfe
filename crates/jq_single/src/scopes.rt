// The bindings of names while a filter is run at once: an environment of the run, and the bindings that are
// added to it, which are on the native stack.
ghost use Rattle.std.specs.Prelude.{◌<◌};
ghost use Rattle.jq_state.specs.Environments.{count_of};

use jq_ast::{Function, Tree};
use jq_state::environments::Nodes;
use jv_data::Val;

/// An environment of the run.
#[derive(Clone, Copy)]
pub(crate) struct Outside<'s> {
    pub(crate) nodes: &'s Nodes<'s>,
    pub(crate) env: u32,
    ghost fits: { env < count_of nodes.now },
}

/// An environment of the run, or a binding with the scope outside of it. A call binds the parameters of a function, in the
/// function's own scope, to its arguments, which have the caller's scope.
#[derive(Clone, Copy)]
pub(crate) enum Scope<'s> {
    Run(Outside<'s>),
    Value(&'s Scope<'s>, &'s String, &'s Val),
    Function(&'s Scope<'s>, &'s Function<Tree>),
    Call(&'s Scope<'s>, &'s [String], &'s [Tree], &'s Scope<'s>),
}
