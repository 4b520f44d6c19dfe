// A filter whose output replaces its input, and calls.
ghost use Rattle.std.specs.Prelude.{◌<◌, ◌≡◌, map};
ghost use Rattle.jv_data.specs.View.{view};
ghost use Rattle.jq_ast.specs.Leaves.{operator_of};
ghost use Rattle.jq_ast.specs.Named.{named, named_as_pattern};
ghost use Rattle.jq_state.specs.Environments.{count_of};
ghost use Rattle.jq_operations.specs.Entering.{defined};
ghost use Rattle.jq_single.specs.Single.{Changes, Keeps, Changed};
ghost use Rattle.jq_single.specs.private.Parts.{ChangesTo, ChangesByBuiltin, ChangesByNative};
ghost use Rattle.jv_data.specs.Value.{Value};
ghost use Rattle.jq_meaning.specs.Continuations.{on_left};
ghost use Rattle.jq_meaning.specs.Runs.{plain, Run};
ghost use Rattle.jq_tree.specs.Tree.{trees_of};
ghost use Rattle.jq_operations.specs.Language.{meaning_of};
ghost use Rattle.jq_meaning.specs.Builtins.{plain_native};
ghost use Rattle.jq_single.specs.private.Scopes.{body_env, scope_env};
ghost use Rattle.jq_tree.specs.Tree as form;

use crate::contexts::{Context, FUEL};
use crate::finding::Called;
use crate::scopes::{Outside, Scope};
use crate::stops::{Stop, answer};
use jq_ast::{Function, Operator, Pattern, Tree};
use jq_heuristics::{goes_over_all, is_cheap};
use jq_natives::{Native, call_in_place, truth};
use jq_operations::{Builtin, operated};
use jq_state::environments::Nodes;
use jv_data::Val;
use std::alloc::Global;
use std::mem::replace;

/// Runs a filter on a value in an environment, up to a depth of calls, and replaces the value by the filter's output. A value
/// that is not shared is changed and not copied. If the filter has a form that is not run at once, the value is unchanged.
pub fn apply(
    alloc: Global,
    nodes: &Nodes<'_>,
    tree: &Tree,
    env: u32,
    depth: u32,
    value: &mut Val,
) -> Result<(), Stop>
    requires { env < count_of nodes.now }
    ensures runs { Changes nodes.now env depth (named tree.now) (view value.old) (view value.new) result }
    ensures keeps { Keeps result (view value.old) (view value.new) }
{
    let outside = Outside {
        nodes: &*nodes,
        env,
    };
    let scope = Scope::Run(outside);
    let context = Context {
        alloc,
        scope: &scope,
        depth,
        fuel: FUEL,
        kept: false,
    };
    context.change(&*tree, value)
}

impl<'s> Context<'s> {
    /// The same in a context.
    #[cycle(single)]
    pub(crate) fn change(&self, tree: &'s Tree, value: &mut Val) -> Result<(), Stop>
        ensures runs { ChangesTo self.now (named tree.now) (view value.old) (view value.new) result }
        ensures keeps { Keeps result (view value.old) (view value.new) }
    {
        if self.fuel == 0 {
            return Err(Stop::Unknown);
        }
        let inside = Context {
            fuel: self.fuel - 1,
            ..*self
        };
        inside.change_form(tree, value)
    }

    /// The same, with the fuel for the parts.
    #[cycle(single)]
    #[inline(always)]
    pub(crate) fn change_form(&self, tree: &'s Tree, value: &mut Val) -> Result<(), Stop>
        ensures runs { ChangesTo self.now (named tree.now) (view value.old) (view value.new) result }
        ensures keeps { Keeps result (view value.old) (view value.new) }
    {
        match tree {
            Tree::Identity => Ok(()),
            Tree::Binary(operator, left, right) => {
                self.change_binary(*operator, left, right, value)
            }
            Tree::Choice(condition, holds, fails) => {
                self.change_choice(condition, holds, fails, value)
            }
            Tree::BindAs(source, pattern, body) => {
                self.change_binding(source, pattern, body, value)
            }
            Tree::Define(function, rest) => self.change_define(function, rest, value),
            Tree::Call(_, _) | Tree::PreludeCall(_, _) => self.change_call(tree, value),
            Tree::Update(_, _) => self.change_update(tree, value),
            Tree::Reduce(source, pattern, start, update) => {
                self.change_reduce(source, pattern, start, update, value)
            }
            // If `f` of `f | g` may change its input, the machine runs the filter: here the input has to be kept until `g` has run,
            // so `f` would copy it.
            Tree::Pipe(first, _) if !self.kept && !goes_over_all(first) && !is_cheap(value) => {
                Err(Stop::Unknown)
            }
            // The value is kept until the output is known.
            _ => {
                *value = self.get_made(tree, value)?;
                Ok(())
            }
        }
    }

    // `f + g`: the right operand is run first, and the output replaces the left operand.
    #[cycle(single)]
    #[inline(never)]
    fn change_binary(
        &self,
        operator: Operator,
        left: &'s Tree,
        right: &'s Tree,
        value: &mut Val,
    ) -> Result<(), Stop>
        ensures runs { ChangesTo self.now (form.binary (operator_of operator) (named left.now) (named right.now)) (view value.old) (view value.new) result }
        ensures keeps { Keeps result (view value.old) (view value.new) }
    {
        if let Some(told) = self.compared(operator, left, right, value) {
            *value = Val::Bool(told);
            return Ok(());
        }
        let second = self.get_part(right, value)?;
        if let Tree::Identity = left {
            return operate_in_place(self.alloc, operator, value, &second);
        }
        self.change(left, value)?;
        operate_in_place(self.alloc, operator, value, &second)
    }

    // `if f then g else h end`.
    #[cycle(single)]
    #[inline(never)]
    fn change_choice(
        &self,
        condition: &'s Tree,
        holds: &'s Tree,
        fails: &'s Tree,
        value: &mut Val,
    ) -> Result<(), Stop>
        ensures runs { ChangesTo self.now (form.choice (named condition.now) (named holds.now) (named fails.now)) (view value.old) (view value.new) result }
        ensures keeps { Keeps result (view value.old) (view value.new) }
    {
        let test = self.get(condition, value)?;
        if truth(&test) {
            self.change(holds, value)
        } else {
            self.change(fails, value)
        }
    }

    // `def a(b): f; g`.
    #[cycle(single)]
    #[inline(never)]
    fn change_define(
        &self,
        function: &'s Function<Tree>,
        rest: &'s Tree,
        value: &mut Val,
    ) -> Result<(), Stop>
        ensures runs { ChangesTo self.now (defined function.now (named rest.now)) (view value.old) (view value.new) result }
        ensures keeps { Keeps result (view value.old) (view value.new) }
    {
        let scope = Scope::Function(&*self.scope, &*function);
        let inside = Context {
            scope: &scope,
            ..*self
        };
        inside.change(&*rest, value)
    }

    // `f as $x | g`. A pattern other than one variable is not matched at once.
    #[cycle(single)]
    #[inline(never)]
    fn change_binding(
        &self,
        source: &'s Tree,
        pattern: &'s Pattern,
        body: &'s Tree,
        value: &mut Val,
    ) -> Result<(), Stop>
        ensures runs { ChangesTo self.now (form.bind_as (named source.now) (named_as_pattern pattern.now) (named body.now)) (view value.old) (view value.new) result }
        ensures keeps { Keeps result (view value.old) (view value.new) }
    {
        match pattern {
            Pattern::Whole(name) => {
                let found = self.get(source, value)?;
                let scope = Scope::Value(&*self.scope, &*name, &found);
                let inside = Context {
                    scope: &scope,
                    ..*self
                };
                inside.change(&*body, value)
            }
            _ => Err(Stop::Unknown),
        }
    }

    // A call, by what it runs. A body is run with a call depth that is smaller by one.
    #[cycle(single)]
    #[inline(never)]
    fn change_call(&self, tree: &'s Tree, value: &mut Val) -> Result<(), Stop>
        ensures runs { ChangesTo self.now (named tree.now) (view value.old) (view value.new) result }
        ensures keeps { Keeps result (view value.old) (view value.new) }
    {
        match &self.called(tree) {
            Called::Body(body, parameters, own, arguments) => {
                if self.depth == 0 {
                    return Err(Stop::Unknown);
                }
                let scope = scope_of_call(own, &**parameters, &**arguments, &*self.scope);
                let inside = Context {
                    scope: &scope,
                    depth: self.depth - 1,
                    ..*self
                };
                inside.change(&**body, value)
            }
            Called::Builtin(builtin, arguments) => self.change_builtin(*builtin, *arguments, value),
            Called::Unknown => Err(Stop::Unknown),
        }
    }

    /// A name of the language whose answer replaces the value. `setpath` and `delpaths` would copy a value that is kept, so they
    /// are not run at once on one.
    #[cycle(single)]
    pub(crate) fn change_builtin(
        &self,
        builtin: Builtin,
        arguments: &'s [Tree],
        value: &mut Val,
    ) -> Result<(), Stop>
        ensures runs { ChangesByBuiltin self.now (meaning_of builtin) (trees_of (map named arguments.now)) (view value.old) (view value.new) result }
        ensures keeps { Keeps result (view value.old) (view value.new) }
    {
        match builtin {
            Builtin::NoOutputs => Err(Stop::Nothing),
            Builtin::Native(Native::SetPath) if self.kept => Err(Stop::Unknown),
            Builtin::Native(Native::DelPaths) if self.kept => Err(Stop::Unknown),
            Builtin::Native(native) => self.change_native(native, arguments, value),
            _ => Err(Stop::Unknown),
        }
    }

    // A native with at most two arguments.
    #[cycle(single)]
    #[inline(never)]
    fn change_native(
        &self,
        native: Native,
        arguments: &'s [Tree],
        value: &mut Val,
    ) -> Result<(), Stop>
        ensures runs { ChangesByNative self.now native (trees_of (map named arguments.now)) (view value.old) (view value.new) result }
        ensures keeps { Keeps result (view value.old) (view value.new) }
    {
        match arguments {
            [] => call_on(self.alloc, native, value, &[]),
            [argument] => {
                let only = self.get_part(argument, value)?;
                call_on(self.alloc, native, value, &[only])
            }
            [first, second] => {
                let one = self.get_part(first, value)?;
                let other = self.get_part(second, value)?;
                call_on(self.alloc, native, value, &[one, other])
            }
            _ => Err(Stop::Unknown),
        }
    }
}

// The answer of an operator replaces the left value. `+` changes a left value that is not shared in place.
#[tactic(auto, using(crate::proofs::Binding::known_runs), unfolding(jq_meaning::specs::Continuations::on_left))]
fn operate_in_place(
    alloc: Global,
    operator: Operator,
    left: &mut Val,
    right: &Val,
) -> Result<(), Stop>
    ensures runs { Changed result (view left.new) (on_left (operator_of operator) (view right.now) (plain (view left.old))) }
    ensures keeps { (v : Value) → Keeps result v (view left.new) }
{
    let taken = replace(left, Val::Null);
    *left = answer(operated(alloc, operator, taken, right))?;
    Ok(())
}

/// The scope of a body, in which the parameters are bound to the arguments of a call. Without parameters it is the body's own.
#[inline(always)]
pub(crate) fn scope_of_call<'s>(
    own: &'s Scope<'s>,
    parameters: &'s [String],
    arguments: &'s [Tree],
    caller: &'s Scope<'s>,
) -> Scope<'s>
    ensures { (inputs : Run Value) → scope_env inputs result ≡ body_env parameters.now arguments.now (scope_env inputs caller.now) (scope_env inputs own.now) }
{
    if parameters.is_empty() {
        *own
    } else {
        Scope::Call(own, parameters, arguments, caller)
    }
}

/// The answer of a native replaces the value. `setpath` and `delpaths` change a value that is not shared in place.
pub(crate) fn call_on(
    alloc: Global,
    native: Native,
    value: &mut Val,
    arguments: &[Val],
) -> Result<(), Stop>
    ensures runs { Changed result (view value.new) (plain_native native (view value.old) (map view arguments.now)) }
    ensures keeps { (v : Value) → Keeps result v (view value.new) }
{
    let taken = replace(value, Val::Null);
    *value = answer(call_in_place(alloc, native, taken, arguments))?;
    Ok(())
}
