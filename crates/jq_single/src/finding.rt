// What a name is bound to in a scope, and comparisons of the name of a value's kind with a constant, for which no text is made.
ghost use Rattle.std.specs.Prelude.{◌≡◌, IfOk, IsTrue, length, map, IfSome, None, Ok};
ghost use Rattle.jv_data.specs.Value.{Value, string};
ghost use Rattle.jv_data.specs.View.{view};
ghost use Rattle.jq_ast.specs.Named.{name_of, named};
ghost use Rattle.jq_tree.specs.Tree.{trees_of};
ghost use Rattle.jq_meaning.specs.Runs.{Run};
ghost use Rattle.jq_single.specs.private.Scopes.{outside_in, scope_env};
ghost use Rattle.jq_single.specs.private.Finds.{FindsBound};
ghost use Rattle.jq_single.specs.private.Parts.{Calls, FindsAlike, IsBodyOf, IsRunAs, RunsTo};
ghost use Rattle.jq_meaning.specs.updates.Known.{HasModify};
ghost use Rattle.jv_data.specs.Kind.{kind_name};
ghost use Rattle.jv_data.specs.Shared.{text_in};
ghost use Rattle.jq_ast.specs.Leaves.{operator_of};
ghost use Rattle.jq_natives.specs.Answers.{is_same, yes_or_no};
ghost use Rattle.jq_tree.specs.Tree as form;
ghost use Rattle.jq_meaning.specs.Env as meaning;
ghost use Rattle.jv_data.specs.declared.values.Val as val;
ghost use Rattle.jq_meaning.specs.Steps as steps;

use crate::changing::scope_of_call;
use crate::contexts::Context;
use crate::scopes::{Outside, Scope};
use jq_ast::{Function, Name, Operator, Tree};
use jq_meaning::updates::the_preludes_update_stays;
use jq_natives::Native;
use jq_operations::{Builtin, Callee, builtin_named, find_callee, find_in_prelude, find_value};
use jq_state::names::{is_function, is_text};
use jv_data::{NoMemory, SharedText, Val, kind_name};

/// What a call runs: a body, with its parameters, the scope outside of them and its arguments, or a name of the language.
#[derive(Clone, Copy)]
pub(crate) enum Called<'s> {
    Body(&'s Tree, &'s [String], Scope<'s>, &'s [Tree]),
    Builtin(Builtin, &'s [Tree]),
    Unknown,
}

impl<'s> Context<'s> {
    /// What a call runs.
    #[tactic(auto, using(crate::proofs::Calls::call_forms))]
    #[inline(always)]
    pub(crate) fn called(&self, tree: &'s Tree) -> Called<'s>
        ensures { Calls self.now (named tree.now) result }
    {
        match tree {
            Tree::Call(name, arguments) => self.called_by_name(name, arguments.as_slice()),
            Tree::PreludeCall(name, arguments) => {
                self.called_in_prelude(name, arguments.as_slice())
            }
            _ => Called::Unknown,
        }
    }

    // What `a(f; g)` runs: the innermost function or parameter with this name and this number of arguments, or a name of the language.
    fn called_by_name(&self, name: &Name, arguments: &'s [Tree]) -> Called<'s>
        ensures { Calls self.now (form.call (name_of name.now) (trees_of (map named arguments.now))) result }
    {
        let mut scope = self.scope;
        'scopes: loop {
            match scope {
                Scope::Run(outside) => return self.called_in_run(*outside, name, arguments),
                Scope::Value(outer, _, _) => scope = outer,
                Scope::Function(outer, function) => {
                    if is_function(function, name, arguments.len()) {
                        return body_of(function, *scope, arguments);
                    }
                    scope = outer;
                }
                Scope::Call(own, parameters, bound, caller) => {
                    if arguments.is_empty() {
                        if let Some(argument) = argument_of(parameters, bound, name, None) {
                            return Called::Body(argument, &[], **caller, arguments);
                        }
                    }
                    scope = own;
                }
            }
        }
    }

    // The same where no scope outside of the run's environment has the name.
    #[tactic(auto, using(crate::proofs::Calls::builtin_runs))]
    fn called_in_run(&self, outside: Outside<'s>, name: &Name, arguments: &'s [Tree]) -> Called<'s>
        requires { FindsAlike self.now outside (name_of name.now) (length arguments.now) }
        ensures { Calls self.now (form.call (name_of name.now) (trees_of (map named arguments.now))) result }
    {
        let nodes = outside.nodes;
        let count = arguments.len();
        match find_callee(nodes, name, count, outside.env) {
            Callee::Function(function, env) => {
                body_of(function, Scope::Run(Outside { nodes, env }), arguments)
            }
            Callee::Closure(body, env) => {
                Called::Body(body, &[], Scope::Run(Outside { nodes, env }), arguments)
            }
            Callee::NoCallee => Called::Builtin(
                builtin_named(name.text.as_str(), count),
                arguments,
            ),
        }
    }

    // What a call of the prelude's own function runs, whatever is defined later. If a scope outside of the run's environment would
    // have to define it, this is unknown.
    fn called_in_prelude(&self, name: &Name, arguments: &'s [Tree]) -> Called<'s>
        ensures { Calls self.now (form.prelude_call (name_of name.now) (trees_of (map named arguments.now))) result }
    {
        let outside = outside_of(self.scope);
        let nodes = outside.nodes;
        match find_in_prelude(nodes, name, arguments.len(), outside.env) {
            Callee::Function(function, env) => {
                body_of(function, Scope::Run(Outside { nodes, env }), arguments)
            }
            _ => Called::Unknown,
        }
    }

    /// The filter that a call runs, its scope and how deep calls may nest in it. What calls no body is run itself.
    #[inline(always)]
    pub(crate) fn entered<'t>(
        &'t self,
        tree: &'t Tree,
        called: &'t Called<'t>,
    ) -> (&'t Tree, Scope<'t>, u32)
        requires { Calls self.now (named tree.now) called.now }
        ensures { IsRunAs self.now (named tree.now) result.2 (named result.0.now) result.1 }
    {
        match called {
            Called::Body(body, parameters, own, arguments) if self.depth > 0 => {
                let scope = scope_of_call(own, parameters, arguments, self.scope);
                (body, scope, self.depth - 1)
            }
            _ => (tree, *self.scope, self.depth),
        }
    }

    /// The result of an operator, if it compares `type` with a constant.
    #[inline(always)]
    pub(crate) fn compared(
        &self,
        operator: Operator,
        left: &'s Tree,
        right: &Tree,
        value: &Val,
    ) -> Option<bool>
        ensures { IfSome result (λ b. RunsTo self.now (form.binary (operator_of operator) (named left.now) (named right.now)) (view value.now) (Ok (val.Bool b))) }
    {
        match left {
            Tree::Call(_, _) => self.call_compared(operator, left, right, value),
            _ => None,
        }
    }

    // The same of an operator whose left side is a call.
    #[inline(never)]
    fn call_compared(
        &self,
        operator: Operator,
        left: &'s Tree,
        right: &Tree,
        value: &Val,
    ) -> Option<bool>
        ensures { IfSome result (λ b. RunsTo self.now (form.binary (operator_of operator) (named left.now) (named right.now)) (view value.now) (Ok (val.Bool b))) }
    {
        let (Tree::Call(name, _), Tree::Literal(constant)) = (left, right) else {
            return None;
        };
        if name.text.as_str() != "type" {
            return None;
        }
        match self.called(left) {
            Called::Builtin(Builtin::Native(Native::TypeName), []) => {
                kind_told(operator, value, constant.value())
            }
            _ => None,
        }
    }
}

// What a call of a function runs, in the scope that begins with the function's own binding.
#[inline(always)]
fn body_of<'s>(function: &'s Function<Tree>, own: Scope<'s>, arguments: &'s [Tree]) -> Called<'s>
    ensures { IsBodyOf result function.now own.entry arguments.now }
{
    Called::Body(
        &function.body,
        function.parameters.as_slice(),
        own,
        arguments,
    )
}

// The argument for the last parameter with this name, or what was found before.
fn argument_of<'s>(
    parameters: &[String],
    arguments: &'s [Tree],
    name: &Name,
    found: Option<&'s Tree>,
) -> Option<&'s Tree>
    ensures { FindsBound (name_of name.now) parameters.now arguments.now found.entry result }
{
    let [parameter, later @ ..] = parameters else {
        return found;
    };
    let [argument, others @ ..] = arguments else {
        return found;
    };
    if is_text(name, parameter) {
        argument_of(later, others, name, Some(argument))
    } else {
        argument_of(later, others, name, found)
    }
}

// The environment of the run in which a scope's bindings are.
fn outside_of<'s>(scope: &Scope<'s>) -> Outside<'s>
    ensures { result ≡ outside_in scope.now }
{
    match scope {
        Scope::Run(outside) => *outside,
        Scope::Value(outer, _, _) => outside_of(outer),
        Scope::Function(outer, _) => outside_of(outer),
        Scope::Call(own, _, _, _) => outside_of(own),
    }
}

/// Whether it is known of a scope that `f |= g` calls the prelude's `_modify` in it.
pub(crate) fn has_modify(scope: &Scope<'_>) -> bool
    ensures { IsTrue result → (inputs : Run Value) → ∥ HasModify (scope_env inputs scope.now) ∥₁ }
{
    the_preludes_update_stays();
    let outside = outside_of(scope);
    jq_operations::has_modify(outside.nodes, outside.env)
}

/// The value of the innermost variable of this name, or null if there is none.
pub(crate) fn value_of(scope: &Scope<'_>, name: &Name) -> Result<Val, NoMemory>
    ensures { IfOk result (λ v. (inputs : Run Value) → view v ≡ meaning.find_value (name_of name.now) (scope_env inputs scope.now)) }
{
    match scope {
        Scope::Run(outside) => find_value(outside.nodes, name, outside.env),
        Scope::Value(outer, other, value) => {
            if is_text(name, other) {
                value.copy()
            } else {
                value_of(outer, name)
            }
        }
        Scope::Function(outer, _) => value_of(outer, name),
        Scope::Call(own, _, _, _) => value_of(own, name),
    }
}

// The result of an operator on the name of a value's kind and a text, if it is `==` or `!=`.
fn kind_told(operator: Operator, value: &Val, right: &Val) -> Option<bool>
    ensures { IfSome result (λ b. steps.operator_of (operator_of operator) (string (kind_name (view value.now))) (view right.now) ≡ yes_or_no b) }
{
    let Val::Text(text) = right else {
        return None;
    };
    match operator {
        Operator::Equal => Some(is_kind(value, text)),
        Operator::NotEqual => Some(!is_kind(value, text)),
        _ => None,
    }
}

// Whether a text is the name of a value's kind.
fn is_kind(value: &Val, text: &SharedText) -> bool
    ensures { result ≡ is_same (string (kind_name (view value.now))) (string (text_in text.now)) }
{
    kind_name(value) == text.as_str()
}
