// What a name refers to, by its scope.
ghost use Rattle.std.specs.Prelude.{◌≡◌, ℕ, OnOk, length, if◌then◌else◌};
ghost use Rattle.std.specs.Str.{chars};
ghost use Rattle.jq_tree.specs.Binders.{binder, prelude_binder};
ghost use Rattle.jq_tree.specs.BoundTree.{in_language, nowhere};
ghost use Rattle.jq_tree.specs.Names.{is_bound, language, to_format, to_function, to_label, to_variable};
ghost use Rattle.jq_ast.specs.Bound.{binder_at, format_at, function_at, label_at, variable_at};
ghost use Rattle.jq_ast.specs.Named.{name_of};
ghost use Rattle.jq_resolver.specs.private.Scopes.{bound_names};

use crate::bindings::Kind;
use crate::scope::Scope;
use jq_ast::{Name, Referent, core_of};
use jq_natives::native_of;
use jv_data::NoMemory;
use jv_text::format_of;

#[tactic(auto, using(crate::proofs::Finding::unbound))]
pub(crate) fn refer_to_function(
    scope: &Scope,
    name: &mut Name,
    arity: usize,
) -> Result<(), NoMemory>
    ensures same { OnOk result (name_of name.new ≡ name_of name.old) }
    ensures bound { OnOk result (function_at name.new arity (length (bound_names scope.now)) ≡ binder (bound_names scope.now) (to_function (name_of name.old) arity)) }
{
    name.referent = match scope.innermost(Kind::Function(arity), name.text.as_str()) {
        Some(position) => scope.referent(position)?,
        None => function_of_language(name.text.as_str(), arity),
    };
    Ok(())
}

pub(crate) fn refer_to_prelude(scope: &Scope, name: &mut Name, arity: usize) -> Result<(), NoMemory>
    ensures same { name_of name.new ≡ name_of name.old }
    ensures bound { OnOk result (function_at name.new arity (length (bound_names scope.now)) ≡ prelude_binder (bound_names scope.now) (to_function (name_of name.old) arity)) }
{
    name.referent = match scope.outermost(Kind::Function(arity), name.text.as_str()) {
        Some(position) => scope.referent(position)?,
        None => Referent::Unresolved,
    };
    Ok(())
}

#[tactic(auto, using(crate::proofs::Finding::unbound))]
pub(crate) fn refer_to_variable(scope: &Scope, name: &mut Name) -> Result<(), NoMemory>
    ensures same { OnOk result (name_of name.new ≡ name_of name.old) }
    ensures bound { OnOk result (variable_at name.new (length (bound_names scope.now)) ≡ binder (bound_names scope.now) (to_variable (name_of name.old))) }
{
    name.referent = match scope.innermost(Kind::Variable, name.text.as_str()) {
        Some(position) => scope.referent(position)?,
        None => Referent::Unresolved,
    };
    Ok(())
}

#[tactic(auto, using(crate::proofs::Finding::unbound))]
pub(crate) fn refer_to_label(scope: &Scope, name: &mut Name) -> Result<(), NoMemory>
    ensures same { OnOk result (name_of name.new ≡ name_of name.old) }
    ensures bound { OnOk result (label_at name.new (length (bound_names scope.now)) ≡ binder (bound_names scope.now) (to_label (name_of name.old))) }
{
    name.referent = match scope.innermost(Kind::Label, name.text.as_str()) {
        Some(position) => scope.referent(position)?,
        None => Referent::Unresolved,
    };
    Ok(())
}

// A format is bound by the language only, never by a scope.
#[tactic(auto, using(crate::proofs::Finding::unbound, crate::proofs::Finding::no_format))]
pub(crate) fn refer_to_format(scope: &Scope, name: &mut Name)
    ensures same { name_of name.new ≡ name_of name.old }
    ensures bound { format_at name.new (length (bound_names scope.now)) ≡ binder (bound_names scope.now) (to_format (name_of name.old)) }
{
    name.referent = format_of_language(name.text.as_str());
}

// What a function that no scope binds refers to.
fn function_of_language(name: &str, arity: usize) -> Referent
    ensures { (n : ℕ) → binder_at (to_function (chars name.now) arity) result n ≡ (if is_bound (to_function (chars name.now) arity) language then in_language else nowhere) }
{
    match core_of(name, arity) {
        Some(core) => Referent::Core(core),
        None => match native_of(name, arity) {
            Some(native) => Referent::Native(native),
            None => Referent::Unresolved,
        },
    }
}

fn format_of_language(name: &str) -> Referent
    ensures { (n : ℕ) → binder_at (to_format (chars name.now)) result n ≡ (if is_bound (to_format (chars name.now)) language then in_language else nowhere) }
{
    match format_of(name) {
        Some(format) => Referent::Format(format),
        None => Referent::Unresolved,
    }
}
