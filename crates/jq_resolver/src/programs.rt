// The names of a program.
ghost use Rattle.std.specs.Prelude.{◌≡◌, ◌++◌, OnOk, length};
ghost use Rattle.jq_ast.specs.Named.{named};
ghost use Rattle.jq_tree.specs.Binders.{bound_filter};
ghost use Rattle.jq_tree.specs.Names.{variables_of};
ghost use Rattle.jq_resolver.specs.private.Resolved.{Chain, IsDefinitionResolved};
ghost use Rattle.jq_resolver.specs.private.Scopes.{bound_names};
ghost use Rattle.jq_resolver.specs.Programs.{bound_program, named_program, variable_names};

use crate::bindings::Kind;
use crate::resolving::{resolve_definition, resolve_tree};
use crate::scope::Scope;
use jq_ast::{Function, Tree};
use jv_data::{NoMemory, Val};
use std::alloc::Global;

/// Sets what each name of a program refers to: its functions, each of which sees those before it and itself, and a tree that
/// sees them all. All see the variables; of variables with the same name the first one counts.
///
/// A name that one of the variables or functions binds gets `Outer`, its position in the program's own list; a name that
/// is bound inside a function or the tree gets `Inner`. A name that nothing binds stays `Unresolved`.
pub fn resolve(
    alloc: Global,
    variables: &[(String, Val)],
    functions: &mut Vec<Function<Tree>>,
    tree: &mut Tree,
) -> Result<(), NoMemory>
    ensures names { OnOk result (named_program functions.new.items tree.new ≡ named_program functions.old.items tree.old) }
    ensures tree { OnOk result (named tree.new ≡ named tree.old) }
    ensures binders { OnOk result (bound_program functions.new.items tree.new (length variables.now)
        ≡ bound_filter (variable_names variables.now) (named_program functions.old.items tree.old)) }
{
    let mut scope = Scope::new(alloc)?;
    enter_variables(&mut scope, variables)?;
    resolve_functions(&mut scope, functions)?;
    resolve_tree(&mut scope, tree)?;
    Ok(())
}

fn enter_variables(scope: &mut Scope, variables: &[(String, Val)]) -> Result<(), NoMemory>
    ensures { OnOk result (bound_names scope.new ≡ variables_of (variable_names variables.now) ++ bound_names scope.old) }
{
    let mut left = variables.len();
    while left > 0 {
        left -= 1;
        scope.list_next();
        scope.enter(Kind::Variable, variables[left].0.as_str())?;
    }
    Ok(())
}

fn resolve_functions(scope: &mut Scope, functions: &mut Vec<Function<Tree>>) -> Result<(), NoMemory>
    ensures { OnOk result (Chain IsDefinitionResolved (bound_names scope.old) (bound_names scope.new) functions.old.items functions.new.items) }
{
    for i in 0..functions.len() {
        scope.list_next();
        resolve_definition(scope, &mut functions[i])?;
    }
    Ok(())
}
