// Programs in the form that the engine takes.
ghost use Rattle.std.specs.Prelude.{◌≡◌, ◌+◌, ◌++◌, IfOk, IfSome, OnOk, map, reverse};
ghost use Rattle.jq_syntax.specs.Chosen.{variables_of};
ghost use Rattle.jq_state.specs.Listed.{items_in};
ghost use Rattle.jq_state.specs.Nodes.{program_binding};
ghost use Rattle.jq_filters.specs.Programs.{bindings_of, function_binding, value_binding};
ghost use Rattle.jq_filters.specs.laws.Updates as laws;
ghost use Rattle.jq_filters.specs.private.Preludes.{IsPreludeBefore};

use crate::laws::{functions_are_the_preludes, the_prelude_has_modify};
use jq_ast::{Function, Tree};
use jq_state::environments::ProgramBinding;
use jq_state::programs::ProgramBindings;
use jv_data::{NoMemory, Val};
use std::alloc::Global;

// The number of the prelude's functions up to `_modify`.
const UP_TO_MODIFY: usize = 36;

// The bindings around a filter, from the outermost to the innermost: the variables, of which the first comes last, and then
// the prelude's functions in their order.
pub(crate) fn bindings_of(
    alloc: Global,
    variables: Vec<(String, Val)>,
    functions: Vec<Function<Tree>>,
    tree: &Tree,
) -> Result<ProgramBindings, NoMemory>
    requires { IsPreludeBefore functions.items tree.now }
    ensures { IfOk result (λ bs. map program_binding (items_in bs) ≡ bindings_of (variables_of variables.items) functions.items) }
{
    functions_are_the_preludes();
    the_prelude_has_modify();
    let modify = up_to_modify(variables.len());
    let mut bindings = Vec::with_capacity(alloc, variables.len())?;
    add_variables(&mut bindings, variables)?;
    add_functions(&mut bindings, functions)?;
    ProgramBindings::with_modify(alloc, bindings, modify)
}

// The number of bindings up to `_modify`, after so many variables, unless it is too large.
fn up_to_modify(variables: usize) -> Option<u32>
    ensures { IfSome result (λ count. count ≡ variables + laws.up_to_modify) }
{
    let count = variables.checked_add(UP_TO_MODIFY)?;
    match u32::try_from(count) {
        Ok(count) => Some(count),
        Err(_) => None,
    }
}

fn add_variables(
    bindings: &mut Vec<ProgramBinding>,
    variables: Vec<(String, Val)>,
) -> Result<(), NoMemory>
    ensures { OnOk result (map program_binding bindings.new.items ≡ map program_binding bindings.old.items ++ reverse (map value_binding (variables_of variables.items))) }
{
    let mut left = variables;
    for _ in 0..left.len() {
        if let Some((name, value)) = left.pop() {
            bindings.push(ProgramBinding::Value(name, value))?;
        }
    }
    Ok(())
}

fn add_functions(
    bindings: &mut Vec<ProgramBinding>,
    functions: Vec<Function<Tree>>,
) -> Result<(), NoMemory>
    ensures { OnOk result (map program_binding bindings.new.items ≡ map program_binding bindings.old.items ++ map function_binding functions.items) }
{
    for function in functions {
        bindings.push(ProgramBinding::Function(function))?;
    }
    Ok(())
}
