// Definitions of functions.
ghost use Rattle.std.specs.Prelude.{◌≡◌, ◌∷◌, ◌++◌, [], map, IfOk};
ghost use Rattle.jv_data.specs.Text.{text_of};
ghost use Rattle.jq_tree.specs.WrittenOut as written;
ghost use Rattle.jq_builders.specs.Trees as built;
ghost use Rattle.jq_builders.specs.Views.{tree_in, parameter_of, definition_of};

use crate::parts::*;
use crate::trees::*;
use jq_ast::{Function, Pattern, Tree, boxed};
use std::alloc::{AllocError, Global};

/// `def name(parameters): body; rest`.
pub fn define(
    alloc: Global,
    definition: Definition,
    rest: Box<Tree>,
) -> Result<Box<Tree>, AllocError>
    ensures { IfOk result (λ t. tree_in t ≡ built.defining (definition_of definition) (tree_in rest)) }
{
    let Definition { head, body } = definition;
    let Head { name, parameters } = head;
    let names = parameter_names(alloc, &parameters)?;
    let body = with_values(alloc, parameters, body)?;
    let function = function(alloc, name, names, body)?;
    boxed(alloc, Tree::Define(function, rest))
}

fn function(
    alloc: Global,
    name: String,
    parameters: Vec<String>,
    body: Box<Tree>,
) -> Result<Box<Function<Tree>>, AllocError>
    ensures name { IfOk result (λ x. x.value.name ≡ name) }
    ensures parameters { IfOk result (λ x. x.value.parameters ≡ parameters) }
    ensures body { IfOk result (λ x. x.value.body ≡ body.value) }
{
    let body = Box::into_inner(body);
    Ok(Box::new(
        alloc,
        Function {
            name,
            parameters,
            body,
        },
    )?)
}

#[tactic(auto, using(crate::proofs::Levels::names_more))]
fn parameter_names(alloc: Global, parameters: &Vec<Parameter>) -> Result<Vec<String>, AllocError>
    ensures { IfOk result (λ v. map text_of v.items ≡ written.parameter_names (map parameter_of parameters.now.items)) }
{
    let mut names = Vec::new(alloc);
    for parameter in parameters {
        names = with_name(names, parameter)?;
    }
    Ok(names)
}

fn with_name(names: Vec<String>, parameter: &Parameter) -> Result<Vec<String>, AllocError>
    ensures { IfOk result (λ v. map text_of v.items ≡ map text_of names.items ++ written.parameter_name (parameter_of parameter.now) ∷ []) }
{
    let mut names = names;
    names.push(parameter_name(parameter)?)?;
    Ok(names)
}

fn parameter_name(parameter: &Parameter) -> Result<String, AllocError>
    ensures { IfOk result (λ s. text_of s ≡ written.parameter_name (parameter_of parameter.now)) }
{
    match parameter {
        Parameter::Filter(name) => name.clone(),
        Parameter::Value(name) => name.clone(),
    }
}

// `$a` is a filter `a`, and `a as $a |` before the body.
#[tactic(auto, using(crate::proofs::Levels::values_last))]
fn with_values(
    alloc: Global,
    parameters: Vec<Parameter>,
    body: Box<Tree>,
) -> Result<Box<Tree>, AllocError>
    ensures { IfOk result (λ t. tree_in t ≡ written.with_values (map parameter_of parameters.items) (tree_in body)) }
{
    let mut parameters = parameters;
    let mut body = body;
    while let Some(parameter) = parameters.pop() {
        body = with_value(alloc, parameter, body)?;
    }
    Ok(body)
}

#[tactic(auto, using(crate::proofs::Levels::named_call))]
fn with_value(alloc: Global, parameter: Parameter, body: Box<Tree>) -> Result<Box<Tree>, AllocError>
    ensures { IfOk result (λ t. tree_in t ≡ written.with_values (parameter_of parameter ∷ []) (tree_in body)) }
{
    match parameter {
        Parameter::Filter(_) => Ok(body),
        Parameter::Value(name) => {
            let call = boxed(
                alloc,
                Tree::Call(unresolved(name.clone()?), Vec::new(alloc)),
            )?;
            let pattern = boxed_pattern(alloc, Pattern::Whole(name))?;
            boxed(alloc, Tree::BindAs(call, pattern, body))
        }
    }
}

/// Adds the last parameter.
pub fn with_parameter(
    parameters: Vec<Parameter>,
    parameter: Parameter,
) -> Result<Vec<Parameter>, AllocError>
    ensures { IfOk result (λ v. map parameter_of v.items ≡ map parameter_of parameters.items ++ parameter_of parameter ∷ []) }
{
    let mut parameters = parameters;
    parameters.push(parameter)?;
    Ok(parameters)
}
