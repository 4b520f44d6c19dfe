// From a text to a program.
ghost use Rattle.std.specs.Prelude.{◌≡◌, IfOk, IfErr, OnOk, [], length};
ghost use Rattle.std.specs.Str.{chars};
ghost use Rattle.jq_ast.specs.Named.{named};
ghost use Rattle.jq_syntax.specs.Chosen.{setting_of};
ghost use Rattle.jq_resolver.specs.Programs.{bound_program, named_program};
ghost use Rattle.jq_tree.specs.Binders.{uses, without_binder};
ghost use Rattle.jq_tree.specs.Filter.{HasPlan, reads};
ghost use Rattle.jq_inputs.specs.Plans.{view_of};
ghost use Rattle.jq_syntax.specs.Compiled.{IsProgramOf, IsRefusal};
ghost use Rattle.jq_syntax.specs.private.Checks.{IsUnbound, IsFitForInputs, IsMisread, IsUnfit, bound_under};

use crate::faults::CompileFault;
use crate::options::Options;
use crate::prelude::read_prelude;
use crate::prelude_laws::prelude_is_accepted;
use crate::program::Program;
use crate::reading::read_filter;
use jq_ast::{Function, Tree};
use jq_inputs::{Plan, inputs_in_place, may_halt, plan_of, reads_inputs};
use jq_resolver::{first_undefined, resolve};
use jv_data::NoMemory;
use std::alloc::Global;

/// The program of a filter's text under the options of a command: the functions of the prelude, and the tree of the text, with
/// the binder of each name (manual of jq 1.7, "Invoking jq" for the options, "Scoping" for names).
pub fn compile(alloc: Global, text: &str, options: &Options) -> Result<Program, CompileFault>
    ensures program { IfOk result (IsProgramOf (chars text.now) options.now) }
    ensures refusal { IfErr result (IsRefusal (chars text.now) (setting_of options.now)) }
{
    prelude_is_accepted();
    let mut tree = read_filter(alloc, text)?;
    let mut functions = read_prelude(alloc)?;
    let reads = bind(alloc, options, &mut functions, &mut tree)?;
    let plan = plan_under(options, &tree);
    let halts = may_halt(&tree);
    Ok(Program::new(functions, tree, plan, reads, halts))
}

// How the filter runs under the options.
fn plan_under(options: &Options, tree: &Tree) -> Plan
    ensures { HasPlan options.now.null options.now.slurp (named tree.now) (view_of result) }
{
    plan_of(options.null, options.slurp, tree)
}

// Resolves all names, and checks them and the places of `inputs`. Returns whether the filter calls `inputs`.
fn bind(
    alloc: Global,
    options: &Options,
    functions: &mut Vec<Function<Tree>>,
    tree: &mut Tree,
) -> Result<bool, CompileFault>
    ensures names { OnOk result (named_program functions.new.items tree.new ≡ named_program functions.old.items tree.old) }
    ensures tree { OnOk result (named tree.new ≡ named tree.old) }
    ensures binders { OnOk result (bound_program functions.new.items tree.new (length options.now.vars.items) ≡ bound_under options.now functions.old.items tree.old) }
    ensures bound { OnOk result (without_binder (uses (bound_under options.now functions.old.items tree.old)) ≡ []) }
    ensures fit { OnOk result (IsFitForInputs options.now.null (named tree.old)) }
    ensures reads { IfOk result (λ r. r ≡ reads (named tree.old)) }
    ensures fault { IfErr result (IsUnfit options.now.null (bound_under options.now functions.old.items tree.old) (named tree.old)) }
{
    set_referents(alloc, options, functions, tree)?;
    check_names(alloc, options.vars.len(), functions.as_slice(), tree)?;
    check_inputs(tree, options.null)
}

// Sets what each name refers to. The variables of the options are around the program.
fn set_referents(
    alloc: Global,
    options: &Options,
    functions: &mut Vec<Function<Tree>>,
    tree: &mut Tree,
) -> Result<(), NoMemory>
    ensures names { OnOk result (named_program functions.new.items tree.new ≡ named_program functions.old.items tree.old) }
    ensures tree { OnOk result (named tree.new ≡ named tree.old) }
    ensures binders { OnOk result (bound_program functions.new.items tree.new (length options.now.vars.items) ≡ bound_under options.now functions.old.items tree.old) }
{
    resolve(alloc, options.vars.as_slice(), functions, tree)
}

// Checks that each name is bound; `variables` is the number of variables around the program.
fn check_names(
    alloc: Global,
    variables: usize,
    functions: &[Function<Tree>],
    tree: &Tree,
) -> Result<(), CompileFault>
    ensures bound { OnOk result (without_binder (uses (bound_program functions.now tree.now variables)) ≡ []) }
    ensures fault { IfErr result (IsUnbound (without_binder (uses (bound_program functions.now tree.now variables)))) }
{
    match first_undefined(alloc, variables, functions, tree)? {
        Some(first) => Err(CompileFault::Undefined(first)),
        None => Ok(()),
    }
}

// Whether the filter calls `inputs`; it is refused if the call is misplaced or `null` is not set.
fn check_inputs(tree: &Tree, null: bool) -> Result<bool, CompileFault>
    ensures fit { OnOk result (IsFitForInputs null (named tree.now)) }
    ensures reads { IfOk result (λ r. r ≡ reads (named tree.now)) }
    ensures fault { IfErr result (IsMisread null (named tree.now)) }
{
    if !inputs_in_place(tree) {
        return Err(CompileFault::InputsPlace);
    }
    let reads = reads_inputs(tree);
    if reads && !null {
        return Err(CompileFault::InputsNeedNull);
    }
    Ok(reads)
}
