// The options of a session are copied for each filter that is compiled.
ghost use Rattle.std.specs.Prelude.{◌≡◌, IfOk};
ghost use Rattle.jq_syntax.specs.Chosen.{chosen, variables_of};

use jq_syntax::Options;
use jv_data::{NoMemory, Val};
use std::alloc::Global;

/// Equal options. The names of their variables take memory, their values are shared.
pub fn copy_options(alloc: Global, options: &Options) -> Result<Options, NoMemory>
    ensures { IfOk result (λ copy. chosen copy ≡ chosen options.now) }
{
    Ok(Options {
        null: options.null,
        slurp: options.slurp,
        exit: options.exit,
        style: options.style,
        depth: options.depth,
        vars: copy_variables(alloc, &options.vars)?,
    })
}

fn copy_variables(
    alloc: Global,
    variables: &[(String, Val)],
) -> Result<Vec<(String, Val)>, NoMemory>
    ensures { IfOk result (λ copies. variables_of copies.items ≡ variables_of variables.now) }
{
    let mut copies = Vec::with_capacity(alloc, variables.len())?;
    for (name, value) in variables {
        copies.push((String::from_str(alloc, name.as_str())?, value.copy()?))?;
    }
    Ok(copies)
}
