// Lists of copies of inputs.
ghost use Rattle.std.specs.Prelude.{◌≡◌, ◌++◌, IfOk, OnOk, map, option_to_list};
ghost use Rattle.jv_data.specs.View.{view};

use jv_data::{NoMemory, Val};
use std::alloc::Global;

/// Copies of the first inputs, then the value in between, if there is one, and then copies of the last inputs.
pub(crate) fn joined(
    alloc: Global,
    first: &[Val],
    put: Option<Val>,
    last: &[Val],
) -> Result<Vec<Val>, NoMemory>
    ensures { IfOk result (λ inputs. map view inputs.items ≡ (map view first.now ++ map view (option_to_list put)) ++ map view last.now) }
{
    let mut inputs = Vec::new(alloc);
    add_copies(&mut inputs, first)?;
    if let Some(value) = put {
        inputs.push(value)?;
    }
    add_copies(&mut inputs, last)?;
    Ok(inputs)
}

/// Adds copies of these values.
pub(crate) fn add_copies(inputs: &mut Vec<Val>, values: &[Val]) -> Result<(), NoMemory>
    ensures { OnOk result (map view inputs.new.items ≡ map view inputs.old.items ++ map view values.now) }
{
    for value in values {
        inputs.push(value.copy()?)?;
    }
    Ok(())
}
