// What the cell of a fork point gives.
ghost use Rattle.std.specs.Prelude.{◌≡◌, IfOk};
ghost use Rattle.jv_data.specs.View.{view};
ghost use Rattle.jq_meaning.specs.Runs.{array_of_items};
ghost use Rattle.jq_meaning.specs.machine.Operations.{state_in};
ghost use Rattle.jq_state.specs.Forks.{cell_of};
ghost use Rattle.jq_state.specs.Items.{item_of};

use jq_state::items::Item;
use jv_data::{Array, NoMemory, Val};
use std::alloc::Global;

// The array of the values of a cell's items.
pub(crate) fn array_of(alloc: Global, cell: Vec<Item>) -> Result<Val, NoMemory>
    ensures { IfOk result (λ v. view v ≡ array_of_items (cell_of cell)) }
{
    let mut values = Vec::with_capacity(alloc, cell.len())?;
    for item in cell {
        let Item { value, path: _path } = item;
        values.push(value)?;
    }
    Ok(Val::List(Array::from_vec(alloc, values)?))
}

// The state of a fold, the first item of its cell: null if the cell is empty.
pub(crate) fn state_of(cell: Vec<Item>) -> Item
    ensures { item_of result ≡ state_in (cell_of cell) }
{
    let mut cell = cell;
    cell.truncate(1);
    match cell.pop() {
        Some(state) => state,
        None => Item::plain(Val::Null),
    }
}
