// Operations on an item.
ghost use Rattle.std.specs.Prelude.{◌≡◌, IfOk};
ghost use Rattle.jv_data.specs.View.{view};
ghost use Rattle.jq_meaning.specs.machine.Operations.{result_of};
ghost use Rattle.jq_meaning.specs.Runs.{one, plain};
ghost use Rattle.jq_state.specs.Items.{item_of};
ghost use Rattle.jq_state.specs.Steps.{operation_of};
ghost use Rattle.jq_operations.specs.Outputs.{outputs_of};

use crate::answers::answered;
use crate::constants::path_error;
use crate::operators::operate;
use crate::outputs::Outputs;
use crate::parts::{every_part, part_at};
use jq_natives::truth;
use jq_state::items::Item;
use jq_state::steps::Operation;
use jv_arith::neg;
use jv_data::{NoMemory, Val};
use std::alloc::Global;

/// The outputs of an operation on an item.
pub fn run(alloc: Global, operation: Operation<'_>, item: Item) -> Result<Outputs, NoMemory>
    ensures { IfOk result (λ o. outputs_of o ≡ result_of (operation_of operation.entry) (item_of item)) }
{
    match operation {
        Operation::Field(key, guarded) => part_at(alloc, guarded, key.value(), item),
        Operation::PartAtKey(guarded, key) => part_at(alloc, guarded, &key, item),
        Operation::EveryPart(guarded) => every_part(alloc, guarded, item),
        Operation::Operate(operator, right) => operate(alloc, operator, item, &right),
        Operation::ToTruth => Ok(value(Val::Bool(truth(&item.value)))),
        Operation::Negate => answered(neg(alloc, &item.value)),
        Operation::PathValue => Ok(value(item.into_path(alloc)?)),
        Operation::Refuse => Ok(Outputs::Error(path_error(alloc)?)),
    }
}

// One output without a path.
fn value(value: Val) -> Outputs
    ensures { outputs_of result ≡ one (plain (view value)) }
{
    Outputs::One(Item::plain(value))
}
