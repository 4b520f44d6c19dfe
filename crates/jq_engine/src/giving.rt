// Items that are given to frames.
ghost use Rattle.std.specs.Prelude.{◌≡◌, IfOk, IfSome};
ghost use Rattle.jv_data.specs.Value.{Value};
ghost use Rattle.jq_meaning.specs.Runs.{Run};
ghost use Rattle.jq_meaning.specs.machine.State as abstract;
ghost use Rattle.jq_state.specs.Items.{item_of};
ghost use Rattle.jq_state.specs.Steps.{step_in};
ghost use Rattle.jq_state.specs.Views.{frames_in, IsFirst};
ghost use Rattle.jq_engine.specs.private.Leading.{Leads, at_item};

use jq_state::items::Item;
use jq_state::next::Next;
use jq_state::states::State;
use jq_state::steps::{Holding, Step};
use jq_transitions::{Progress, receive};
use jv_data::NoMemory;
use std::alloc::Global;

/// An item goes to the first frame that waits; with none it is an output. The frame of an array is not taken: the array's fork
/// point may need it again, and the run goes back next.
pub(crate) fn give<'p>(
    alloc: Global,
    state: &mut State<'p>,
    item: Item,
) -> Result<Progress<'p>, NoMemory>
    ensures { IfOk result (λ r. (inputs : Run Value) → Leads inputs (at_item inputs state.old (item_of item)) state.new r) }
{
    match collecting(state) {
        Some(height) => collect(state, height, item),
        None => give_to_frame(alloc, state, item),
    }
}

// The height of the array that gets the next item, if it goes to an array.
fn collecting(state: &State<'_>) -> Option<u32>
    ensures { IfSome result (λ h. (inputs : Run Value) → IsFirst (abstract.collect h) (frames_in inputs state.now)) }
{
    let (step, _) = state.top()?;
    collect_in(step)
}

// The height of an array.
fn collect_in(step: &Step<'_>) -> Option<u32>
    ensures { IfSome result (λ h. (q : abstract.Scope) → step_in step.now q ≡ abstract.collect h) }
{
    match step {
        Step::Holding(Holding::Collect(height)) => Some(*height),
        _ => None,
    }
}

// The value of an item is added to an array.
fn collect<'p>(state: &mut State<'p>, height: u32, item: Item) -> Result<Progress<'p>, NoMemory>
    requires { (inputs : Run Value) → IsFirst (abstract.collect height) (frames_in inputs state.old) }
    ensures { IfOk result (λ r. (inputs : Run Value) → Leads inputs (at_item inputs state.old (item_of item)) state.new r) }
{
    let Item { value, path } = item;
    drop(path);
    state.skip();
    state.add_to_cell(height, Item::plain(value))?;
    Ok(Progress::Moves(Next::GoBack))
}

// The same for another frame.
fn give_to_frame<'p>(
    alloc: Global,
    state: &mut State<'p>,
    item: Item,
) -> Result<Progress<'p>, NoMemory>
    ensures { IfOk result (λ r. (inputs : Run Value) → Leads inputs (at_item inputs state.old (item_of item)) state.new r) }
{
    match state.take(alloc)? {
        Some((step, scope)) => {
            let next = receive(alloc, state, step, scope, item)?;
            Ok(Progress::Moves(next))
        }
        None => Ok(Progress::Outputs(item)),
    }
}
