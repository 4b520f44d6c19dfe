// Items that are given to the frames which belong to the fork point at a height.
ghost use Rattle.std.specs.Prelude.{◌<◌, IfOk};
ghost use Rattle.jq_meaning.specs.machine.Giving as machine;
ghost use Rattle.jq_meaning.specs.machine.State as frame;
ghost use Rattle.jq_state.specs.Environments.{count_of};
ghost use Rattle.jq_state.specs.Items.{item_of};
ghost use Rattle.jq_state.specs.Nexts.{ComesTo, transition};
ghost use Rattle.jq_state.specs.Steps.{fold_of, holding_in};
ghost use Rattle.jq_state.specs.Views.{frames_in, forks_in};

use crate::receiving::items::{into_plain, is_true};
use jq_state::frames::Scope;
use jq_state::items::Item;
use jq_state::next::Next;
use jq_state::states::State;
use jq_state::steps::{Fold, Holding};
use jv_data::{NoMemory, Val};

pub(crate) fn hold<'p>(
    state: &mut State<'p>,
    step: Holding<'p>,
    scope: Scope,
    item: Item,
) -> Result<Next<'p>, NoMemory>
    requires { scope.env < count_of state.old.nodes }
    ensures { IfOk result (λ n. ComesTo (transition state.old scope (λ p. machine.receive (holding_in step.entry p) (item_of item))) state.new n) }
{
    match step {
        Holding::FoldUpdate(height, fold) => fold_update(state, height, fold, scope, item),
        Holding::Collect(height) => collect(state, height, item),
        Holding::LeftSide(height) => left_side(state, height, item),
        Holding::TryBody(_, _, _) => Ok(Next::Give(item)),
        Holding::LabelBody(_, _) => Ok(Next::Give(item)),
    }
}

// An update has given a new state.
fn fold_update<'p>(
    state: &mut State<'p>,
    height: u32,
    fold: Fold<'p>,
    scope: Scope,
    item: Item,
) -> Result<Next<'p>, NoMemory>
    requires { scope.env < count_of state.old.nodes }
    ensures { IfOk result (λ n. ComesTo (transition state.old scope (λ p. machine.receive (frame.fold_update height (fold_of fold.entry) p) (item_of item))) state.new n) }
{
    match fold {
        Fold::Reducing(_) => {
            state.replace_cell(height, item)?;
            Ok(Next::GoBack)
        }
        Fold::Extracting(_, extract) => {
            state.replace_cell(height, item.copy()?)?;
            Ok(Next::Evaluate(extract, scope, item))
        }
    }
}

// The value of an item is added to an array.
fn collect<'p>(state: &mut State<'p>, height: u32, item: Item) -> Result<Next<'p>, NoMemory>
    ensures { IfOk result (λ n. ComesTo (λ inputs. machine.receive (frame.collect height) (item_of item) (frames_in inputs state.old) (forks_in inputs state.old)) state.new n) }
{
    state.add_to_cell(height, into_plain(item))?;
    Ok(Next::GoBack)
}

// The left side of `//` gives only its true items.
fn left_side<'p>(state: &mut State<'p>, height: u32, item: Item) -> Result<Next<'p>, NoMemory>
    ensures { IfOk result (λ n. ComesTo (λ inputs. machine.receive (frame.left_side height) (item_of item) (frames_in inputs state.old) (forks_in inputs state.old)) state.new n) }
{
    if !is_true(&item) {
        return Ok(Next::GoBack);
    }
    state.replace_cell(height, Item::plain(Val::Null))?;
    Ok(Next::Give(item))
}
