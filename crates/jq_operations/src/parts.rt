// Steps from an item to its parts.
ghost use Rattle.std.specs.Prelude.{◌≡◌, ◌++◌, ◌∷◌, [], IfOk, Ok, length, map, option_map, reverse, zip};
ghost use Rattle.jv_data.specs.View.{view};
ghost use Rattle.jv_value.specs.Parts.{parts_of};
ghost use Rattle.jq_meaning.specs.Continuations.{on_target};
ghost use Rattle.jq_meaning.specs.Runs.{plain};
ghost use Rattle.jq_natives.specs.Answers.{part_keys};
ghost use Rattle.jq_meaning.specs.Steps.{each_part, part_of};
ghost use Rattle.jq_state.specs.Items.{item_at, item_of, keys_of};
ghost use Rattle.jq_operations.specs.Outputs.{outputs_of};

use crate::answers::refused;
use crate::outputs::Outputs;
use jq_natives::{names, places};
use jq_state::items::{Item, Path};
use jv_data::{Fail, NoMemory, Val};
use jv_value::{index, items};
use std::alloc::Global;

/// The part of an item at a key.
pub(crate) fn part_at(
    alloc: Global,
    guarded: bool,
    key: &Val,
    item: Item,
) -> Result<Outputs, NoMemory>
    ensures { IfOk result (λ o. outputs_of o ≡ on_target guarded (view key.now) (item_of item)) }
{
    let Item { value, path } = item;
    match index(alloc, &value, key) {
        Ok(part) => Ok(Outputs::One(located(alloc, part, path, key)?)),
        Err(Fail::Raised(error)) => Ok(refused(guarded, error)),
        Err(Fail::NoMemory) => Err(NoMemory),
    }
}

/// Every part of an item: the items of an array, or the values of an object in the order of their keys.
pub(crate) fn every_part(alloc: Global, guarded: bool, item: Item) -> Result<Outputs, NoMemory>
    ensures { IfOk result (λ o. outputs_of o ≡ each_part guarded (item_of item)) }
{
    match items(alloc, &item.value) {
        Ok(parts) => Ok(Outputs::Several(part_items(alloc, &item, parts)?)),
        Err(Fail::Raised(error)) => Ok(refused(guarded, error)),
        Err(Fail::NoMemory) => Err(NoMemory),
    }
}

// A part as an item; its path, if there is one, is extended by the key.
fn located(alloc: Global, part: Val, mut path: Path, key: &Val) -> Result<Item, NoMemory>
    ensures { IfOk result (λ x. item_of x ≡ item_at (view part) (option_map (λ ks. ks ++ view key.now ∷ []) (keys_of path))) }
{
    if path.is_present() {
        path.push(alloc, key.copy()?)?;
    }
    Ok(Item { value: part, path })
}

// The parts of an item as items, the last one first.
fn part_items(alloc: Global, item: &Item, parts: Vec<Val>) -> Result<Vec<Item>, NoMemory>
    requires { parts_of (view item.now.value) ≡ Ok (map view parts.items) }
    ensures { IfOk result (λ xs. reverse (map item_of xs.items) ≡ map (λ p. part_of (item_of item.now) p.0 p.1) (zip (part_keys (view item.now.value)) (map view parts.items))) }
{
    if item.path.is_present() {
        let keys = keys_of_parts(alloc, &item.value)?;
        located_items(alloc, &item.path, keys, parts)
    } else {
        plain_items(alloc, parts)
    }
}

fn plain_items(alloc: Global, mut parts: Vec<Val>) -> Result<Vec<Item>, NoMemory>
    ensures { IfOk result (λ xs. reverse (map item_of xs.items) ≡ map plain (map view parts.items)) }
{
    let mut items = Vec::with_capacity(alloc, parts.len())?;
    while let Some(part) = parts.pop() {
        items.push(Item::plain(part))?;
    }
    Ok(items)
}

fn located_items(
    alloc: Global,
    path: &Path,
    mut keys: Vec<Val>,
    mut parts: Vec<Val>,
) -> Result<Vec<Item>, NoMemory>
    requires { length keys.items ≡ length parts.items }
    ensures { IfOk result (λ xs. reverse (map item_of xs.items) ≡ map (λ p. item_at p.1 (option_map (λ ks. ks ++ p.0 ∷ []) (keys_of path.now))) (zip (map view keys.items) (map view parts.items))) }
{
    let mut items = Vec::with_capacity(alloc, parts.len())?;
    while let (Some(key), Some(part)) = (keys.pop(), parts.pop()) {
        items.push(located(alloc, part, path.copy()?, &key)?)?;
    }
    Ok(items)
}

// The keys of a value's parts: the indices of an array, or the keys of an object.
fn keys_of_parts(alloc: Global, value: &Val) -> Result<Vec<Val>, NoMemory>
    ensures { IfOk result (λ v. map view v.items ≡ part_keys (view value.now)) }
{
    match value {
        Val::List(items) => places(alloc, items.len()),
        Val::Table(members) => Ok(names(alloc, members)?),
        _ => Ok(Vec::new(alloc)),
    }
}
