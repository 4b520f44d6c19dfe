// Grouping by keys.
ghost use Rattle.std.specs.Prelude.{◌≡◌, IfOk, map};
ghost use Rattle.jv_data.specs.Fails.{AnswersAs};
ghost use Rattle.jv_data.specs.Value.{array, items_of};
ghost use Rattle.jv_data.specs.View.{view};
ghost use Rattle.jq_natives.specs.private.SortedItems.{goes_with, groups_in, pair_of};
ghost use Rattle.jq_natives.specs.Sorting.{array_of, first_of_group, group_by_of, groups, unique_by_of};

use crate::sorting::{KeyedItem, array_of, first_item, sorted};
use jv_data::{Array, Fail, Val, order};
use std::alloc::{AllocError, Global};
use std::mem;

/// `_group_by(keys)`: an array of the items of each key, in the order of the keys (manual of jq 1.7,
/// "group_by(path_expression)").
pub(crate) fn group_by(alloc: Global, value: Val, keys: &Val) -> Result<Val, Fail>
    ensures { AnswersAs result (group_by_of (view value) (view keys.now)) }
{
    let text = " cannot be grouped, as it is not an array";
    match sorted(alloc, value, keys, text) {
        Ok(sorted) => {
            let groups = groups(alloc, sorted)?;
            Ok(arrays_of_groups(alloc, groups)?)
        }
        Err(failure) => Err(failure),
    }
}

/// `_unique_by(keys)`: the first item of each key, in the order of the keys (manual of jq 1.7, "unique,
/// unique_by(path_exp)").
pub(crate) fn unique_by(alloc: Global, value: Val, keys: &Val) -> Result<Val, Fail>
    ensures { AnswersAs result (unique_by_of (view value) (view keys.now)) }
{
    let text = " cannot be grouped, as it is not an array";
    match sorted(alloc, value, keys, text) {
        Ok(sorted) => {
            let groups = groups(alloc, sorted)?;
            Ok(firsts_of_groups(alloc, groups)?)
        }
        Err(failure) => Err(failure),
    }
}

// Groups of neighbours that have the same key.
fn groups(alloc: Global, sorted: Vec<KeyedItem>) -> Result<Vec<Vec<KeyedItem>>, AllocError>
    ensures { IfOk result (λ v. groups_in v.items ≡ groups (map pair_of sorted.items)) }
{
    let mut groups = Vec::new(alloc);
    let mut group = Vec::new(alloc);
    for pair in sorted {
        if goes_with(group.as_slice(), &pair) {
            group.push(pair)?;
        } else {
            groups.push(mem::replace(&mut group, vec![in alloc; pair]?))?;
        }
    }
    if group.is_empty() {
        return Ok(groups);
    }
    groups.push(group)?;
    Ok(groups)
}

// Whether the pair has the key of the group. An empty group accepts every key.
fn goes_with(group: &[KeyedItem], pair: &KeyedItem) -> bool
    ensures { result ≡ goes_with (map pair_of group.now) (pair_of pair.now) }
{
    match group.first() {
        Some(first) => order(&first.key, &pair.key).is_eq(),
        None => true,
    }
}

fn arrays_of_groups(alloc: Global, groups: Vec<Vec<KeyedItem>>) -> Result<Val, AllocError>
    ensures { IfOk result (λ v. view v ≡ array (items_of (map array_of (groups_in groups.items)))) }
{
    let mut items = Vec::with_capacity(alloc, groups.len())?;
    for group in groups {
        items.push(array_of(alloc, group)?)?;
    }
    Ok(Val::List(Array::from_vec(alloc, items)?))
}

fn firsts_of_groups(alloc: Global, groups: Vec<Vec<KeyedItem>>) -> Result<Val, AllocError>
    ensures { IfOk result (λ v. view v ≡ array (items_of (map first_of_group (groups_in groups.items)))) }
{
    let mut items = Vec::with_capacity(alloc, groups.len())?;
    for group in groups {
        items.push(first_item(group))?;
    }
    Ok(Val::List(Array::from_vec(alloc, items)?))
}
