// Sorting and choosing by keys.
ghost use Rattle.std.specs.Prelude.{◌≡◌, IfOk, IfSome, MatchResult, map, zip, true};
ghost use Rattle.std.specs.Char.{is_ascii};
ghost use Rattle.std.specs.List.{list_all};
ghost use Rattle.jv_data.specs.Fails.{AnswersAs, FailsAs};
ghost use Rattle.jv_data.specs.View.{view};
ghost use Rattle.jq_natives.specs.private.SortedItems.{AreKeysOf, ArePairsOf, AreSortedPairsOf, FailsForPairs, in_array, pair_of};
ghost use Rattle.jq_natives.specs.Sorting.{array_of, first_of_group, last_of_group, max_by_of, min_by_of, sort_by_of, unmatched_keys};

use jv_data::{Array, Fail, Val, copies, order, raise, raise_kind};
use std::alloc::{AllocError, Global};

/// An item of an array with the key that it is sorted by, or with the only item of that key where each key is an array of one
/// item.
#[derive(Drop)]
pub(crate) struct KeyedItem {
    pub(crate) key: Val,
    pub(crate) item: Val,
}

/// `_sort_by(keys)`: the items in the order of their keys; items with equal keys keep their order (manual of jq 1.7,
/// "sort, sort_by(path_expression)").
pub(crate) fn sort_by(alloc: Global, value: Val, keys: &Val) -> Result<Val, Fail>
    ensures { AnswersAs result (sort_by_of (view value) (view keys.now)) }
{
    let text = " cannot be sorted, as it is not an array";
    match sorted(alloc, value, keys, text) {
        Ok(sorted) => Ok(array_of(alloc, sorted)?),
        Err(failure) => Err(failure),
    }
}

/// `_min_by(keys)`: the first item of the least key, or null if there is no item (manual of jq 1.7, "min, max, min_by,
/// max_by").
pub(crate) fn min_by(alloc: Global, value: Val, keys: &Val) -> Result<Val, Fail>
    ensures { AnswersAs result (min_by_of (view value) (view keys.now)) }
{
    match sorted(alloc, value, keys, " has no least or greatest item") {
        Ok(sorted) => Ok(first_item(sorted)),
        Err(failure) => Err(failure),
    }
}

/// `_max_by(keys)`: the last item of the greatest key, or null if there is no item (manual of jq 1.7, "min, max,
/// min_by, max_by").
pub(crate) fn max_by(alloc: Global, value: Val, keys: &Val) -> Result<Val, Fail>
    ensures { AnswersAs result (max_by_of (view value) (view keys.now)) }
{
    match sorted(alloc, value, keys, " has no least or greatest item") {
        Ok(sorted) => Ok(last_item(sorted)),
        Err(failure) => Err(failure),
    }
}

/// The items of an array in the order of their keys. The items of an array that is not shared are moved.
pub(crate) fn sorted(
    alloc: Global,
    value: Val,
    keys: &Val,
    text: &str,
) -> Result<Vec<KeyedItem>, Fail>
    requires { list_all is_ascii text.now ≡ true }
    ensures { MatchResult result
        (λ v. AreSortedPairsOf text.now (view value) (view keys.now) (map pair_of v.items))
        (λ e. FailsForPairs e text.now (view value) (view keys.now)) }
{
    let mut items = keyed(alloc, value, keys, text)?;
    items.sort_by(|left, right| order(&left.key, &right.key))?;
    Ok(items)
}

// The items of an array with their keys.
fn keyed(alloc: Global, value: Val, keys: &Val, text: &str) -> Result<Vec<KeyedItem>, Fail>
    requires { list_all is_ascii text.now ≡ true }
    ensures { MatchResult result
        (λ v. ArePairsOf text.now (view value) (view keys.now) (map pair_of v.items))
        (λ e. FailsForPairs e text.now (view value) (view keys.now)) }
{
    match (&value, keys) {
        (Val::List(items), Val::List(keys)) => {
            if items.len() != keys.len() {
                return Err(unmatched_keys(alloc));
            }
            let keys = compared_keys(alloc, keys.as_slice())?;
            let items = value.into_list().into_values()?;
            Ok(pairs(alloc, keys, items)?)
        }
        (Val::List(_), _) => Err(unmatched_keys(alloc)),
        _ => Err(raise_kind(alloc, &value, text)),
    }
}

// The error of keys that are no array, or not as many as the items.
fn unmatched_keys(alloc: Global) -> Fail
    ensures { FailsAs result unmatched_keys }
{
    raise(alloc, "keys do not match")
}

// What the items are sorted by: the only item of each key, if each key is an array of one item, and else the keys themselves.
fn compared_keys(alloc: Global, keys: &[Val]) -> Result<Vec<Val>, AllocError>
    ensures { IfOk result (λ v. AreKeysOf (map view keys.now) (map view v.items)) }
{
    match only_items(alloc, keys)? {
        Some(items) => Ok(items),
        None => copies(alloc, keys),
    }
}

// The only item of each key, or `None` if a key is no array of one item.
fn only_items(alloc: Global, keys: &[Val]) -> Result<Option<Vec<Val>>, AllocError>
    ensures { IfOk result (λ found. IfSome found (λ v. map view keys.now ≡ map in_array (map view v.items))) }
{
    let mut items = Vec::with_capacity(alloc, keys.len())?;
    for key in keys {
        match only_item(key) {
            Some(item) => items.push(item.clone()?)?,
            None => return Ok(None),
        }
    }
    Ok(Some(items))
}

fn only_item(key: &Val) -> Option<&Val>
    ensures { IfSome result (λ item. view key.now ≡ in_array (view item.now)) }
{
    match key {
        Val::List(items) => match items.as_slice() {
            [item] => Some(item),
            _ => None,
        },
        _ => None,
    }
}

// Each item with the key at its index.
fn pairs(alloc: Global, keys: Vec<Val>, items: Vec<Val>) -> Result<Vec<KeyedItem>, AllocError>
    ensures { IfOk result (λ v. map pair_of v.items ≡ zip (map view keys.items) (map view items.items)) }
{
    let mut pairs = Vec::with_capacity(alloc, items.len())?;
    let mut others = items.into_iter();
    for key in keys {
        let Some(item) = others.next() else {
            return Ok(pairs);
        };
        pairs.push(KeyedItem { key, item })?;
    }
    Ok(pairs)
}

/// The array of the items without their keys.
pub(crate) fn array_of(alloc: Global, keyed: Vec<KeyedItem>) -> Result<Val, AllocError>
    ensures { IfOk result (λ v. view v ≡ array_of (map pair_of keyed.items)) }
{
    let mut items = Vec::with_capacity(alloc, keyed.len())?;
    for pair in keyed {
        items.push(pair.item)?;
    }
    Ok(Val::List(Array::from_vec(alloc, items)?))
}

/// The first item, or null if there is none.
pub(crate) fn first_item(keyed: Vec<KeyedItem>) -> Val
    ensures { view result ≡ first_of_group (map pair_of keyed.items) }
{
    match keyed.into_iter().next() {
        Some(first) => first.item,
        None => Val::Null,
    }
}

fn last_item(keyed: Vec<KeyedItem>) -> Val
    ensures { view result ≡ last_of_group (map pair_of keyed.items) }
{
    let mut keyed = keyed;
    match keyed.pop() {
        Some(last) => last.item,
        None => Val::Null,
    }
}
