// The order of values.
ghost use Rattle.std.specs.Prelude.{◌≡◌, ◌↔◌, IfSome, IsTrue};
ghost use Rattle.std.specs.Cmp.Lexicographic.{slice_cmp};
ghost use Rattle.jv_data.specs.Held.{members_in};
ghost use Rattle.jv_data.specs.Value.{rank, compare, compare_items, compare_members, keys, text_cmp};
ghost use Rattle.jv_data.specs.View.{view, items_view};
ghost use Rattle.jv_data.specs.private.Pairs.{parts_order};

use crate::pairs::{Pair, order_in_list, pair_of};
use crate::{Object, Val};
use std::cmp::Ordering;

// How many levels are compared by recursion, which is faster than a list of what is open.
const NEAR: usize = 100;

/// The order of values (manual of jq 1.7, "sort, sort_by(path_expression)"): `null`, `false`, `true`, numbers, strings by their code points, arrays
/// item by item, objects by their sorted keys and then value by value.
pub fn order(left: &Val, right: &Val) -> Ordering
    ensures { result ≡ compare (view left.now) (view right.now) }
{
    order_near(left, right, NEAR)
}

// This many levels by recursion, and what is deeper by a list of what is open. Where the list cannot grow, one more level
// goes by recursion, which takes no memory.
#[cycle(ordering)]
fn order_near(left: &Val, right: &Val, levels: usize) -> Ordering
    ensures { result ≡ compare (view left.now) (view right.now) }
{
    match (left, right) {
        (Val::Bool(x), Val::Bool(y)) => x.cmp(y),
        (Val::Num(x), Val::Num(y)) => x.cmp(y),
        (Val::Text(x), Val::Text(y)) => x.as_str().cmp(y.as_str()),
        (Val::List(xs), Val::List(ys)) => {
            if levels == 0 {
                if let Some(ordering) = order_far(left, right) {
                    return ordering;
                }
            }
            order_items(xs.as_slice(), ys.as_slice(), levels.saturating_sub(1))
        }
        (Val::Table(xs), Val::Table(ys)) => {
            if levels == 0 {
                if let Some(ordering) = order_far(left, right) {
                    return ordering;
                }
            }
            match order_keys(xs, ys) {
                Ordering::Equal => order_members(xs, ys, levels.saturating_sub(1)),
                unequal => unequal,
            }
        }
        _ => rank(left).cmp(&rank(right)),
    }
}

// The order by a list of what is open, or `None` if the list could not grow.
fn order_far(left: &Val, right: &Val) -> Option<Ordering>
    ensures { IfSome result (λ o. o ≡ compare (view left.now) (view right.now)) }
{
    match pair_of(left, right) {
        Err(ordering) => Some(ordering),
        Ok(pair) => in_list(left, pair),
    }
}

// Two containers by a list of what is open. `None` if the list could not grow.
fn in_list(left: &Val, pair: Pair<'_>) -> Option<Ordering>
    ensures { IfSome result (λ o. o ≡ parts_order pair.entry) }
{
    match left {
        Val::List(items) => order_in_list(items.allocator(), pair),
        Val::Table(members) => match members.iter().next() {
            Some((key, _)) => order_in_list(*key.allocator(), pair),
            None => None,
        },
        _ => None,
    }
}

/// Whether the two values are equal.
pub fn same(left: &Val, right: &Val) -> bool
    ensures { IsTrue result ↔ (view left.now ≡ view right.now) }
{
    order(left, right).is_eq()
}

pub(crate) fn rank(value: &Val) -> u8
    ensures { result ≡ rank (view value.now) }
{
    match value {
        Val::Null => 0,
        Val::Bool(_) => 1,
        Val::Num(_) => 2,
        Val::Text(_) => 3,
        Val::List(_) => 4,
        Val::Table(_) => 5,
    }
}

// Item by item; a prefix comes first.
#[cycle(ordering)]
fn order_items(left: &[Val], right: &[Val], levels: usize) -> Ordering
    ensures { result ≡ compare_items (items_view left.now) (items_view right.now) }
{
    let mut others = right.iter();
    for item in left {
        match others.next() {
            None => return Ordering::Greater,
            Some(other) => match order_near(item, other, levels) {
                Ordering::Equal => {}
                unequal => return unequal,
            },
        }
    }
    match others.next() {
        None => Ordering::Equal,
        Some(_) => Ordering::Less,
    }
}

// Key by key; a prefix comes first.
pub(crate) fn order_keys(left: &Object<Val>, right: &Object<Val>) -> Ordering
    ensures { result ≡ slice_cmp text_cmp (keys (members_in left.now)) (keys (members_in right.now)) }
{
    let mut others = right.iter();
    for (key, _) in left.iter() {
        match others.next() {
            None => return Ordering::Greater,
            Some((other, _)) => match key.as_str().cmp(other.as_str()) {
                Ordering::Equal => {}
                unequal => return unequal,
            },
        }
    }
    match others.next() {
        None => Ordering::Equal,
        Some(_) => Ordering::Less,
    }
}

// Value by value, for objects with the same keys.
#[cycle(ordering)]
fn order_members(left: &Object<Val>, right: &Object<Val>, levels: usize) -> Ordering
    ensures { result ≡ compare_members (members_in left.now) (members_in right.now) }
{
    let mut others = right.iter();
    for (_, member) in left.iter() {
        match others.next() {
            None => return Ordering::Equal,
            Some((_, other)) => match order_near(member, other, levels) {
                Ordering::Equal => {}
                unequal => return unequal,
            },
        }
    }
    Ordering::Equal
}
