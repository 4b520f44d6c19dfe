// Two containers that are compared part by part. What is open is in a list, so that depth takes no stack.
ghost use Rattle.std.specs.Prelude.{◌≡◌, IfSome, MatchResult, String};
ghost use Rattle.std.specs.declared.alloc.Global.{Global};
ghost use Rattle.jv_data.specs.Value.{compare, compare_items, compare_members};
ghost use Rattle.jv_data.specs.View.{view, items_view, members_view};
ghost use Rattle.jv_data.specs.private.Pairs.{parts_order, told_order};

use crate::ordering::{order_keys, rank};
use crate::{Iter, Val};
use std::alloc::Global;
use std::cmp::Ordering;

// The parts of two arrays, or of two objects with the same keys, that are left to compare.
#[derive(Drop)]
pub(crate) enum Pair<'a> {
    Items(&'a [Val], &'a [Val]),
    Members(Iter<'a, Val>, Iter<'a, Val>),
}

// The order of the parts, or `None` if the list of what is open could not grow.
pub(crate) fn order_in_list<'a>(alloc: Global, first: Pair<'a>) -> Option<Ordering>
    ensures { IfSome result (λ o. o ≡ parts_order first.entry) }
{
    let mut open = Vec::new(alloc);
    let mut pair = first;
    // (this many steps are never made, but show that the loop ends)
    for _ in 0..u64::MAX {
        match next_parts(pair) {
            Err(Ordering::Equal) => match open.pop() {
                None => return Some(Ordering::Equal),
                Some(above) => pair = above,
            },
            Err(unequal) => return Some(unequal),
            Ok((left, right, rest)) => match pair_of(left, right) {
                Err(Ordering::Equal) => pair = rest,
                Err(unequal) => return Some(unequal),
                Ok(parts) => {
                    match open.push(rest) {
                        Ok(()) => {}
                        Err(_) => return None,
                    }
                    pair = parts;
                }
            },
        }
    }
    None
}

// Two containers of one kind, or the order of other values.
pub(crate) fn pair_of<'a>(left: &'a Val, right: &'a Val) -> Result<Pair<'a>, Ordering>
    ensures { MatchResult result
        (λ pair. parts_order pair ≡ compare (view left.now) (view right.now))
        (λ o. o ≡ compare (view left.now) (view right.now)) }
{
    match (left, right) {
        (Val::Bool(x), Val::Bool(y)) => Err(x.cmp(y)),
        (Val::Num(x), Val::Num(y)) => Err(x.cmp(y)),
        (Val::Text(x), Val::Text(y)) => Err(x.as_str().cmp(y.as_str())),
        (Val::List(xs), Val::List(ys)) => Ok(Pair::Items(xs.as_slice(), ys.as_slice())),
        (Val::Table(xs), Val::Table(ys)) => match order_keys(xs, ys) {
            Ordering::Equal => Ok(Pair::Members(xs.iter(), ys.iter())),
            unequal => Err(unequal),
        },
        _ => Err(rank(left).cmp(&rank(right))),
    }
}

// The next part of each and what is left after them, or the order if one of them has no more parts.
fn next_parts<'a>(pair: Pair<'a>) -> Result<(&'a Val, &'a Val, Pair<'a>), Ordering>
    ensures { told_order result ≡ parts_order pair.entry }
{
    match pair {
        Pair::Items(left, right) => next_items(left, right),
        Pair::Members(left, right) => next_members(left, right),
    }
}

fn next_items<'a>(
    left: &'a [Val],
    right: &'a [Val],
) -> Result<(&'a Val, &'a Val, Pair<'a>), Ordering>
    ensures { told_order result ≡ compare_items (items_view left.now) (items_view right.now) }
{
    match left.split_first() {
        None => match right.split_first() {
            None => Err(Ordering::Equal),
            Some(_) => Err(Ordering::Less),
        },
        Some((item, items)) => match right.split_first() {
            None => Err(Ordering::Greater),
            Some((other, others)) => Ok((item, other, Pair::Items(items, others))),
        },
    }
}

fn next_members<'a>(
    left: Iter<'a, Val>,
    right: Iter<'a, Val>,
) -> Result<(&'a Val, &'a Val, Pair<'a>), Ordering>
    ensures { told_order result ≡ compare_members (members_view left.entry) (members_view right.entry) }
{
    let mut members = left;
    let mut others = right;
    match members.next() {
        None => Err(Ordering::Equal),
        Some((_, member)) => match others.next() {
            None => Err(Ordering::Equal),
            Some((_, other)) => Ok((member, other, Pair::Members(members, others))),
        },
    }
}
