// Objects under `+` and `*`.
ghost use Rattle.std.specs.Prelude.{◌≡◌, IfOk, OnOk, String};
ghost use Rattle.std.specs.declared.alloc.Global.{Global};
ghost use Rattle.std.specs.Str.{chars};
ghost use Rattle.jv_data.specs.Held.{members_in};
ghost use Rattle.jv_data.specs.Members.{member_or_null};
ghost use Rattle.jv_data.specs.View.{members_view, view};
ghost use Rattle.jv_arith.specs.Objects.{union, deep_union, united};
ghost use Rattle.jv_arith.specs.private.Uniting.{IsUnion, after, leads_to, unite_all};

use jv_data::{Iter, Object, Val};
use std::alloc::{AllocError, Global};

/// Puts the members of the right into the left object, in place if that is not shared.
pub(crate) fn put_all(left: &mut Object<Val>, right: &Object<Val>) -> Result<(), AllocError>
    ensures { OnOk result (members_in left.new ≡ union (members_in left.old) (members_in right.now)) }
{
    for (key, value) in right.iter() {
        left.insert(key.clone()?, value.clone()?)?;
    }
    Ok(())
}

// A union that waits for the union of two objects at a key.
#[derive(Drop)]
struct Open<'a> {
    members: Object<Val>,
    key: String,
    // The members of the right that are not united yet.
    rest: Iter<'a, Val>,
}

// What a union does next.
#[derive(Drop)]
enum Step<'a> {
    Done(Object<Val>),
    // The two objects, left and right, are united first.
    Deeper(Open<'a>, Object<Val>, &'a Object<Val>),
}

// How many levels are united by recursion, which is faster than a list of what is open.
const NEAR: usize = 100;

/// The members of both: two objects at one key are united in the same way, otherwise the value of the right wins.
pub(crate) fn deep_union(
    alloc: Global,
    left: Object<Val>,
    right: &Object<Val>,
) -> Result<Object<Val>, AllocError>
    ensures { IfOk result (λ o. members_in o ≡ deep_union (members_in left) (members_in right.now)) }
{
    unite_near(alloc, left, right, NEAR)
}

// This many levels by recursion, and what is deeper by a list.
#[cycle(uniting)]
fn unite_near(
    alloc: Global,
    left: Object<Val>,
    right: &Object<Val>,
    levels: usize,
) -> Result<Object<Val>, AllocError>
    ensures { IfOk result (λ o. members_in o ≡ deep_union (members_in left) (members_in right.now)) }
{
    if levels == 0 {
        return unite_far(alloc, left, right);
    }
    let mut members = left;
    for (key, value) in right.iter() {
        let value = united_near(alloc, &members, key.as_str(), value, levels - 1)?;
        members.insert(key.clone()?, value)?;
    }
    Ok(members)
}

// The value at a key of a union.
#[cycle(uniting)]
fn united_near(
    alloc: Global,
    members: &Object<Val>,
    key: &str,
    value: &Val,
    levels: usize,
) -> Result<Val, AllocError>
    ensures { IfOk result (λ v. view v ≡ united (member_or_null (chars key.now) (members_in members.now)) (view value.now)) }
{
    match objects_at(members, key, value)? {
        Some((left, right)) => Ok(Val::Table(unite_near(alloc, left, right, levels)?)),
        None => value.clone(),
    }
}

// The same by a list of the unions that are not complete, so that depth takes no stack.
fn unite_far(
    alloc: Global,
    left: Object<Val>,
    right: &Object<Val>,
) -> Result<Object<Val>, AllocError>
    ensures { IfOk result (λ o. members_in o ≡ deep_union (members_in left) (members_in right.now)) }
{
    let mut open = Vec::new(alloc);
    let mut step = next_step(left, right.iter())?;
    // (this many steps are never made, but show that the loop ends)
    for _ in 0..u64::MAX {
        match step {
            Step::Done(members) => match open.pop() {
                None => return Ok(members),
                Some(outer) => {
                    step = resumed(outer, members)?;
                    continue;
                }
            },
            Step::Deeper(outer, left, right) => {
                open.push(outer)?;
                step = next_step(left, right.iter())?;
            }
        }
    }
    Err(AllocError)
}

// A union goes on after the union that it waits for.
fn resumed<'a>(outer: Open<'a>, inner: Object<Val>) -> Result<Step<'a>, AllocError>
    ensures { IfOk result (λ step. leads_to step ≡ after outer.entry (members_in inner)) }
{
    let Open { members, key, rest } = outer;
    let mut members = members;
    members.insert(key, Val::Table(inner))?;
    next_step(members, rest)
}

// Puts members until two objects are to be united.
fn next_step<'a>(left: Object<Val>, right: Iter<'a, Val>) -> Result<Step<'a>, AllocError>
    ensures { IfOk result (λ step. leads_to step ≡ unite_all (members_in left) (members_view right.entry)) }
{
    let mut members = left;
    let mut rest = right;
    while let Some((key, value)) = rest.next() {
        match objects_at(&members, key.as_str(), value)? {
            Some((left, right)) => {
                let key = key.clone()?;
                return Ok(Step::Deeper(Open { members, key, rest }, left, right));
            }
            None => members.insert(key.clone()?, value.clone()?)?,
        }
    }
    Ok(Step::Done(members))
}

// The two objects at a key. `None` if the value of the right wins.
fn objects_at<'a>(
    members: &Object<Val>,
    key: &str,
    value: &'a Val,
) -> Result<Option<(Object<Val>, &'a Object<Val>)>, AllocError>
    ensures { IfOk result (λ found. IsUnion found (member_or_null (chars key.now) (members_in members.now)) (view value.now)) }
{
    match (members.get(key), value) {
        (Some(Val::Table(left)), Val::Table(right)) => Ok(Some((left.share()?, right))),
        _ => Ok(None),
    }
}
