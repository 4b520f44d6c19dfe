// What the drop of a value does: it takes no memory, and little of the stack however deep the value is.
use crate::Val;
use crate::containers::{Array, Members, Object};
use std::mem;

// How many levels of a value may be dropped by recursion.
const NEAR: usize = 16;

impl Val {
    // The first part of a container, if this is the only reference to its parts.
    fn first_part(&mut self) -> Option<&mut Val> {
        match self {
            Val::List(items) => items.only()?.first_mut(),
            Val::Table(members) => members.only()?.first_mut(),
            _ => None,
        }
    }

    // Takes the last part out of a container, if this is the only reference to its parts.
    fn take_last(&mut self) -> Option<Val> {
        match self {
            Val::List(items) => items.only()?.pop(),
            Val::Table(members) => members.only()?.pop_last(),
            _ => None,
        }
    }
}

// What a drop calls is not inlined, so that the drop of a number stays short.
#[inline(never)]
pub(crate) fn items_may_be_deep(items: &Array<Val>) -> bool {
    match items.if_only() {
        None => false,
        Some(items) => arrays_may_be_deep(items.as_slice(), NEAR),
    }
}

#[inline(never)]
pub(crate) fn members_may_be_deep(members: &Object<Val>) -> bool {
    match members.if_only() {
        None => false,
        Some(members) => may_lead_deep(members, NEAR),
    }
}

// Whether arrays alone may have more than this many levels below these items. An object among them looks itself how deep its
// members are when it is dropped, so its members are not looked at twice.
#[cycle(arrays)]
fn arrays_may_be_deep(items: &[Val], levels: usize) -> bool {
    for item in items {
        if array_leads_deep(item, levels) {
            return true;
        }
    }
    false
}

#[cycle(arrays)]
#[inline(always)]
fn array_leads_deep(value: &Val, levels: usize) -> bool {
    match value {
        Val::List(items) => match items.if_only() {
            Some(items) if levels != 0 => arrays_may_be_deep(items.as_slice(), levels - 1),
            _ => true,
        },
        _ => false,
    }
}

// Whether some of the items may have more than this many levels. Of a container with other references, which the drop of
// these items leaves alone, that is not known.
#[cycle(nesting)]
fn may_be_deep(items: &[Val], levels: usize) -> bool {
    for item in items {
        if leads_deep(item, levels) {
            return true;
        }
    }
    false
}

#[cycle(nesting)]
fn may_lead_deep(members: &Members<Val>, levels: usize) -> bool {
    match members {
        Members::Few(_, values) => may_be_deep(values.as_slice(), levels),
        Members::Many(map) => {
            for member in map.values() {
                if leads_deep(member, levels) {
                    return true;
                }
            }
            false
        }
    }
}

// Inlined, so that only an array or an object costs a call.
#[cycle(nesting)]
#[inline(always)]
fn leads_deep(value: &Val, levels: usize) -> bool {
    match value {
        Val::List(items) => match items.if_only() {
            Some(items) if levels != 0 => may_be_deep(items.as_slice(), levels - 1),
            _ => true,
        },
        Val::Table(members) => match members.if_only() {
            Some(members) if levels != 0 => may_lead_deep(members, levels - 1),
            _ => true,
        },
        _ => false,
    }
}

#[inline(never)]
pub(crate) fn take_items_apart(items: Array<Val>) {
    match items.into_last() {
        None => {}
        Some(items) => take_all_apart(items),
    }
}

#[inline(never)]
pub(crate) fn take_members_apart(members: Object<Val>) {
    match members.into_last() {
        None => {}
        Some(Members::Few(_, values)) => take_all_apart(values),
        Some(Members::Many(mut map)) => {
            while let Some((_, member)) = map.pop_last() {
                take_apart(member);
            }
            map.destroy_empty()
        }
    }
}

fn take_all_apart(mut values: Vec<Val>) {
    while let Some(value) = values.pop() {
        take_apart(value);
    }
    values.destroy_empty()
}

// Drops a value of any depth. What is left of the containers above the next part hangs in that part, in the place of the
// part's own first part, which comes next. So there is always a place for it.
fn take_apart(value: Val) {
    let mut above = Val::Null;
    let mut part = value;
    // (this many steps are never made, but show that the loop ends)
    for _ in 0..u64::MAX {
        match part.first_part() {
            Some(first) => {
                let next = mem::replace(first, above);
                above = part;
                part = next;
            }
            None => {
                part.discard();
                match above.take_last() {
                    None => return above.discard(),
                    Some(last) => {
                        if above.first_part().is_some() {
                            part = last;
                        } else {
                            above.discard();
                            above = last;
                            part = Val::Null;
                        }
                    }
                }
            }
        }
    }
    above.discard();
    part.discard()
}

#[cycle(discarding)]
pub(crate) fn discard_items(items: Array<Val>) {
    match items.into_last() {
        None => {}
        Some(mut items) => {
            while let Some(item) = items.pop() {
                item.discard();
            }
            items.destroy_empty()
        }
    }
}

#[cycle(discarding)]
pub(crate) fn discard_members(members: Object<Val>) {
    match members.into_last() {
        None => {}
        Some(Members::Few(_, mut values)) => {
            while let Some(value) = values.pop() {
                value.discard();
            }
            values.destroy_empty()
        }
        Some(Members::Many(mut map)) => {
            while let Some((_, member)) = map.pop_last() {
                member.discard();
            }
            map.destroy_empty()
        }
    }
}
