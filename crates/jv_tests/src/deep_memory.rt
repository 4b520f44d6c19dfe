// Calls on values of 130 levels that are refused memory (tests/growth.py refuses each allocation in turn). These calls keep the
// containers that are open in a list, those that recurse below 100 levels, and the growth of this list is refused too.
use crate::memory::{call_again, mark, print_again};
use jv_data::{Array, Object, Val, order, same};
use jv_text::{Style, print};
use std::alloc::{AllocError, Global};
use std::cmp::Ordering;
use std::process::Abort;
use std::str;
use std::test::Fail;

const LEVELS: usize = 130;

// The containers of a value. In that with both, every second one is an array.
#[derive(Clone, Copy)]
enum Kind {
    Arrays,
    Objects,
    Both,
}

const KINDS: [Kind; 3] = [Kind::Arrays, Kind::Objects, Kind::Both];

impl Kind {
    // Whether the container at this level is an array. The innermost one is at level 0.
    fn has_array(self, level: usize) -> bool {
        match self {
            Kind::Arrays => true,
            Kind::Objects => false,
            Kind::Both => level % 2 == 0,
        }
    }
}

fn array_of(alloc: Global, first: i64, part: Val, last: i64) -> Result<Val, AllocError> {
    let mut items = Vec::with_capacity(alloc, 3)?;
    items.push(Val::Num(first))?;
    items.push(part)?;
    items.push(Val::Num(last))?;
    Ok(Val::List(Array::from_vec(alloc, items)?))
}

fn object_of(alloc: Global, others: &[(&str, i64)], part: Val) -> Result<Val, AllocError> {
    let mut members = Object::new(alloc)?;
    members.insert(String::from_str(alloc, "m")?, part)?;
    for (key, number) in others {
        members.insert(String::from_str(alloc, *key)?, Val::Num(*number))?;
    }
    Ok(Val::Table(members))
}

// The containers from a level on, around this value. Each has another value before and after it.
fn around(alloc: Global, kind: Kind, first: usize, part: Val) -> Result<Val, AllocError> {
    let mut value = part;
    for level in first..LEVELS {
        value = if kind.has_array(level) {
            array_of(alloc, 0, value, 2)?
        } else {
            object_of(alloc, &[("a", 0), ("z", 2)], value)?
        };
    }
    Ok(value)
}

fn deep(alloc: Global, kind: Kind, innermost: i64) -> Result<Val, AllocError> {
    around(alloc, kind, 0, Val::Num(innermost))
}

// ---- the order

// Where the list cannot grow, the order is found without it.
#[test]
fn ordering(rt: HostRuntime) -> Result<(), Fail> {
    let alloc = rt.alloc();
    let mut rows = Vec::new(alloc);
    for kind in KINDS {
        rows.push((
            deep(alloc, kind, 1)?,
            deep(alloc, kind, 1)?,
            deep(alloc, kind, 2)?,
        ))?;
    }
    let mark = mark(alloc)?;
    for (value, equal, greater) in &rows {
        check_order(&rt, value, equal, greater);
    }
    assert!(rt; mark.is_empty());
    Ok(())
}

fn check_order(rt: &impl Abort, value: &Val, equal: &Val, greater: &Val) {
    assert_eq!(rt; order(value, equal), Ordering::Equal);
    assert_eq!(rt; order(value, greater), Ordering::Less);
    assert_eq!(rt; order(greater, value), Ordering::Greater);
    assert!(rt; same(value, equal));
    assert!(rt; !same(value, greater));
}

// ---- printing

// The compact text of the value around 1.
fn shown(alloc: Global, kind: Kind) -> Result<String, Fail> {
    let mut text = String::from_str(alloc, "1")?;
    for level in 0..LEVELS {
        text = if kind.has_array(level) {
            format!(in alloc; "[0,{text},2]")?
        } else {
            format!(in alloc; "{{\"a\":0,\"m\":{text},\"z\":2}}")?
        };
    }
    text.push('\n')?;
    Ok(text)
}

// The value is printed as with enough memory, after bytes that stay as they are if memory runs out.
fn check_printed(
    rt: &(impl Abort + AllocGlobal),
    value: &Val,
    style: Style,
    want: &str,
) -> Result<(), Fail> {
    for before in ["", "before\n"] {
        print_again(rt, value, style, before, want)?;
    }
    Ok(())
}

#[test]
fn printing_on_a_line(rt: HostRuntime) -> Result<(), Fail> {
    let alloc = rt.alloc();
    let style = Style {
        compact: true,
        raw: false,
        join: false,
    };
    let mut rows = Vec::new(alloc);
    for kind in KINDS {
        rows.push((deep(alloc, kind, 1)?, shown(alloc, kind)?))?;
    }
    let mark = mark(alloc)?;
    for (value, want) in &rows {
        check_printed(&rt, value, style, want.as_str())?;
    }
    assert!(rt; mark.is_empty());
    Ok(())
}

#[test]
fn printing_on_many_lines(rt: HostRuntime) -> Result<(), Fail> {
    let alloc = rt.alloc();
    let style = Style {
        compact: false,
        raw: false,
        join: false,
    };
    let mut rows = Vec::new(alloc);
    for kind in KINDS {
        let value = deep(alloc, kind, 1)?;
        let mut want = Vec::new(alloc);
        print(alloc, &value, style, &mut want)?;
        rows.push((value, want))?;
    }
    let mark = mark(alloc)?;
    for (value, want) in &rows {
        check_printed(&rt, value, style, str::from_utf8(want)?)?;
    }
    assert!(rt; mark.is_empty());
    Ok(())
}

// ---- paths and unions

// The keys of the parts, down to this level, and then a last one.
fn path_to(alloc: Global, kind: Kind, last: Val) -> Result<Val, AllocError> {
    let mut keys = Vec::with_capacity(alloc, LEVELS)?;
    for level in (1..LEVELS).rev() {
        keys.push(key_at(alloc, kind, level)?)?;
    }
    keys.push(last)?;
    Ok(Val::List(Array::from_vec(alloc, keys)?))
}

fn key_at(alloc: Global, kind: Kind, level: usize) -> Result<Val, AllocError> {
    if kind.has_array(level) {
        return Ok(Val::Num(1));
    }
    Val::from_text(alloc, "m")
}

// The paths to the innermost value, and to the one before it.
fn paths_to(alloc: Global, kind: Kind) -> Result<Val, AllocError> {
    let before = if kind.has_array(0) {
        Val::Num(0)
    } else {
        Val::from_text(alloc, "a")?
    };
    let mut paths = Vec::with_capacity(alloc, 2)?;
    paths.push(path_to(alloc, kind, key_at(alloc, kind, 0)?)?)?;
    paths.push(path_to(alloc, kind, before)?)?;
    Ok(Val::List(Array::from_vec(alloc, paths)?))
}

// The value without what these paths lead to.
fn left_over(alloc: Global, kind: Kind) -> Result<Val, AllocError> {
    let innermost = if kind.has_array(0) {
        let mut items = Vec::with_capacity(alloc, 1)?;
        items.push(Val::Num(2))?;
        Val::List(Array::from_vec(alloc, items)?)
    } else {
        let mut members = Object::new(alloc)?;
        members.insert(String::from_str(alloc, "z")?, Val::Num(2))?;
        Val::Table(members)
    };
    around(alloc, kind, 1, innermost)
}

// The call answers so on these values, which stay as they are.
fn check_call(
    rt: &(impl Abort + AllocGlobal),
    name: &str,
    (values, kept): (&[Val; 3], &Val),
    want: &Val,
) -> Result<(), Fail> {
    let found = call_again(rt.alloc(), name, values)?;
    assert!(rt; same(&found, want), "{name}");
    assert!(rt; same(&values[0], kept), "{name}");
    Ok(())
}

// The value, a path in it and what is put there.
fn at_path(alloc: Global, kind: Kind) -> Result<[Val; 3], AllocError> {
    let path = path_to(alloc, kind, key_at(alloc, kind, 0)?)?;
    Ok([deep(alloc, kind, 1)?, path, Val::Num(2)])
}

fn at_paths(alloc: Global, kind: Kind) -> Result<[Val; 3], AllocError> {
    Ok([deep(alloc, kind, 1)?, paths_to(alloc, kind)?, Val::Null])
}

fn check_paths(rt: &(impl Abort + AllocGlobal), kind: Kind) -> Result<(), Fail> {
    let alloc = rt.alloc();
    let kept = deep(alloc, kind, 1)?;
    let (set, left) = (deep(alloc, kind, 2)?, left_over(alloc, kind)?);
    check_at(rt, kind, &kept, [&set, &left])
}

// The part is found and set, and removed with the one before it. `kept` is the value before each call.
fn check_at(
    rt: &(impl Abort + AllocGlobal),
    kind: Kind,
    kept: &Val,
    [set, left]: [&Val; 2],
) -> Result<(), Fail> {
    let at_path = at_path(rt.alloc(), kind)?;
    let at_paths = at_paths(rt.alloc(), kind)?;
    let mark = mark(rt.alloc())?;
    check_call(rt, "getpath", (&at_path, kept), &Val::Num(1))?;
    check_call(rt, "setpath", (&at_path, kept), set)?;
    check_call(rt, "delpaths", (&at_paths, kept), left)?;
    assert!(rt; mark.is_empty());
    Ok(())
}

#[test]
fn paths_through_arrays(rt: HostRuntime) -> Result<(), Fail> {
    check_paths(&rt, Kind::Arrays)
}

#[test]
fn paths_through_objects(rt: HostRuntime) -> Result<(), Fail> {
    check_paths(&rt, Kind::Objects)
}

#[test]
fn paths_through_both(rt: HostRuntime) -> Result<(), Fail> {
    check_paths(&rt, Kind::Both)
}

// Objects at each level, with these other members too, the innermost one around 1.
fn objects_with(alloc: Global, others: &[(&str, i64)]) -> Result<Val, AllocError> {
    let mut value = Val::Num(1);
    for _ in 0..LEVELS {
        value = object_of(alloc, others, value)?;
    }
    Ok(value)
}

#[test]
fn unions(rt: HostRuntime) -> Result<(), Fail> {
    let alloc = rt.alloc();
    let left = [("a", 1), ("b", 2)];
    let right = [("b", 3), ("z", 4)];
    let both = [("a", 1), ("b", 3), ("z", 4)];
    let kept = objects_with(alloc, &left)?;
    let values = [
        objects_with(alloc, &left)?,
        objects_with(alloc, &right)?,
        Val::Null,
    ];
    let want = objects_with(alloc, &both)?;
    let mark = mark(alloc)?;
    check_call(&rt, "mul", (&values, &kept), &want)?;
    assert!(rt; mark.is_empty());
    Ok(())
}
