// Values of 100,000 levels: neither their order nor their text nor their drop nor a change of a part nor a union takes a part of
// the stack for each level.
use jv_arith::mul;
use jv_data::{Array, Object, Val, order, same};
use jv_text::to_compact_string;
use jv_value::{delpaths, getpath, setpath};
use std::alloc::{AllocError, Global};
use std::cmp::Ordering;
use std::process::Abort;
use std::test::Fail;

const LEVELS: usize = 100_000;

fn in_array(alloc: Global, value: Val) -> Result<Val, AllocError> {
    let mut items = Vec::with_capacity(alloc, 1)?;
    items.push(value)?;
    Ok(Val::List(Array::from_vec(alloc, items)?))
}

fn in_object(alloc: Global, key: &str, value: Val) -> Result<Val, AllocError> {
    let mut members = Object::new(alloc)?;
    members.insert(String::from_str(alloc, key)?, value)?;
    Ok(Val::Table(members))
}

fn arrays(alloc: Global, innermost: i64) -> Result<Val, AllocError> {
    let mut value = Val::Num(innermost);
    for _ in 0..LEVELS {
        value = in_array(alloc, value)?;
    }
    Ok(value)
}

fn objects(alloc: Global, innermost: i64) -> Result<Val, AllocError> {
    in_objects(alloc, Val::Num(innermost))
}

fn in_objects(alloc: Global, innermost: Val) -> Result<Val, AllocError> {
    let mut value = innermost;
    for _ in 0..LEVELS {
        value = in_object(alloc, "a", value)?;
    }
    Ok(value)
}

// Of two values that are equal but for the innermost number.
fn check(
    rt: &(impl Abort + AllocGlobal),
    value: &Val,
    greater: &Val,
    length: usize,
) -> Result<(), Fail> {
    assert_eq!(rt; order(value, greater), Ordering::Less);
    assert_eq!(rt; order(greater, value), Ordering::Greater);
    assert!(rt; same(value, value));
    assert_eq!(rt; to_compact_string(rt.alloc(), value)?.len(), length);
    Ok(())
}

#[test]
fn arrays_of_many_levels(rt: HostRuntime) -> Result<(), Fail> {
    let value = arrays(rt.alloc(), 1)?;
    let greater = arrays(rt.alloc(), 2)?;
    check(&rt, &value, &greater, 2 * LEVELS + 1)
}

#[test]
fn objects_of_many_levels(rt: HostRuntime) -> Result<(), Fail> {
    let value = objects(rt.alloc(), 1)?;
    let greater = objects(rt.alloc(), 2)?;
    check(&rt, &value, &greater, 6 * LEVELS + 1)
}

// The path to the innermost number.
fn path_of(alloc: Global, key: &Val) -> Result<Vec<Val>, AllocError> {
    let mut path = Vec::with_capacity(alloc, LEVELS)?;
    for _ in 0..LEVELS {
        path.push(key.clone()?)?;
    }
    Ok(path)
}

// The value with 2 in place of the innermost number, and the value without that.
fn change(
    rt: &(impl Abort + AllocGlobal),
    value: Val,
    greater: &Val,
    key: &Val,
) -> Result<Val, Fail> {
    let alloc = rt.alloc();
    let path = path_of(alloc, key)?;
    let Ok(set) = setpath(alloc, value, path.as_slice(), Val::Num(2)) else {
        return Err("no value is set")?;
    };
    assert!(rt; same(&set, greater));
    assert!(rt; same(&part_at(alloc, &set, &path)?, &Val::Num(2)));
    without(alloc, set, path)
}

fn part_at(alloc: Global, value: &Val, path: &[Val]) -> Result<Val, Fail> {
    match getpath(alloc, value, path) {
        Ok(part) => Ok(part),
        Err(_) => Err("no part is found")?,
    }
}

fn without(alloc: Global, value: Val, path: Vec<Val>) -> Result<Val, Fail> {
    let mut paths = Vec::with_capacity(alloc, 1)?;
    paths.push(path)?;
    match delpaths(alloc, value, paths) {
        Ok(left) => Ok(left),
        Err(_) => Err("no part is deleted")?,
    }
}

#[test]
fn items_of_many_levels(rt: HostRuntime) -> Result<(), Fail> {
    let alloc = rt.alloc();
    let greater = arrays(alloc, 2)?;
    let left = change(&rt, arrays(alloc, 1)?, &greater, &Val::Num(0))?;
    assert_eq!(rt; to_compact_string(alloc, &left)?.len(), 2 * LEVELS);
    Ok(())
}

#[test]
fn members_of_many_levels(rt: HostRuntime) -> Result<(), Fail> {
    let alloc = rt.alloc();
    let greater = objects(alloc, 2)?;
    let name = Val::from_text(alloc, "a")?;
    let left = change(&rt, objects(alloc, 1)?, &greater, &name)?;
    assert_eq!(rt; to_compact_string(alloc, &left)?.len(), 6 * LEVELS - 4);
    Ok(())
}

// The two innermost objects are united.
#[test]
fn union_of_many_levels(rt: HostRuntime) -> Result<(), Fail> {
    let alloc = rt.alloc();
    let united = union(alloc)?;
    let path = path_of(alloc, &Val::from_text(alloc, "a")?)?;
    let text = to_compact_string(alloc, &part_at(alloc, &united, &path)?)?;
    assert_eq!(rt; text.as_str(), "{\"b\":1,\"c\":2}");
    Ok(())
}

fn union(alloc: Global) -> Result<Val, Fail> {
    let left = in_objects(alloc, in_object(alloc, "b", Val::Num(1))?)?;
    let right = in_objects(alloc, in_object(alloc, "c", Val::Num(2))?)?;
    match mul(alloc, &left, &right) {
        Ok(united) => Ok(united),
        Err(_) => Err("no union is made")?,
    }
}
