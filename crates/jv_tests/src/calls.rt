// Calls on values that the program itself does not make: each returns its answer, and leaves its arguments unchanged.
use crate::containers::{assert_is, read};
use jv_arith::add;
use jv_data::{Fail as Failure, Val};
use jv_value::slice;
use std::process::Abort;
use std::test::Fail;

// The call returned this, and left its argument as it was.
fn check(
    rt: &(impl Abort + AllocGlobal),
    found: Result<Val, Failure>,
    want: &str,
    (value, text): (&Val, &str),
) -> Result<(), Fail> {
    let Ok(found) = found else {
        return Err("no value")?;
    };
    assert_is(rt, &found, want)?;
    assert_is(rt, value, text)
}

static SUMS: [[&str; 3]; 4] = [
    ["2", "3", "5"],
    ["[1]", "[2,3]", "[1,2,3]"],
    [r#"{"a":1,"b":2}"#, r#"{"b":3}"#, r#"{"a":1,"b":3}"#],
    ["null", r#""x""#, r#""x""#],
];

#[test]
fn sums(rt: HostRuntime) -> Result<(), Fail> {
    let alloc = rt.alloc();
    for [left, right, sum] in &SUMS {
        let value = read(alloc, *left)?;
        let found = add(alloc, &value, &read(alloc, *right)?);
        check(&rt, found, *sum, (&value, *left))?;
    }
    Ok(())
}

static SLICES: [[&str; 4]; 4] = [
    ["[1,2,3,4]", "1", "3", "[2,3]"],
    ["[1,2,3,4]", "-1", "null", "[4]"],
    [r#""höhe""#, "1", "2", r#""ö""#],
    ["null", "null", "2", "null"],
];

#[test]
fn slices(rt: HostRuntime) -> Result<(), Fail> {
    let alloc = rt.alloc();
    for [text, start, end, part] in &SLICES {
        let value = read(alloc, *text)?;
        let (start, end) = (read(alloc, *start)?, read(alloc, *end)?);
        let found = slice(alloc, &value, &start, &end);
        check(&rt, found, *part, (&value, *text))?;
    }
    Ok(())
}
