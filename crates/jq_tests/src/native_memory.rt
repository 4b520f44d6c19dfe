// Natives that are refused memory, and are called again (tests/growth.py refuses each allocation in turn). On values of 130 levels
// some of them keep what is open in a list, and the growth of this list is refused too.
use crate::memory::mark;
use jq_natives::{Native, call};
use jv_data::{Array, Fail as Failure, Object, Val, same};
use jv_text::read_text;
use std::alloc::{AllocError, Global};
use std::process::Abort;
use std::test::Fail;

// A native, its input, its arguments and what it answers.
#[derive(Drop)]
struct Row {
    native: Native,
    value: Val,
    arguments: Vec<Val>,
    want: Val,
}

// What a native answers, called again if memory runs out.
fn call_again(alloc: Global, row: &Row) -> Result<Val, Failure> {
    match call(alloc, row.native, &row.value, &row.arguments) {
        Err(Failure::NoMemory) => call(alloc, row.native, &row.value, &row.arguments),
        answer => answer,
    }
}

fn check(rt: &(impl Abort + AllocGlobal), rows: &[Row]) -> Result<(), Fail> {
    let mark = mark(rt.alloc())?;
    for row in rows {
        match call_again(rt.alloc(), row) {
            Ok(found) => assert!(rt; same(&found, &row.want), "{:?}", row.native),
            Err(_) => Err("no answer")?,
        }
    }
    assert!(rt; mark.is_empty());
    Ok(())
}

fn read(alloc: Global, text: &str) -> Result<Val, Fail> {
    Ok(read_text(alloc, text.as_bytes())?)
}

fn one(alloc: Global, argument: Val) -> Result<Vec<Val>, AllocError> {
    let mut arguments = Vec::with_capacity(alloc, 1)?;
    arguments.push(argument)?;
    Ok(arguments)
}

static REVERSALS: [(&str, &str); 4] = [
    ("[1,2]", "[2,1]"),
    ("\"aü\"", "\"üa\""),
    ("null", "[]"),
    ("[[1],{\"a\":2},3]", "[3,{\"a\":2},[1]]"),
];

#[test]
fn reversals(rt: HostRuntime) -> Result<(), Fail> {
    let alloc = rt.alloc();
    let mut rows = Vec::new(alloc);
    for row in &REVERSALS {
        let (value, want) = *row;
        rows.push(Row {
            native: Native::Reverse,
            value: read(alloc, value)?,
            arguments: Vec::new(alloc),
            want: read(alloc, want)?,
        })?;
    }
    check(&rt, rows.as_slice())
}

// ---- deep values

const LEVELS: usize = 130;

fn list(alloc: Global, values: &[i64], last: Option<Val>) -> Result<Val, AllocError> {
    let mut items = Vec::new(alloc);
    for value in values {
        items.push(Val::Num(*value))?;
    }
    if let Some(value) = last {
        items.push(value)?;
    }
    Ok(Val::List(Array::from_vec(alloc, items)?))
}

fn object(alloc: Global, others: &[i64], part: Val) -> Result<Val, AllocError> {
    let mut members = Object::new(alloc)?;
    members.insert(String::from_str(alloc, "m")?, part)?;
    for other in others {
        members.insert(format!(in alloc; "{other}")?, Val::Num(*other))?;
    }
    Ok(Val::Table(members))
}

// Whether the container at this level is an array, in a value of arrays, of objects or of both in turn.
fn has_array(kind: &str, level: usize) -> bool {
    kind == "arrays" || (kind == "both" && level % 2 == 0)
}

// Containers with these other values, the innermost one around this value.
fn deep(alloc: Global, kind: &str, others: &[i64], innermost: i64) -> Result<Val, AllocError> {
    let mut value = Val::Num(innermost);
    for level in 0..LEVELS {
        value = if has_array(kind, level) {
            list(alloc, others, Some(value))?
        } else {
            object(alloc, others, value)?
        };
    }
    Ok(value)
}

// A value with fewer others is contained in each array or object, unless the innermost value is another one.
#[test]
fn containment(rt: HostRuntime) -> Result<(), Fail> {
    let alloc = rt.alloc();
    let mut rows = Vec::new(alloc);
    for kind in ["arrays", "objects", "both"] {
        for (innermost, want) in [(1, true), (2, false)] {
            rows.push(Row {
                native: Native::Contains,
                value: deep(alloc, kind, &[7, 8], 1)?,
                arguments: one(alloc, deep(alloc, kind, &[8], innermost)?)?,
                want: Val::Bool(want),
            })?;
        }
    }
    check(&rt, rows.as_slice())
}

#[test]
fn flattening(rt: HostRuntime) -> Result<(), Fail> {
    let alloc = rt.alloc();
    let mut rows = Vec::new(alloc);
    let sevens = [7; LEVELS];
    rows.push(Row {
        native: Native::Flatten,
        value: deep(alloc, "arrays", &[7], 1)?,
        arguments: one(alloc, Val::Num(1_000))?,
        want: list(alloc, &sevens, Some(Val::Num(1)))?,
    })?;
    check(&rt, rows.as_slice())
}

// The order of the keys takes no memory that it can't do without.
#[test]
fn sorting(rt: HostRuntime) -> Result<(), Fail> {
    let alloc = rt.alloc();
    let mut rows = Vec::new(alloc);
    for kind in ["arrays", "objects", "both"] {
        let mut keys = Vec::new(alloc);
        for innermost in [3, 1, 2] {
            keys.push(deep(alloc, kind, &[7], innermost)?)?;
        }
        rows.push(Row {
            native: Native::SortBy,
            value: read(alloc, "[30,10,20]")?,
            arguments: one(alloc, Val::List(Array::from_vec(alloc, keys)?))?,
            want: read(alloc, "[10,20,30]")?,
        })?;
    }
    check(&rt, rows.as_slice())
}

// The compact text of arrays around 1, each with 7 before it.
#[test]
fn texts(rt: HostRuntime) -> Result<(), Fail> {
    let alloc = rt.alloc();
    let mut text = String::from_str(alloc, "1")?;
    for _ in 0..LEVELS {
        text = format!(in alloc; "[7,{text}]")?;
    }
    let mut rows = Vec::new(alloc);
    for native in [Native::ToJson, Native::ToString] {
        rows.push(Row {
            native,
            value: deep(alloc, "arrays", &[7], 1)?,
            arguments: Vec::new(alloc),
            want: Val::from_text(alloc, text.as_str())?,
        })?;
    }
    check(&rt, rows.as_slice())
}
