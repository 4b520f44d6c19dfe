// Calls that are refused memory, and are made again. For each allocation after a test's mark tests/growth.py runs the test once
// and refuses this allocation. Then the call answers as it does with enough memory, or that memory ran out, and the call made
// again answers as if the refused one had not been made.
ghost use Rattle.std.specs.Prelude.{◌≡◌, ◌≤◌, ◌<◌, ◌+◌, ◌^◌, false, length};
ghost use Rattle.jv_text.specs.Cutting.{fed_count, is_finished};

use crate::containers::read;
use jv_arith::{add, div, mul, neg, rem, sub};
use jv_data::{Array, Fail as Failure, NoMemory, Val, same};
use jv_text::{
    Cutter, Fault, Format, Style, format, print, read_text, to_compact_string, tostring,
};
use jv_value::{delpaths, getpath, index, items, setpath, slice};
use std::alloc::{AllocError, Global};
use std::process::Abort;
use std::test::Fail;

// tests/refuse_each.c counts from an allocation of so many bytes.
const MARK: usize = 424_243;

/// Every allocation after this one may be refused.
#[inline(never)]
pub(crate) fn mark(alloc: Global) -> Result<Vec<u8>, AllocError> {
    Vec::with_capacity(alloc, MARK)
}

// ---- the cutter

fn feed_again(cutter: &mut Cutter, piece: &[u8]) -> Result<(), NoMemory>
    requires open { is_finished cutter.old ≡ false }
    requires count { fed_count cutter.old + length piece.now < 2 ^ 64 }
    ensures open { is_finished cutter.new ≡ false }
    ensures count { fed_count cutter.new ≤ fed_count cutter.old + length piece.now }
{
    match cutter.feed(piece) {
        Ok(()) => Ok(()),
        Err(NoMemory) => cutter.feed(piece),
    }
}

// Whether the next value is this one, or there is none.
fn gives(cutter: &mut Cutter, want: Option<&Val>) -> Result<bool, Fault>
    ensures open { is_finished cutter.new ≡ is_finished cutter.old }
    ensures count { fed_count cutter.new ≡ fed_count cutter.old }
{
    let found = match cutter.next() {
        Err(Fault::NoMemory) => cutter.next()?,
        answer => answer?,
    };
    Ok(match (&found, want) {
        (Some(found), Some(want)) => same(found, want),
        (None, None) => true,
        _ => false,
    })
}

// Whether after the piece the next value is this one, or there is none.
fn cuts(cutter: &mut Cutter, piece: &[u8], want: Option<&Val>) -> bool
    requires open { is_finished cutter.old ≡ false }
    requires count { fed_count cutter.old + length piece.now < 2 ^ 64 }
    ensures open { is_finished cutter.new ≡ false }
    ensures count { fed_count cutter.new ≤ fed_count cutter.old + length piece.now }
{
    feed_again(cutter, piece).is_ok() && gives(cutter, want) == Ok(true)
}

fn check_cut(rt: &(impl Abort + AllocGlobal), [one, array, text, twelve]: [&Val; 4]) {
    let mut cutter = Cutter::new(rt.alloc());
    assert!(rt; cuts(&mut cutter, b"1", None));
    assert!(rt; cuts(&mut cutter, b"[2,{\"k\"", Some(one)));
    assert!(rt; gives(&mut cutter, None) == Ok(true));
    assert!(rt; cuts(&mut cutter, b":\"v\"}]\"a\\u00f", Some(array)));
    assert!(rt; gives(&mut cutter, None) == Ok(true));
    assert!(rt; cuts(&mut cutter, b"c\"1", Some(text)));
    assert!(rt; cuts(&mut cutter, b"2 x", Some(twelve)));
    assert!(rt; gives(&mut cutter, None) == Ok(true));
    cutter.finish();
    let fault = Some(Fault::Malformed { at: 26 });
    assert_eq!(rt; gives(&mut cutter, None).err(), fault);
    assert_eq!(rt; gives(&mut cutter, None).err(), fault);
}

#[test]
fn cutting(rt: HostRuntime) -> Result<(), Fail> {
    let alloc = rt.alloc();
    let array = read(alloc, "[2,{\"k\":\"v\"}]")?;
    let text = read(alloc, "\"aü\"")?;
    let mark = mark(alloc)?;
    check_cut(&rt, [&Val::Num(1), &array, &text, &Val::Num(12)]);
    assert!(rt; mark.is_empty());
    Ok(())
}

fn read_again(alloc: Global, text: &str) -> Result<Val, Fault> {
    match read_text(alloc, text.as_bytes()) {
        Err(Fault::NoMemory) => read_text(alloc, text.as_bytes()),
        answer => answer,
    }
}

const TEXT: &str = "{\"a\":[1,\"x\\ty\",null],\"b\":{\"c\":[],\"d\":{}},\"e\":\"\\u00fc\"}";

static FAULTS: [(&str, Fault); 3] = [
    ("[1,\"a\",{\"b\":[2]}", Fault::Unfinished { at: 0 }),
    ("[1,\"a\",{\"b\":[2]]]", Fault::Malformed { at: 0 }),
    (" [\"a\",[1.5]]", Fault::NotWhole { at: 1 }),
];

#[test]
fn reading(rt: HostRuntime) -> Result<(), Fail> {
    let alloc = rt.alloc();
    let want = read(alloc, TEXT)?;
    let mark = mark(alloc)?;
    assert!(rt; same(&read_again(alloc, TEXT)?, &want));
    for (text, fault) in &FAULTS {
        assert_eq!(rt; read_again(alloc, *text).err(), Some(*fault), "{text}");
    }
    assert!(rt; mark.is_empty());
    Ok(())
}

// ---- printing

static STYLES: [(bool, bool, bool); 6] = [
    (true, false, false),
    (false, false, false),
    (true, true, false),
    (false, true, false),
    (true, false, true),
    (false, true, true),
];

/// Prints after bytes that are there already. They stay as they are if memory runs out.
pub(crate) fn print_again(
    rt: &(impl Abort + AllocGlobal),
    value: &Val,
    style: Style,
    before: &str,
    want: &str,
) -> Result<(), Fail> {
    let mut out = match Vec::from_slice(rt.alloc(), before.as_bytes()) {
        Ok(out) => out,
        Err(_) => Vec::from_slice(rt.alloc(), before.as_bytes())?,
    };
    if print(rt.alloc(), value, style, &mut out).is_err() {
        assert_eq!(rt; out.as_slice(), before.as_bytes(), "{style:?}");
        print(rt.alloc(), value, style, &mut out)?;
    }
    let printed = out.as_slice().strip_prefix(before.as_bytes());
    assert_eq!(rt; printed, Some(want.as_bytes()), "{style:?}");
    Ok(())
}

#[test]
fn printing(rt: HostRuntime) -> Result<(), Fail> {
    let alloc = rt.alloc();
    let array = read(alloc, "[1,{\"k\":\"a\\nb\"},[]]")?;
    let text = read(alloc, "\"a\\nü\"")?;
    let compact = "[1,{\"k\":\"a\\nb\"},[]]";
    let pretty = "[\n  1,\n  {\n    \"k\": \"a\\nb\"\n  },\n  []\n]";
    let mark = mark(alloc)?;
    for (is_compact, raw, join) in &STYLES {
        let style = Style {
            compact: *is_compact,
            raw: *raw,
            join: *join,
        };
        for before in ["", "before\n"] {
            let shown = if *is_compact { compact } else { pretty };
            let quoted = if *raw || *join { "a\nü" } else { "\"a\\nü\"" };
            check_printed(&rt, (&array, shown), style, before)?;
            check_printed(&rt, (&text, quoted), style, before)?;
        }
    }
    assert!(rt; mark.is_empty());
    Ok(())
}

// The value is printed as this text, with a newline unless `join`.
fn check_printed(
    rt: &(impl Abort + AllocGlobal),
    (value, shown): (&Val, &str),
    style: Style,
    before: &str,
) -> Result<(), Fail> {
    let end = if style.join { "" } else { "\n" };
    let want = match format!(in rt.alloc(); "{shown}{end}") {
        Ok(want) => want,
        Err(_) => format!(in rt.alloc(); "{shown}{end}")?,
    };
    print_again(rt, value, style, before, want.as_str())
}

fn format_again(alloc: Global, kind: Format, value: &Val) -> Result<String, Failure> {
    match format(alloc, kind, value) {
        Err(Failure::NoMemory) => format(alloc, kind, value),
        answer => answer,
    }
}

static FORMATS: [(Format, &str); 8] = [
    (Format::Plain, "[\"a\\t\\\"<ü\",null,7]"),
    (Format::Json, "[\"a\\t\\\"<ü\",null,7]"),
    (Format::Csv, "\"a\t\"\"<ü\",,7"),
    (Format::Tsv, "a\\t\"<ü\t\t7"),
    (Format::Html, "[&quot;a\\t\\&quot;&lt;ü&quot;,null,7]"),
    (Format::Uri, "%5B%22a%5Ct%5C%22%3C%C3%BC%22%2Cnull%2C7%5D"),
    (Format::Sh, "'a\t\"<ü' null 7"),
    (Format::Base64, "WyJhXHRcIjzDvCIsbnVsbCw3XQ=="),
];

#[test]
fn formats(rt: HostRuntime) -> Result<(), Fail> {
    let alloc = rt.alloc();
    let row = read(alloc, "[\"a\\t\\\"<ü\",null,7]")?;
    let mark = mark(alloc)?;
    for (kind, want) in &FORMATS {
        match format_again(alloc, *kind, &row) {
            Ok(found) => assert_eq!(rt; found.as_str(), *want),
            Err(_) => Err("no text")?,
        }
    }
    assert!(rt; mark.is_empty());
    Ok(())
}

fn text_again(alloc: Global, value: &Val) -> Result<(String, String), NoMemory> {
    let text = match to_compact_string(alloc, value) {
        Ok(text) => text,
        Err(NoMemory) => to_compact_string(alloc, value)?,
    };
    match tostring(alloc, value) {
        Ok(other) => Ok((text, other)),
        Err(NoMemory) => Ok((text, tostring(alloc, value)?)),
    }
}

fn check_texts(
    rt: &(impl Abort + AllocGlobal),
    value: &Val,
    (quoted, plain): (&str, &str),
) -> Result<(), Fail> {
    let (text, other) = text_again(rt.alloc(), value)?;
    assert_eq!(rt; text.as_str(), quoted);
    assert_eq!(rt; other.as_str(), plain);
    Ok(())
}

#[test]
fn texts(rt: HostRuntime) -> Result<(), Fail> {
    let alloc = rt.alloc();
    let string = read(alloc, "\"a\\nü\"")?;
    let object = read(alloc, TEXT)?;
    let mark = mark(alloc)?;
    check_texts(&rt, &string, ("\"a\\nü\"", "a\nü"))?;
    let want = "{\"a\":[1,\"x\\ty\",null],\"b\":{\"c\":[],\"d\":{}},\"e\":\"ü\"}";
    check_texts(&rt, &object, (want, want))?;
    assert!(rt; mark.is_empty());
    Ok(())
}

// ---- values

fn list_of(alloc: Global, value: &Val) -> Result<Val, Failure> {
    Ok(Val::List(Array::from_vec(alloc, items(alloc, value)?)?))
}

fn without(alloc: Global, value: &Val, listed: &Val) -> Result<Val, Failure> {
    let mut paths = Vec::new(alloc);
    for path in items(alloc, listed)? {
        paths.push(items(alloc, &path)?)?;
    }
    delpaths(alloc, value.copy()?, paths)
}

// The items of an array.
fn path_in(value: &Val) -> &[Val] {
    match value {
        Val::List(items) => items.as_slice(),
        _ => &[],
    }
}

// The call of this name on these values.
fn call(alloc: Global, name: &str, values: &[Val; 3]) -> Result<Val, Failure> {
    let [first, second, third] = values;
    match name {
        "add" => add(alloc, first, second),
        "sub" => sub(alloc, first, second),
        "mul" => mul(alloc, first, second),
        "div" => div(alloc, first, second),
        "rem" => rem(alloc, first, second),
        "neg" => neg(alloc, first),
        "index" => index(alloc, first, second),
        "slice" => slice(alloc, first, second, third),
        "items" => list_of(alloc, first),
        "getpath" => getpath(alloc, first, path_in(second)),
        "setpath" => setpath(alloc, first.copy()?, path_in(second), third.copy()?),
        _ => without(alloc, first, second),
    }
}

/// What a call answers or raises, again if memory runs out.
pub(crate) fn call_again(alloc: Global, name: &str, values: &[Val; 3]) -> Result<Val, Fail> {
    let answer = match call(alloc, name, values) {
        Err(Failure::NoMemory) => call(alloc, name, values),
        answer => answer,
    };
    match answer {
        Ok(value) => Ok(value),
        Err(Failure::Raised(error)) => Ok(error),
        Err(Failure::NoMemory) => Err("out of memory twice")?,
    }
}

// A call, its arguments and what it answers or raises.
type Row = (&'static str, [&'static str; 3], &'static str);

static ROWS: [Row; 20] = [
    ("add", ["1", "2", "0"], "3"),
    ("add", ["[1]", "[2,{}]", "0"], "[1,2,{}]"),
    ("add", ["\"a\"", "\"ü\"", "0"], "\"aü\""),
    (
        "add",
        ["{\"a\":1,\"b\":2}", "{\"b\":[3]}", "0"],
        "{\"a\":1,\"b\":[3]}",
    ),
    ("sub", ["[1,2,1]", "[1]", "0"], "[2]"),
    ("mul", ["\"ab\"", "2", "0"], "\"abab\""),
    (
        "mul",
        ["{\"a\":{\"b\":1}}", "{\"a\":{\"c\":2}}", "0"],
        "{\"a\":{\"b\":1,\"c\":2}}",
    ),
    ("div", ["6", "3", "0"], "2"),
    ("div", ["7", "2", "0"], "\"quotient is not whole\""),
    ("div", ["\"a,b,\"", "\",\"", "0"], "[\"a\",\"b\",\"\"]"),
    ("rem", ["-7", "2", "0"], "-1"),
    ("neg", ["5", "0", "0"], "-5"),
    ("index", ["[1,2]", "-1", "0"], "2"),
    (
        "index",
        ["5", "\"a\"", "0"],
        "\"Cannot index number with \\\"a\\\"\"",
    ),
    ("slice", ["\"aüb\"", "1", "null"], "\"üb\""),
    ("slice", ["[1,2,3]", "1", "null"], "[2,3]"),
    ("items", ["{\"b\":2,\"a\":1}", "0", "0"], "[1,2]"),
    ("getpath", ["null", "[\"a\",0]", "0"], "null"),
    (
        "setpath",
        ["{\"b\":1}", "[\"a\",1]", "7"],
        "{\"a\":[null,7],\"b\":1}",
    ),
    ("delpaths", ["[1,2,3]", "[[0],[1]]", "0"], "[3]"),
];

#[test]
fn calls(rt: HostRuntime) -> Result<(), Fail> {
    let alloc = rt.alloc();
    let mut read_rows = Vec::new(alloc);
    for (_, [first, second, third], want) in &ROWS {
        let values = [
            read(alloc, *first)?,
            read(alloc, *second)?,
            read(alloc, *third)?,
        ];
        read_rows.push((values, read(alloc, *want)?))?;
    }
    let mark = mark(alloc)?;
    for ((name, _, text), (values, want)) in ROWS.iter().zip(read_rows.iter()) {
        let found = call_again(alloc, *name, values)?;
        assert!(rt; same(&found, want), "{name}: not {text}");
    }
    assert!(rt; mark.is_empty());
    Ok(())
}
