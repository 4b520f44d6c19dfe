// Values that share their contents: each call returns its answer, and a change of one leaves the others unchanged.
use jv_data::{Array, Object, SharedText, Val, order, same};
use jv_text::read_text;
use std::alloc::Global;
use std::process::Abort;
use std::test::Fail;

// The value of a JSON text.
pub(crate) fn read(alloc: Global, text: &str) -> Result<Val, Fail> {
    Ok(read_text(alloc, text.as_bytes())?)
}

// The value is that of a JSON text.
pub(crate) fn assert_is(
    rt: &(impl Abort + AllocGlobal),
    value: &Val,
    text: &str,
) -> Result<(), Fail> {
    let expected = read(rt.alloc(), text)?;
    assert!(rt; same(value, &expected), "not {text}");
    Ok(())
}

#[test]
fn copies_are_equal(rt: HostRuntime) -> Result<(), Fail> {
    let value = read(rt.alloc(), r#"{"a":[[1,2],"x"]}"#)?;
    assert_is(&rt, &value.copy()?, r#"{"a":[[1,2],"x"]}"#)?;
    assert_is(&rt, &value.clone()?, r#"{"a":[[1,2],"x"]}"#)
}

#[test]
fn copies_are_independent(rt: HostRuntime) -> Result<(), Fail> {
    let alloc = rt.alloc();
    let value = read(alloc, r#"{"a":[[1,2],"x"]}"#)?;
    let copy = value.copy()?;
    let Val::Table(_) = &copy else {
        return Err("no object")?;
    };
    let mut members = copy.into_table();
    members.insert(String::from_str(alloc, "a")?, Val::Null)?;
    assert_is(&rt, &Val::Table(members), r#"{"a":null}"#)?;
    assert_is(&rt, &value, r#"{"a":[[1,2],"x"]}"#)
}

fn read_array(alloc: Global, text: &str) -> Result<Array<Val>, Fail> {
    let value = read(alloc, text)?;
    match &value {
        Val::List(_) => Ok(value.into_list()),
        _ => Err("no array")?,
    }
}

#[test]
fn arrays_change_on_their_own(rt: HostRuntime) -> Result<(), Fail> {
    let items = read_array(rt.alloc(), "[1,2]")?;
    let mut other = items.share()?;
    other.push(Val::Num(3))?;
    assert_eq!(rt; items.len(), 2);
    assert!(rt; matches!(items.get(0), Some(Val::Num(1))));
    assert!(rt; items.get(2).is_none());
    assert_is(&rt, &Val::List(other), "[1,2,3]")?;
    assert_is(&rt, &Val::List(items), "[1,2]")
}

fn assert_values(
    rt: &(impl Abort + AllocGlobal),
    items: Array<Val>,
    text: &str,
) -> Result<(), Fail> {
    let values = items.into_values()?;
    let items = Array::from_vec(rt.alloc(), values)?;
    assert_is(rt, &Val::List(items), text)
}

// The first call copies the items, and the second moves them.
#[test]
fn arrays_give_their_values(rt: HostRuntime) -> Result<(), Fail> {
    let items = read_array(rt.alloc(), "[1,2]")?;
    assert_values(&rt, items.share()?, "[1,2]")?;
    assert_values(&rt, items, "[1,2]")
}

fn read_object(alloc: Global, text: &str) -> Result<Object<Val>, Fail> {
    let value = read(alloc, text)?;
    match &value {
        Val::Table(_) => Ok(value.into_table()),
        _ => Err("no object")?,
    }
}

#[test]
fn objects_change_on_their_own(rt: HostRuntime) -> Result<(), Fail> {
    let members = read_object(rt.alloc(), r#"{"a":1,"b":2}"#)?;
    let mut other = members.share()?;
    check_removals(&rt, &mut other)?;
    assert_eq!(rt; members.len(), 2);
    assert!(rt; matches!(members.get("a"), Some(Val::Num(1))));
    assert_is(&rt, &Val::Table(members), r#"{"b":2,"a":1}"#)
}

fn check_removals(rt: &impl Abort, members: &mut Object<Val>) -> Result<(), Fail> {
    assert!(rt; matches!(&members.remove("a")?, Some(Val::Num(1))));
    assert!(rt; members.remove("z")?.is_none());
    assert_eq!(rt; members.len(), 1);
    assert!(rt; members.get("a").is_none());
    Ok(())
}

#[test]
fn texts_are_shared(rt: HostRuntime) -> Result<(), Fail> {
    let alloc = rt.alloc();
    let text = SharedText::from_string(alloc, String::from_str(alloc, "aüb")?)?;
    let mut other = text.share()?;
    other.push_str("ö")?;
    assert_eq!(rt; text.as_str(), "aüb");
    assert_eq!(rt; other.as_str(), "aübö");
    Ok(())
}

// A text of at most 24 bytes stands in the block of its reference count. A longer one has a block of its own.
#[test]
fn texts_grow_out_of_their_block(rt: HostRuntime) -> Result<(), Fail> {
    let alloc = rt.alloc();
    let mut text = SharedText::from_text(alloc, "")?;
    let mut copies = Vec::new(alloc);
    for _ in 0..10 {
        copies.push(text.share()?)?;
        text.push_str("añb")?;
    }
    assert_eq!(rt; text.as_str(), "añbañbañbañbañbañbañbañbañbañb");
    for (count, copy) in copies.iter().enumerate() {
        assert_eq!(rt; copy.as_str().len(), count.saturating_mul(4));
        assert!(rt; text.as_str().starts_with(copy.as_str()));
    }
    Ok(())
}

#[test]
fn texts_in_and_out_of_their_block(rt: HostRuntime) -> Result<(), Fail> {
    let alloc = rt.alloc();
    let short = Val::from_string(alloc, String::from_str(alloc, "123456789012345678901234")?)?;
    let long = Val::from_text(alloc, "1234567890123456789012345")?;
    assert!(rt; order(&short, &long).is_lt());
    assert_is(&rt, &short, "\"123456789012345678901234\"")?;
    assert_is(&rt, &long, "\"1234567890123456789012345\"")
}
