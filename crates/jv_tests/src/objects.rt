// Objects with the names of earlier objects of one stream, and objects of many members.
use crate::containers::assert_is;
use jv_data::{Object, Val};
use jv_text::Cutter;
use std::alloc::{AllocError, Global};
use std::process::Abort;
use std::test::Fail;

const TEXTS: &str = r#"{"c":1,"a":2,"b":3}
{"c":4,"a":5,"b":6}
{"b":1,"c":2,"a":3}
{"c":1,"a":2}
{"c":1,"a":2,"d":3,"b":4}
{"c":1,"c":2,"a":3,"b":4,"a":5}
{}
{"b":{"c":1,"a":2,"b":3},"a":[{"c":1,"a":2,"b":3},{"c":{}}],"c":{"a":1}}
{"":1,"é":2,"e":3}
{"":1,"é":2,"e":3}
"#;

#[test]
fn names_of_earlier_objects(rt: HostRuntime) -> Result<(), Fail> {
    let alloc = rt.alloc();
    let mut cutter = Cutter::new(alloc);
    cutter.feed(TEXTS.as_bytes())?;
    for text in TEXTS.lines() {
        match cutter.next()? {
            Some(value) => assert_is(&rt, &value, text)?,
            None => return Err("no value")?,
        }
    }
    Ok(())
}

fn name_of(alloc: Global, n: i64) -> Result<String, AllocError> {
    format!(in alloc; "{}", n.wrapping_mul(37) % 151)
}

// A member is removed from an object, and another that shares its members keeps it.
fn check_removal(
    rt: &(impl Abort + AllocGlobal),
    members: &mut Object<Val>,
    others: &Object<Val>,
    n: i64,
) -> Result<(), Fail> {
    let name = name_of(rt.alloc(), n)?;
    let removed = members.remove(name.as_str())?;
    assert!(rt; matches!(&removed, Some(Val::Num(number)) if *number == n));
    let kept = others.get(name.as_str());
    assert!(rt; matches!(kept, Some(Val::Num(number)) if *number == n));
    Ok(())
}

#[test]
fn objects_of_many_members(rt: HostRuntime) -> Result<(), Fail> {
    let alloc = rt.alloc();
    let mut members = Object::new(alloc)?;
    for n in 0..150_i64 {
        members.insert(name_of(alloc, n)?, Val::Num(n))?;
    }
    let few = members.share()?;
    for n in 0..150_i64 {
        check_removal(&rt, &mut members, &few, n)?;
    }
    assert_eq!(rt; members.len(), 0);
    assert_eq!(rt; few.len(), 150);
    Ok(())
}
