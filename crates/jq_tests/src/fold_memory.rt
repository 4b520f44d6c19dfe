// Edits of folds that are refused memory, and are made again (tests/growth.py refuses each allocation in turn).
use crate::memory::{check_marked, check_session, mark};
use crate::starting::started;
use jq_session::{Follow, Refusal, Session};
use jv_data::Val;
use std::alloc::{AllocError, Global};
use std::process::Abort;
use std::test::Fail;

// The first 100 of 1,000 inputs are 9, and the others 3.
fn inputs(alloc: Global) -> Result<Vec<Val>, AllocError> {
    let mut inputs = Vec::new(alloc);
    for i in 0..1_000 {
        inputs.push(Val::Num(if i < 100 { 9 } else { 3 }))?;
    }
    Ok(inputs)
}

// An edit that finds no memory leaves the session as it was, and is made again.
fn edit_again(rt: &impl Abort, session: &mut Session) -> Result<Follow, Fail> {
    let mut answer = session.replace(990, Val::Num(4));
    if let Err(Refusal::NoMemory) = &answer {
        assert_eq!(rt; session.len(), 1_000);
        check_session(rt, session, ("9\n", "", 0))?;
        answer = session.replace(990, Val::Num(4));
    }
    Ok(answer?)
}

fn check_edit(rt: &(impl Abort + AllocGlobal), session: &mut Session) -> Result<(), Fail> {
    let mark = mark(rt.alloc())?;
    let follow = edit_again(rt, session)?;
    assert_eq!(rt; follow.status, 0);
    assert!(rt; follow.runs <= 130, "{} runs", follow.runs);
    check_session(rt, session, ("9\n", "", 0))?;
    assert!(rt; mark.is_empty());
    Ok(())
}

#[test]
fn an_edit_of_a_maximum(rt: HostRuntime) -> Result<(), Fail> {
    let filter = "reduce inputs as $x (0; [., $x] | max)";
    let mut session = started(&rt, "-n", filter, inputs(rt.alloc())?)?;
    check_edit(&rt, &mut session)
}

#[test]
fn an_edit_after_an_error(rt: HostRuntime) -> Result<(), Fail> {
    let alloc = rt.alloc();
    let filter = "foreach inputs as $x (0; . + $x; .)";
    let error = "jq: error: number and string cannot be added\n";
    let mut inputs = Vec::new(alloc);
    inputs.push(Val::Num(1))?;
    inputs.push(Val::from_text(alloc, "a")?)?;
    inputs.push(Val::Num(2))?;
    let mut session = started(&rt, "-n", filter, inputs)?;
    let edits = [("replace", 1, 5, ("1\n6\n8\n", "", 0))];
    check_session(&rt, &session, ("1\n", error, 5))?;
    check_marked(&rt, &mut session, ("1\n", error, 5), &edits)
}
