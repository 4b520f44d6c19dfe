// Sessions of filters on each input that may halt: how often an edit starts the filter, and what its splices make of the output.
use crate::clients::{Client, fresh, list};
use crate::starting::{numbers, started};
use jq_session::Session;
use jv_data::Val;
use std::process::Abort;
use std::test::Fail;

const FILTER: &str = "if . == 2000 then halt_error(7) elif . == 3000 then .a else . end";

static EDITS: [(u64, i64, u64); 7] = [
    (500, 4, 129),
    (900, 3_000, 129),
    (700, 2_000, 429),
    (800, 5, 0),
    (100, 6, 129),
    (700, 7, 429),
    (999, 8, 129),
];

fn check_edit(
    rt: &(impl Abort + AllocGlobal),
    session: &mut Session,
    client: &mut Client,
    list: &mut Vec<i64>,
    (k, number, most): (u64, i64, u64),
) -> Result<(), Fail> {
    let before = session.starts();
    let follow = session.replace(k, Val::Num(number))?;
    assert_eq!(rt; session.starts().checked_sub(before), Some(follow.runs));
    assert!(rt; follow.runs <= most, "{k}: {}", follow.runs);
    client.follow(rt.alloc(), &follow)?;
    assert!(rt; (k as usize) < list.len());
    list[k as usize] = number;
    Ok(())
}

fn check_move(
    rt: &(impl Abort + AllocGlobal),
    session: &mut Session,
    client: &mut Client,
    list: &mut Vec<i64>,
) -> Result<(), Fail> {
    let runs = client.follow_move(rt.alloc(), &session.shift(999, 500)?)?;
    assert!(rt; runs <= 259);
    assert!(rt; list.len() == 1_000);
    let last = list.remove(999);
    list.insert(500, last)?;
    Ok(())
}

// Of 1,000 inputs an edit runs those of its page. A run that halts hides all that follows, which comes back when it is gone.
#[test]
fn one_page_of_many(rt: HostRuntime) -> Result<(), Fail> {
    let alloc = rt.alloc();
    let mut session = started(&rt, "", FILTER, numbers(alloc, 1_000)?)?;
    assert_eq!(&rt; session.starts(), 1_000);
    let mut client = Client::new(alloc, &session)?;
    let mut list = list(alloc, 1_000)?;
    for row in &EDITS {
        check_edit(&rt, &mut session, &mut client, &mut list, *row)?;
        client.check_same(&rt, FILTER, &fresh(&rt, ("", FILTER), &list)?);
    }
    check_move(&rt, &mut session, &mut client, &mut list)?;
    client.check_same(&rt, FILTER, &fresh(&rt, ("", FILTER), &list)?);
    Ok(())
}
