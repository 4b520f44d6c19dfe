// Sessions of filters that fold their inputs: how often an edit starts the filter, and what its splices make of the output.
use crate::clients::Client;
use crate::starting::{numbers, started};
use jq_session::{Follow, Session};
use jv_data::Val;
use std::alloc::{AllocError, Global};
use std::process::Abort;
use std::test::Fail;

// So many inputs, all of them 1.
fn ones(alloc: Global, count: u64) -> Result<Vec<Val>, AllocError> {
    let mut values = Vec::new(alloc);
    for _ in 0..count {
        values.push(Val::Num(1))?;
    }
    Ok(values)
}

// The count of starts rose by what the answer says, which is at most this.
fn check_starts(
    rt: &(impl Abort + AllocGlobal),
    session: &Session,
    before: u64,
    follow: &Follow,
    most: u64,
) {
    assert_eq!(rt; session.starts().checked_sub(before), Some(follow.runs));
    assert!(rt; follow.runs <= most);
}

// Replaces or appends an input, which starts the filter at most so often, and then the client has this. Returns how many bytes the
// output's splice puts in.
fn check_edit(
    rt: &(impl Abort + AllocGlobal),
    session: &mut Session,
    client: &mut Client,
    (place, number): (Option<u64>, i64),
    (most, want): (u64, (&str, &str, u8)),
) -> Result<usize, Fail> {
    let before = session.starts();
    let follow = match place {
        Some(k) => session.replace(k, Val::Num(number))?,
        None => session.append(Val::Num(number))?,
    };
    check_starts(rt, session, before, &follow, most);
    client.follow(rt.alloc(), &follow)?;
    client.check(rt, "a fold", want);
    Ok(follow.out.put.len())
}

// The greatest of 1,000 inputs is found again after two inputs, so the pages after that of the edit are not run.
#[test]
fn a_greatest_input(rt: HostRuntime) -> Result<(), Fail> {
    let filter = "reduce inputs as $x (0; [., $x] | max)";
    let mut session = started(&rt, "-n", filter, numbers(rt.alloc(), 1_000)?)?;
    assert_eq!(&rt; session.starts(), 1_002);
    let mut client = Client::new(rt.alloc(), &session)?;
    for k in [990, 500, 0] {
        let want = (130, ("1000\n", "", 0));
        let put = check_edit(&rt, &mut session, &mut client, (Some(k), 4), want)?;
        assert_eq!(&rt; put, 0);
    }
    Ok(())
}

// A sum differs up to the end, so all pages from that of the edit on are run.
#[test]
fn a_sum(rt: HostRuntime) -> Result<(), Fail> {
    let filter = "reduce inputs as $x (0; . + $x)";
    let mut session = started(&rt, "-n", filter, ones(rt.alloc(), 200)?)?;
    let mut client = Client::new(rt.alloc(), &session)?;
    client.check(&rt, "a sum", ("200\n", "", 0));
    for (edit, most, out) in [((Some(0), 5), 329, "204\n"), ((None, 3), 130, "207\n")] {
        let want = (most, (out, "", 0));
        let _put = check_edit(&rt, &mut session, &mut client, edit, want)?;
    }
    Ok(())
}

const QUOTIENT: &str = "jq: error: quotient is not whole\n";

static STOPS: [(u64, i64, (&str, &str, u8)); 4] = [
    (1, 4, ("6\n", QUOTIENT, 5)),
    (0, 7, ("", "", 0)),
    (0, 6, ("1\n", QUOTIENT, 5)),
    (1, 2, ("1\n4\n6\n", "", 0)),
];

// What stops a fold, an error or a halt, is shown as soon as its input is there, and what was hidden as soon as it is gone.
#[test]
fn folds_that_stop(rt: HostRuntime) -> Result<(), Fail> {
    let filter = "foreach inputs as $x (0; if $x == 7 then halt else . + 6 / $x end; .)";
    let mut session = started(&rt, "-n", filter, numbers(rt.alloc(), 3)?)?;
    let mut client = Client::new(rt.alloc(), &session)?;
    for row in &STOPS {
        let (k, number, want) = *row;
        let edit = (Some(k), number);
        let _put = check_edit(&rt, &mut session, &mut client, edit, (132, want))?;
    }
    Ok(())
}
