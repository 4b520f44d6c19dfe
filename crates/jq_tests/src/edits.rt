// Edits, how often each starts the filter, and what its splices make of the output.
use crate::clients::Client;
use crate::starting::{numbers, start, started};
use jq_session::{Follow, Refusal, Session};
use jq_starts::Starts;
use jv_data::Val;
use std::process::Abort;
use std::test::Fail;

fn edit(session: &mut Session, (name, k, number): (&str, u64, i64)) -> Result<Follow, Refusal> {
    if name == "remove" {
        session.remove(k)
    } else if name == "insert" {
        session.insert(k, Val::Num(number))
    } else if name == "replace" {
        session.replace(k, Val::Num(number))
    } else {
        session.append(Val::Num(number))
    }
}

// An edit, the count of starts after it, and what a client then has.
type Row = (
    (&'static str, u64, i64),
    u64,
    (&'static str, &'static str, u8),
);

// The edits in turn. One that starts nothing may be refused.
fn check(rt: &(impl Abort + AllocGlobal), session: &mut Session, rows: &[Row]) -> Result<(), Fail> {
    let mut client = Client::new(rt.alloc(), session)?;
    for (line, count, want) in rows {
        let before = session.starts();
        let runs = match edit(session, *line) {
            Ok(follow) => {
                client.follow(rt.alloc(), &follow)?;
                follow.runs
            }
            Err(refusal) => {
                assert_eq!(rt; refusal, Refusal::NoPlace, "{line:?}");
                0
            }
        };
        assert_eq!(rt; session.starts(), *count, "{line:?}");
        assert_eq!(rt; count.checked_sub(before), Some(runs), "{line:?}");
        client.check(rt, line.0, *want);
    }
    Ok(())
}

const QUOTIENT: &str = "jq: error: quotient is not whole\n";

static EACH: [Row; 6] = [
    (("insert", 9, 1), 2, ("6\n3\n", "", 0)),
    (("insert", 0, 4), 3, ("6\n3\n", QUOTIENT, 5)),
    (("replace", 0, 3), 4, ("2\n6\n3\n", "", 0)),
    (("replace", 3, 3), 4, ("2\n6\n3\n", "", 0)),
    (("remove", 1, 0), 4, ("2\n3\n", "", 0)),
    (("append", 0, 5), 5, ("2\n3\n", QUOTIENT, 5)),
];

#[test]
fn on_each_input(rt: HostRuntime) -> Result<(), Fail> {
    let mut session = started(&rt, "", "6 / .", numbers(rt.alloc(), 2)?)?;
    check(&rt, &mut session, &EACH)?;
    assert_eq!(&rt; session.len(), 3);
    Ok(())
}

fn check_answer(
    rt: &(impl Abort + AllocGlobal),
    follow: &Follow,
    runs: u64,
    (at, cut): (u128, u128),
    put: &[u8],
) {
    let answer = (follow.runs, follow.status, follow.out.at, follow.out.cut);
    assert_eq!(rt; answer, (runs, 0, at, cut));
    assert_eq!(rt; follow.out.put.as_slice(), put);
}

fn check_answers(rt: &(impl Abort + AllocGlobal), session: &mut Session) -> Result<(), Fail> {
    let replaced = session.replace(499, Val::Num(7))?;
    check_answer(rt, &replaced, 1, (1_888, 4), b"7\n");
    check_answer(rt, &session.remove(499)?, 0, (1_888, 2), b"");
    assert_eq!(rt; session.starts(), 1_001);
    Ok(())
}

// Of 1,000 inputs an edit runs the edited one, and its splice puts in what this run prints.
#[test]
fn one_of_many(rt: HostRuntime) -> Result<(), Fail> {
    let mut session = started(&rt, "", ".", numbers(rt.alloc(), 1_000)?)?;
    check_answers(&rt, &mut session)
}

static HALTS: [Row; 2] = [
    (("replace", 0, 9), 6, ("9\n2\n", "", 0)),
    (("remove", 2, 0), 10, ("9\n2\n4\n5\n", "", 0)),
];

// After a halt no input is run, so an edit makes all runs again, up to the first that halts.
#[test]
fn up_to_a_halt(rt: HostRuntime) -> Result<(), Fail> {
    let filter = "if . == 3 then halt else . end";
    let mut session = started(&rt, "", filter, numbers(rt.alloc(), 5)?)?;
    check(&rt, &mut session, &HALTS)
}

static ALL: [Row; 3] = [
    (("replace", 990, 990), 2, ("500499\n", "", 0)),
    (("remove", 1_000, 0), 2, ("500499\n", "", 0)),
    (("append", 0, 1), 3, ("500500\n", "", 0)),
];

// One run on all inputs, however many there are.
#[test]
fn on_all_inputs(rt: HostRuntime) -> Result<(), Fail> {
    for (flag, filter) in [("-n", "[inputs] | add"), ("-s", "add")] {
        let mut session = started(&rt, flag, filter, numbers(rt.alloc(), 1_000)?)?;
        check(&rt, &mut session, &ALL)?;
    }
    Ok(())
}

#[test]
fn one_input_more(rt: HostRuntime) -> Result<(), Fail> {
    let inputs = numbers(rt.alloc(), 1_000_001)?;
    match start(rt.alloc(), Starts::new(&rt), "-n", "1", inputs)? {
        Ok(_) => Err(Fail::from("it started")),
        Err(refused) => {
            assert_eq!(&rt; refused.refusal, Refusal::Full);
            assert_eq!(&rt; refused.starts.count(), 0);
            Ok(())
        }
    }
}
