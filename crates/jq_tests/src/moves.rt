// Moves of inputs: how often each starts the filter, and what its splices make of the output.
use crate::clients::{Client, fresh, list};
use crate::starting::{numbers, started};
use jq_session::{Follow, Refusal, Session};
use std::process::Abort;
use std::test::Fail;

// Moves an input of the session and a number of the list. The answers are those of at most so many starts.
fn check_move(
    rt: &(impl Abort + AllocGlobal),
    session: &mut Session,
    client: &mut Client,
    list: &mut Vec<i64>,
    (k, l): (u64, u64),
    most: u64,
) -> Result<(), Fail> {
    let before = session.starts();
    let moved = session.shift(k, l)?;
    let runs = client.follow_move(rt.alloc(), &moved)?;
    assert_eq!(rt; session.starts().checked_sub(before), Some(runs));
    assert!(rt; runs <= most, "{k} {l}");
    assert_eq!(rt; moved.1.status, session.status());
    assert!(rt; (k as usize) < list.len() && (l as usize) < list.len());
    let number = list.remove(k as usize);
    list.insert(l as usize, number)?;
    Ok(())
}

static MOVES: [(u64, u64); 9] = [
    (0, 149),
    (149, 0),
    (64, 63),
    (63, 64),
    (70, 70),
    (10, 100),
    (100, 10),
    (128, 1),
    (1, 128),
];

// A filter under a flag, and the most that a move of one of 150 inputs starts it.
static FILTERS: [(&str, &str, u64); 8] = [
    ("", "6 / .", 1),
    ("", "if . == 3 then halt else . end", 300),
    ("", "if . == 200 then halt else . end", 300),
    ("-s", "., add", 2),
    ("-n", "[inputs] | ., add", 2),
    ("-n", "1", 2),
    ("-n", "reduce inputs as $x ([]; . + [$x]) | ., add", 558),
    (
        "-n",
        "foreach inputs as $x (0; if $x == 100 then error else . + $x end; [$x, .])",
        558,
    ),
];

// Moves from or to a place that is not there start nothing.
fn check_no_place(rt: &(impl Abort + AllocGlobal), session: &mut Session, filter: &str) {
    let starts = session.starts();
    for (k, l) in [(150, 0), (0, 150), (u64::MAX, 150)] {
        let refused = session.shift(k, l).err();
        assert_eq!(rt; refused, Some(Refusal::NoPlace), "{filter}");
    }
    assert_eq!(rt; session.starts(), starts);
}

#[test]
fn as_a_fresh_session(rt: HostRuntime) -> Result<(), Fail> {
    for row in &FILTERS {
        let (flag, filter, most) = *row;
        let mut session = started(&rt, flag, filter, numbers(rt.alloc(), 150)?)?;
        let mut client = Client::new(rt.alloc(), &session)?;
        let mut list = list(rt.alloc(), 150)?;
        for places in &MOVES {
            check_move(&rt, &mut session, &mut client, &mut list, *places, most)?;
            client.check_same(&rt, filter, &fresh(&rt, (flag, filter), &list)?);
        }
        check_no_place(&rt, &mut session, filter);
        let same = Client::new(rt.alloc(), &session)?;
        client.check_same(&rt, filter, &same);
    }
    Ok(())
}

// The answers of a move on each input: the removal takes the old lines, and the insertion puts the new ones.
#[test]
fn answers_of_a_move(rt: HostRuntime) -> Result<(), Fail> {
    let mut session = started(&rt, "", "6 / .", numbers(rt.alloc(), 4)?)?;
    check_answers(&rt, &session.shift(3, 0)?);
    Ok(())
}

fn check_answers(rt: &impl Abort, (removal, insertion): &(Follow, Follow)) {
    assert_eq!(rt; (removal.runs, removal.status), (0, 0));
    assert_eq!(rt; (removal.err.at, removal.err.put.len()), (0, 0));
    assert_eq!(rt; removal.err.cut, 33);
    assert_eq!(rt; (insertion.runs, insertion.status), (1, 5));
    assert_eq!(rt; (insertion.err.at, insertion.err.cut), (0, 0));
    assert_eq!(rt; insertion.err.put.len(), 33);
    assert_eq!(rt; (removal.out.cut, insertion.out.put.len()), (0, 0));
}

fn check_runs(rt: &impl Abort, session: &mut Session, (k, l): (u64, u64)) -> Result<(), Fail> {
    let before = session.starts();
    let (removal, insertion) = session.shift(k, l)?;
    assert!(rt; removal.runs <= 130 && insertion.runs <= 130);
    let runs = session.starts().checked_sub(before);
    assert_eq!(rt; runs, Some(removal.runs + insertion.runs));
    assert_eq!(rt; insertion.status, 0);
    Ok(())
}

// The greatest of 1,000 inputs is found again soon after each half, so few inputs are run.
#[test]
fn a_greatest_input(rt: HostRuntime) -> Result<(), Fail> {
    let filter = "reduce inputs as $x (0; [., $x] | max)";
    let mut session = started(&rt, "-n", filter, numbers(rt.alloc(), 1_000)?)?;
    for places in [(990, 995), (500, 503), (3, 700)] {
        check_runs(&rt, &mut session, places)?;
    }
    assert_eq!(&rt; session.out_len(), 5);
    Ok(())
}
