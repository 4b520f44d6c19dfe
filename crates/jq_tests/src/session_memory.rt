// Moves and other filters that are refused memory, and are made again (tests/growth.py refuses each allocation in turn).
use crate::memory::{check_session, mark};
use crate::starting::{compile_under, numbers, started};
use jq_filters::Filter;
use jq_session::{Refusal, Session};
use jq_starts::Starts;
use std::process::Abort;
use std::test::Fail;

// A session's output, errors and status.
type State = (&'static str, &'static str, u8);

// A move, and the state after it.
type Move = (u64, u64, State);

// Makes each move. One that finds no memory leaves the session as it was, and is made again.
fn check_moves(
    rt: &impl Abort,
    session: &mut Session,
    first: State,
    moves: &[Move],
) -> Result<(), Fail> {
    let mut before = first;
    for (k, l, want) in moves {
        let mut answer = session.shift(*k, *l);
        if let Err(Refusal::NoMemory) = &answer {
            assert_eq!(rt; session.len(), 4);
            check_session(rt, session, before)?;
            answer = session.shift(*k, *l);
        }
        let (_removal, insertion) = answer?;
        assert_eq!(rt; insertion.status, want.2);
        check_session(rt, session, *want)?;
        before = *want;
    }
    Ok(())
}

// The same after the mark.
fn check_marked(
    rt: &(impl Abort + AllocGlobal),
    session: &mut Session,
    first: State,
    moves: &[Move],
) -> Result<(), Fail> {
    let mark = mark(rt.alloc())?;
    check_moves(rt, session, first, moves)?;
    assert!(rt; mark.is_empty());
    Ok(())
}

const QUOTIENT: &str = "jq: error: quotient is not whole\n";

const FOLD: &str = "reduce inputs as $x ([]; . + [$x]) | ., add";

const QUOTIENTS: State = ("6\n3\n2\n", QUOTIENT, 5);

const SUMS: State = ("[1,2,3,4]\n10\n", "", 0);

static EACH: [Move; 3] = [
    (3, 1, ("6\n3\n2\n", QUOTIENT, 5)),
    (0, 3, ("3\n2\n6\n", QUOTIENT, 5)),
    (2, 0, ("2\n3\n6\n", QUOTIENT, 5)),
];

static HALTS: [Move; 3] = [
    (2, 3, ("1\n2\n4\n", "", 0)),
    (3, 0, ("", "", 0)),
    (0, 1, ("1\n", "", 0)),
];

static LISTS: [Move; 3] = [
    (0, 3, ("[2,3,4,1]\n10\n", "", 0)),
    (2, 1, ("[2,4,3,1]\n10\n", "", 0)),
    (1, 1, ("[2,4,3,1]\n10\n", "", 0)),
];

#[test]
fn moves_on_each_input(rt: HostRuntime) -> Result<(), Fail> {
    let alloc = rt.alloc();
    let mut session = started(&rt, "", "6 / .", numbers(alloc, 4)?)?;
    check_marked(&rt, &mut session, QUOTIENTS, &EACH)
}

#[test]
fn moves_up_to_a_halt(rt: HostRuntime) -> Result<(), Fail> {
    let alloc = rt.alloc();
    let filter = "if . == 3 then halt else . end";
    let mut session = started(&rt, "", filter, numbers(alloc, 4)?)?;
    check_marked(&rt, &mut session, ("1\n2\n", "", 0), &HALTS)
}

#[test]
fn moves_on_all_inputs(rt: HostRuntime) -> Result<(), Fail> {
    let alloc = rt.alloc();
    let mut session = started(&rt, "-s", "., add", numbers(alloc, 4)?)?;
    check_marked(&rt, &mut session, SUMS, &LISTS)
}

#[test]
fn moves_in_a_fold(rt: HostRuntime) -> Result<(), Fail> {
    let alloc = rt.alloc();
    let mut session = started(&rt, "-n", FOLD, numbers(alloc, 4)?)?;
    check_marked(&rt, &mut session, SUMS, &LISTS)
}

// The session takes another filter. If it finds no memory, the session and its count are as they were, and the filter, compiled a
// second time, is taken with the count that came back.
fn check_filter(
    rt: &impl Abort,
    session: &mut Session,
    starts: Starts,
    (compiled, again): (Filter, Filter),
    (before, after): (State, State),
) -> Result<(), Fail> {
    let count = session.starts();
    let taken = match session.refilter(starts, compiled) {
        Err(refused) => {
            assert_eq!(rt; refused.refusal, Refusal::NoMemory);
            assert_eq!(rt; session.starts(), count);
            check_session(rt, session, before)?;
            session.refilter(refused.starts, again)
        }
        answer => answer,
    };
    match taken {
        Ok((follow, old)) => {
            assert_eq!(rt; (follow.status, old.count()), (after.2, count));
            check_session(rt, session, after)
        }
        Err(refused) => Err(Fail::from(refused.refusal)),
    }
}

// The same after the mark.
fn check_taken(
    rt: &(impl Abort + AllocGlobal),
    session: &mut Session,
    starts: Starts,
    filters: (Filter, Filter),
    states: (State, State),
) -> Result<(), Fail> {
    let mark = mark(rt.alloc())?;
    check_filter(rt, session, starts, filters, states)?;
    assert!(rt; mark.is_empty());
    Ok(())
}

#[test]
fn from_each_input_to_a_fold(rt: HostRuntime) -> Result<(), Fail> {
    let alloc = rt.alloc();
    let mut session = started(&rt, "", "6 / .", numbers(alloc, 4)?)?;
    let filters = (
        compile_under(alloc, "-n", FOLD)?,
        compile_under(alloc, "-n", FOLD)?,
    );
    let states = (QUOTIENTS, SUMS);
    check_taken(&rt, &mut session, Starts::new(&rt), filters, states)
}

#[test]
fn from_a_fold_to_each_input(rt: HostRuntime) -> Result<(), Fail> {
    let alloc = rt.alloc();
    let mut session = started(&rt, "-n", FOLD, numbers(alloc, 4)?)?;
    let filters = (
        compile_under(alloc, "", "6 / .")?,
        compile_under(alloc, "", "6 / .")?,
    );
    let states = (SUMS, QUOTIENTS);
    check_taken(&rt, &mut session, Starts::new(&rt), filters, states)
}

#[test]
fn from_all_inputs_to_a_halt(rt: HostRuntime) -> Result<(), Fail> {
    let alloc = rt.alloc();
    let halts = "if . == 3 then halt else . end";
    let mut session = started(&rt, "-s", "add", numbers(alloc, 4)?)?;
    let filters = (
        compile_under(alloc, "", halts)?,
        compile_under(alloc, "", halts)?,
    );
    let states = (("10\n", "", 0), ("1\n2\n", "", 0));
    check_taken(&rt, &mut session, Starts::new(&rt), filters, states)
}
