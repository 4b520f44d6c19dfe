// Sessions that take other filters: how often the new filter is started, what its splices make of the output, and which counts of
// starts there are.
use crate::clients::{Client, fresh, list};
use crate::starting::{compile_under, numbers, started};
use jq_session::{Follow, Session};
use jq_starts::Starts;
use jv_data::Val;
use std::alloc::Global;
use std::process::Abort;
use std::test::Fail;

// A filter under a flag, and how often it is started at most over 100 inputs.
static FILTERS: [(&str, &str, u64); 8] = [
    ("-n", "reduce inputs as $x (0; . + $x)", 102),
    ("", ". * 10", 100),
    ("-s", "., add", 1),
    ("", "if . == 50 then halt else .a end", 50),
    ("-n", "foreach inputs as $x (0; . + $x)", 101),
    ("-n", "[inputs] | add", 1),
    ("", "if . == 200 then halt else . end", 100),
    ("", "6 / .", 100),
];

// Takes another filter with the spare count. Returns the answer, and the count of the old filter.
fn take(
    alloc: Global,
    session: &mut Session,
    spare: Starts,
    (flag, filter): (&str, &str),
) -> Result<(Follow, Starts), Fail> {
    let compiled = compile_under(alloc, flag, filter)?;
    match session.refilter(spare, compiled) {
        Ok(taken) => Ok(taken),
        Err(refused) => Err(Fail::from(refused.refusal)),
    }
}

// The session has taken a filter whose runs are counted from so many on, and it replaced all that it wrote before.
fn check_taken(
    rt: &(impl Abort + AllocGlobal),
    session: &Session,
    follow: &Follow,
    (given, out, err): (u64, u128, u128),
    (_, filter, most): (&str, &str, u64),
) {
    assert_eq!(rt; session.starts().checked_sub(given), Some(follow.runs));
    assert!(rt; follow.runs <= most, "{filter}");
    let cut = (follow.out.at, follow.out.cut, follow.err.at, follow.err.cut);
    assert_eq!(rt; cut, (0, out, 0, err), "{filter}");
}

// Takes another filter, which the client follows. Returns how often it was started, and the count of the old filter.
fn refilter(
    rt: &(impl Abort + AllocGlobal),
    session: &mut Session,
    client: &mut Client,
    spare: Starts,
    row: (&str, &str, u64),
) -> Result<(u64, Starts), Fail> {
    let (before, given) = (session.starts(), spare.count());
    let written = (given, session.out_len(), session.err_len());
    let (follow, old) = take(rt.alloc(), session, spare, (row.0, row.1))?;
    assert_eq!(rt; old.count(), before, "{}", row.1);
    check_taken(rt, session, &follow, written, row);
    client.follow(rt.alloc(), &follow)?;
    Ok((follow.runs, old))
}

// Makes a move and two edits, which the client follows. Returns how often they started the filter.
fn edit(alloc: Global, session: &mut Session, client: &mut Client) -> Result<u64, Fail> {
    let mut runs = client.follow_move(alloc, &session.shift(0, 99)?)?;
    for (k, number) in [(99, 1), (98, 3)] {
        let follow = session.replace(k, Val::Num(number))?;
        client.follow(alloc, &follow)?;
        runs = runs.saturating_add(follow.runs);
    }
    Ok(runs)
}

// The same move and edits of a list.
fn edit_list(rt: &impl Abort, list: &mut Vec<i64>) -> Result<(), Fail> {
    assert!(rt; list.len() == 100);
    let first = list.remove(0);
    list.push(first)?;
    list[99] = 1;
    list[98] = 3;
    Ok(())
}

#[test]
fn as_a_fresh_session(rt: HostRuntime) -> Result<(), Fail> {
    let alloc = rt.alloc();
    let mut session = started(&rt, "", ".", numbers(alloc, 100)?)?;
    let mut client = Client::new(alloc, &session)?;
    let mut list = list(alloc, 100)?;
    let mut spare = Starts::new(&rt);
    let mut total = session.starts();
    for row in &FILTERS {
        let (flag, filter, _) = *row;
        let (runs, old) = refilter(&rt, &mut session, &mut client, spare, *row)?;
        spare = old;
        client.check_same(&rt, filter, &fresh(&rt, (flag, filter), &list)?);
        let more = edit(alloc, &mut session, &mut client)?;
        edit_list(&rt, &mut list)?;
        client.check_same(&rt, filter, &fresh(&rt, (flag, filter), &list)?);
        total = total.saturating_add(runs).saturating_add(more);
    }
    let last = session.into_starts();
    assert_eq!(&rt; last.count().checked_add(spare.count()), Some(total));
    Ok(())
}

// The options stay those of the start.
#[test]
fn options_that_stay(rt: HostRuntime) -> Result<(), Fail> {
    let mut session = started(&rt, "-s", "add", numbers(rt.alloc(), 2)?)?;
    let (follow, _old) = take(rt.alloc(), &mut session, Starts::new(&rt), ("", "."))?;
    assert_eq!(&rt; follow.out.put.as_slice(), b"1\n2\n".as_slice());
    let options = session.options();
    assert!(&rt; options.slurp && !options.null && options.style.compact);
    assert_eq!(&rt; options.depth, 10_000);
    Ok(())
}
