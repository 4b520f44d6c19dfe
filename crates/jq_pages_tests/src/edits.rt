// Edits: what they change, and how often they start a step.
use crate::bounds::{Fold, edit_values, is_within, least_meeting, next_edit, states};
use crate::samples::{Digits, Largest, Sums};
use crate::shown::{
    Changed, Edit, Sample, applied, changed, inputs_of, make_edit, ones, over, shown, start,
    written,
};
use jq_pages::{Change, Last, Pages, Piece, Refusal, Steps};
use jv_data::{NoMemory, Val};
use std::alloc::Global;
use std::process::Abort;
use std::test::Fail;

// An edit with its answer, how many steps it starts, and the pieces after it.
type Row = (Edit, Result<Changed, Refusal>, u64, &'static str);

// The edits in turn.
fn check<S: Steps>(
    rt: &(impl Abort + AllocGlobal),
    pages: &mut Pages<S>,
    rows: &[Row],
) -> Result<(), Fail> {
    for (line, answer, runs, pieces) in rows {
        let before = pages.steps().count();
        assert_eq!(rt; changed(pages, *line), *answer, "{line:?}");
        let started = pages.steps().count().checked_sub(before);
        assert_eq!(rt; started, Some(*runs), "{line:?}");
        assert_eq!(rt; pages.len(), pieces.len() as u64, "{line:?}");
        let all = shown(rt.alloc(), pages)?;
        assert_eq!(rt; all.as_slice(), pieces.as_bytes(), "{line:?}");
    }
    Ok(())
}

// The edits in turn: each with the pieces that it changes, and how often a step was started up to its end.
fn check_starts<S: Steps>(
    rt: &(impl Abort + AllocGlobal),
    pages: &mut Pages<S>,
    rows: &[(Edit, Changed, u64)],
) {
    for (line, change, count) in rows {
        assert_eq!(rt; changed(pages, *line), Ok(*change), "{line:?}");
        assert_eq!(rt; pages.steps().count(), *count, "{line:?}");
    }
}

// The piece has this output, these errors, this last output, and is a failure or not.
fn check_piece(
    rt: &(impl Abort + AllocGlobal),
    piece: Option<&Piece>,
    (out, err): (&[u8], &[u8]),
    (last, failed): (Last, bool),
) -> Result<(), Fail> {
    let Some(piece) = piece else {
        return Err("no piece")?;
    };
    assert_eq!(rt; piece.out.as_slice(), out);
    assert_eq!(rt; piece.err.as_slice(), err);
    assert!(rt; piece.last == last && piece.failed == failed);
    Ok(())
}

fn check_written<S: Steps>(
    rt: &(impl Abort + AllocGlobal),
    pages: &Pages<S>,
    all: &[u8],
) -> Result<(), Fail> {
    assert_eq!(rt; written(rt.alloc(), pages)?.as_slice(), all);
    Ok(())
}

static SUMS: [Row; 8] = [
    (Edit::Replace(1, 5), Ok((0, 3, 3, true)), 3, "169"),
    (Edit::Insert(0, 4), Ok((0, 3, 4, true)), 4, "4503"),
    (Edit::Remove(3), Ok((0, 4, 3, true)), 3, "450"),
    (Edit::Insert(9, 1), Err(Refusal::NoPlace), 0, "450"),
    (Edit::Replace(3, 1), Err(Refusal::NoPlace), 0, "450"),
    (Edit::Remove(3), Err(Refusal::NoPlace), 0, "450"),
    (Edit::Insert(3, -7), Ok((0, 3, 4, false)), 4, "4500"),
    (Edit::Replace(0, 4), Ok((0, 4, 4, false)), 4, "4500"),
];

#[test]
fn sums_of_three(rt: HostRuntime) -> Result<(), Fail> {
    let alloc = rt.alloc();
    let mut pages: Pages<Sums> = over(alloc, &[1, 2, 3])?;
    assert_eq!(&rt; pages.steps().count(), 3);
    assert_eq!(&rt; shown(alloc, &pages)?.as_slice(), b"136".as_slice());
    check(&rt, &mut pages, &SUMS)
}

static DIGITS: [Row; 6] = [
    (Edit::Replace(1, 5), Ok((1, 1, 1, false)), 1, "153"),
    (Edit::Insert(0, 4), Ok((0, 0, 1, false)), 1, "4153"),
    (Edit::Insert(4, 8), Ok((4, 0, 1, false)), 1, "41538"),
    (Edit::Remove(3), Ok((3, 1, 0, false)), 0, "4158"),
    (Edit::Insert(5, 1), Err(Refusal::NoPlace), 0, "4158"),
    (Edit::Replace(4, 1), Err(Refusal::NoPlace), 0, "4158"),
];

#[test]
fn digits_of_three(rt: HostRuntime) -> Result<(), Fail> {
    let alloc = rt.alloc();
    let mut pages: Pages<Digits> = over(alloc, &[1, 2, 3])?;
    check(&rt, &mut pages, &DIGITS)
}

static FIRST_OF_LARGEST: [Row; 1] = [(Edit::Replace(1, 5), Ok((0, 3, 3, true)), 4, "155")];

static REST_OF_LARGEST: [Row; 3] = [
    (Edit::Insert(0, 4), Ok((0, 3, 4, false)), 4, "4455"),
    (Edit::Remove(2), Ok((0, 4, 3, true)), 4, "444"),
    (Edit::Remove(3), Err(Refusal::NoPlace), 0, "444"),
];

#[test]
fn largest_of_three(rt: HostRuntime) -> Result<(), Fail> {
    let alloc = rt.alloc();
    let mut pages: Pages<Largest> = over(alloc, &[1, 2, 3])?;
    assert_eq!(&rt; pages.steps().count(), 5);
    check_written(&rt, &pages, b"[1233")?;
    check(&rt, &mut pages, &FIRST_OF_LARGEST)?;
    check_written(&rt, &pages, b"[1555")?;
    check(&rt, &mut pages, &REST_OF_LARGEST)?;
    check_piece(&rt, Some(pages.head()), (b"[", b""), (Last::Falsy, false))?;
    check_piece(&rt, Some(pages.tail()), (b"4", b""), (Last::Truthy, false))
}

// A negative number fails, and leaves the state as it was.
#[test]
fn failed_pieces(rt: HostRuntime) -> Result<(), Fail> {
    let alloc = rt.alloc();
    let mut pages: Pages<Largest> = over(alloc, &[1, -2, 3])?;
    check_piece(&rt, pages.piece(1), (b"", b"!\n"), (Last::Nothing, true))?;
    let change = changed(&mut pages, Edit::Replace(1, 2))?;
    assert_eq!(&rt; change, (0, 3, 3, false));
    check_piece(&rt, pages.piece(1), (b"2", b""), (Last::Truthy, false))?;
    let change = changed(&mut pages, Edit::Replace(2, -1))?;
    assert_eq!(&rt; change, (0, 3, 3, true));
    check_written(&rt, &pages, b"[122")
}

#[test]
fn pieces_by_number(rt: HostRuntime) -> Result<(), Fail> {
    let alloc = rt.alloc();
    let pages: Pages<Sums> = over(alloc, &[1, 2])?;
    assert!(&rt; pages.head().out.is_empty() && pages.tail().out.is_empty());
    check_piece(&rt, pages.piece(1), (b"3", b""), (Last::Truthy, false))?;
    assert!(&rt; pages.piece(2).is_none());
    assert_eq!(&rt; pages.into_steps().count, 2);
    Ok(())
}

// The second page is full at first, and the next one has room before its first input.
static AROUND_SECOND: [(Edit, Changed, u64); 5] = [
    (Edit::Insert(112, 0), (112, 48, 49, false), 2001),
    (Edit::Insert(60, 0), (48, 32, 33, false), 2066),
    (Edit::Replace(990, 2), (978, 40, 40, true), 2106),
    (Edit::Replace(990, 1), (978, 40, 40, true), 2146),
    (Edit::Replace(0, 2), (0, 1018, 1018, true), 3164),
];

// An edit stops at the first page whose state is the one that it had.
#[test]
fn stops_where_the_states_meet(rt: HostRuntime) -> Result<(), Fail> {
    let alloc = rt.alloc();
    let mut pages = start(alloc, Sums::sample(alloc), ones(alloc, 1000)?)?;
    let second = (Edit::Replace(70, 1), (48, 48, 48, false), 1048);
    check_starts(&rt, &mut pages, &[second]);
    fill_second(&rt, &mut pages);
    assert_eq!(&rt; pages.steps().count(), 1952);
    check_starts(&rt, &mut pages, &AROUND_SECOND);
    Ok(())
}

// A start leaves room in each page: 16 insertions into the second one run it alone, and divide no page.
fn fill_second<S: Steps>(rt: &(impl Abort + AllocGlobal), pages: &mut Pages<S>) {
    let count = pages.page_count();
    for i in 0..16u64 {
        let want = (48, 48 + i, 49 + i, false);
        assert_eq!(rt; changed(pages, Edit::Insert(64, 0)), Ok(want), "{i}");
    }
    assert_eq!(rt; pages.page_count(), count);
}

// 3 at all numbers, but 9 at one.
fn threes(alloc: Global, count: usize, nine: usize) -> Result<Vec<Val>, NoMemory> {
    let mut inputs = Vec::new(alloc);
    for i in 0..count {
        inputs.push(Val::Num(if i == nine { 9 } else { 3 }))?;
    }
    Ok(inputs)
}

// The states meet at a page after that of the edit.
#[test]
fn stops_at_a_later_page(rt: HostRuntime) -> Result<(), Fail> {
    let alloc = rt.alloc();
    let mut pages = start(alloc, Largest::sample(alloc), threes(alloc, 1000, 200)?)?;
    assert_eq!(&rt; pages.steps().count(), 1002);
    let early = (Edit::Replace(0, 5), (0, 240, 240, false), 1242);
    let late = (Edit::Replace(990, 4), (960, 40, 40, false), 1282);
    check_starts(&rt, &mut pages, &[early, late]);
    assert_eq!(&rt; pages.tail().out.as_slice(), b"9".as_slice());
    let largest = (Edit::Replace(200, 8), (192, 808, 808, true), 2091);
    check_starts(&rt, &mut pages, &[largest]);
    assert_eq!(&rt; pages.tail().out.as_slice(), b"8".as_slice());
    Ok(())
}

// What a start over these numbers writes.
fn fresh(alloc: Global, fold: Fold, values: &[i64]) -> Result<Vec<u8>, Refusal> {
    Ok(match fold {
        Fold::Sums => written(alloc, &over::<Sums>(alloc, values)?)?,
        Fold::Largest => written(alloc, &over::<Largest>(alloc, values)?)?,
    })
}

// Many edits of no inputs, more insertions at first and more removals later. Each is compared with a start over the same inputs,
// its change with the pieces before and after it, and its bounds with the states of the fold.
fn agrees<S: Steps>(
    rt: &(impl Abort + AllocGlobal),
    fold: Fold,
    pages: &mut Pages<S>,
) -> Result<(), Fail> {
    let alloc = rt.alloc();
    let mut values: Vec<i64> = Vec::new(alloc);
    let mut seed: u64 = 1;
    for round in 0..900u64 {
        seed = seed
            .wrapping_mul(6364136223846793005)
            .wrapping_add(1442695040888963407);
        let line = next_edit(seed, &values, round > 400 && round < 840);
        let before = states(alloc, fold, &values)?;
        edit_values(&mut values, line)?;
        let after = states(alloc, fold, &values)?;
        check_edit(rt, pages, line, least_meeting(&before, &after, line))?;
        assert!(rt; is_fresh(alloc, fold, pages, &values)?, "{round}");
    }
    Ok(())
}

fn check_edit<S: Steps>(
    rt: &(impl Abort + AllocGlobal),
    pages: &mut Pages<S>,
    line: Edit,
    meeting: u64,
) -> Result<(), Fail> {
    let count = pages.steps().count();
    let old = shown(rt.alloc(), pages)?;
    let change = make_edit(pages, line)?.change;
    let runs = pages.steps().count().wrapping_sub(count);
    assert!(rt; is_within(change, line, meeting, runs), "{line:?}");
    assert!(rt; rebuilds(rt.alloc(), pages, &old, change)?, "{line:?}");
    Ok(())
}

// Whether the pieces after a change are those before it, but for what it cuts and puts in, which reaches the end if it is closed.
fn rebuilds<S: Steps>(
    alloc: Global,
    pages: &Pages<S>,
    old: &[u8],
    change: Change,
) -> Result<bool, NoMemory> {
    let new = shown(alloc, pages)?;
    let rebuilt = applied(alloc, old, &new, change)?;
    let ends = !change.closed || change.from.wrapping_add(change.put) == pages.len();
    Ok(ends && rebuilt.as_slice() == new.as_slice())
}

// Whether the pages have these inputs, and wrote what a start over them writes.
fn is_fresh<S: Steps>(
    alloc: Global,
    fold: Fold,
    pages: &Pages<S>,
    values: &[i64],
) -> Result<bool, Refusal> {
    let (all, inputs) = (written(alloc, pages)?, inputs_of(alloc, pages)?);
    let wanted = fresh(alloc, fold, values)?;
    Ok(all.as_slice() == wanted.as_slice() && inputs.as_slice() == values)
}

#[test]
fn sums_agree_with_a_start(rt: HostRuntime) -> Result<(), Fail> {
    let alloc = rt.alloc();
    let mut pages: Pages<Sums> = over(alloc, &[])?;
    agrees(&rt, Fold::Sums, &mut pages)
}

#[test]
fn largest_agrees_with_a_start(rt: HostRuntime) -> Result<(), Fail> {
    let alloc = rt.alloc();
    let mut pages: Pages<Largest> = over(alloc, &[])?;
    agrees(&rt, Fold::Largest, &mut pages)
}

static FIRST: [Row; 1] = [(Edit::Insert(0, 7), Ok((0, 0, 1, true)), 1, "7")];

#[test]
fn removes_all(rt: HostRuntime) -> Result<(), Fail> {
    let alloc = rt.alloc();
    let mut pages = start(alloc, Sums::sample(alloc), ones(alloc, 130)?)?;
    for _ in 0..130 {
        let _change = changed(&mut pages, Edit::Remove(0))?;
    }
    assert_eq!(&rt; pages.len(), 0);
    check(&rt, &mut pages, &FIRST)
}
