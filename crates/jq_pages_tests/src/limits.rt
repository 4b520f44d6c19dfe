// The greatest number of inputs, and numbers far above it.
use crate::samples::Digits;
use crate::shown::{Changed, Edit, changed, start};
use jq_pages::{MOST_INPUTS, Pages, Refusal, Steps};
use jv_data::{NoMemory, Val};
use std::alloc::Global;
use std::process::Abort;
use std::test::Fail;

// As many inputs that write nothing.
fn nulls(alloc: Global, count: usize) -> Result<Vec<Val>, NoMemory> {
    let mut inputs = Vec::with_capacity(alloc, count)?;
    for _ in 0..count {
        inputs.push(Val::Null)?;
    }
    Ok(inputs)
}

#[test]
fn more_than_a_million(rt: HostRuntime) -> Result<(), Fail> {
    let alloc = rt.alloc();
    let inputs = nulls(alloc, MOST_INPUTS + 1)?;
    let Err(refused) = Pages::start(alloc, Digits { alloc, count: 7 }, inputs) else {
        return Err("more than a million")?;
    };
    assert_eq!(&rt; refused.refusal, Refusal::Full);
    // The steps come back, and nothing was started.
    assert_eq!(&rt; refused.steps.count(), 7);
    Ok(())
}

// Edits of a million inputs, and how often a step was started up to the end of each. The page of the last one has room.
static LINES: [(Edit, Result<Changed, Refusal>, u64); 5] = [
    (Edit::Insert(5, 2), Err(Refusal::Full), 1_000_000),
    (Edit::Insert(1_000_001, 2), Err(Refusal::NoPlace), 1_000_000),
    (
        Edit::Replace(500_000, 2),
        Ok((500_000, 1, 1, false)),
        1_000_001,
    ),
    (Edit::Remove(999_999), Ok((999_999, 1, 0, false)), 1_000_001),
    (
        Edit::Insert(123_500, 3),
        Ok((123_500, 0, 1, false)),
        1_000_002,
    ),
];

#[test]
fn at_most_a_million(rt: HostRuntime) -> Result<(), Fail> {
    let alloc = rt.alloc();
    let inputs = nulls(alloc, MOST_INPUTS)?;
    let mut pages = start(alloc, Digits { alloc, count: 0 }, inputs)?;
    check_lines(&rt, &mut pages);
    Ok(())
}

fn check_lines<S: Steps>(rt: &(impl Abort + AllocGlobal), pages: &mut Pages<S>) {
    for (line, answer, count) in &LINES {
        assert_eq!(rt; changed(pages, *line), *answer, "{line:?}");
        assert_eq!(rt; pages.steps().count(), *count, "{line:?}");
    }
    assert_eq!(rt; pages.len(), 1_000_000);
}

fn check_no_place<S: Steps>(rt: &(impl Abort + AllocGlobal), pages: &mut Pages<S>, line: Edit) {
    assert_eq!(rt; changed(pages, line), Err(Refusal::NoPlace), "{line:?}");
}

#[test]
fn far_numbers(rt: HostRuntime) -> Result<(), Fail> {
    let alloc = rt.alloc();
    let mut pages = start(alloc, Digits { alloc, count: 0 }, nulls(alloc, 3)?)?;
    for k in [4, 1 << 32, (1 << 32) + 1, 1 << 63, u64::MAX] {
        for line in [Edit::Insert(k, 2), Edit::Replace(k, 2), Edit::Remove(k)] {
            check_no_place(&rt, &mut pages, line);
        }
        assert!(&rt; pages.piece(k).is_none(), "{k}");
    }
    assert_eq!(&rt; pages.steps().count(), 3);
    assert_eq!(&rt; pages.len(), 3);
    Ok(())
}
