// Hundreds of pages: where an edit finds its page, and the totals, by sums over groups of pages.
use crate::bounds::edit_values;
use crate::clients::is_same;
use crate::samples::{Digits, Largest};
use crate::shown::{Edit, Sample, changed, over};
use jq_pages::{Pages, Refusal, Steps};
use jv_data::NoMemory;
use std::alloc::Global;
use std::process::Abort;
use std::test::Fail;

// The numbers 0 to 9 in turn.
fn counting(alloc: Global, count: i64) -> Result<Vec<i64>, NoMemory> {
    let mut values = Vec::new(alloc);
    for i in 0..count {
        values.push(i % 10)?;
    }
    Ok(values)
}

// Makes an edit, as often as is said.
fn repeat<S: Steps>(
    pages: &mut Pages<S>,
    values: &mut Vec<i64>,
    line: Edit,
    times: u64,
) -> Result<(), Refusal> {
    for _ in 0..times {
        let _change = changed(pages, line)?;
        edit_values(values, line)?;
    }
    Ok(())
}

// Edits in the first, the second and the last group, at their ends, and after the last group; some open, divide, remove and join
// pages. A number from 100 on halts, and a negative one writes nothing or fails.
static LINES: [(Edit, u64); 14] = [
    (Edit::Replace(0, -1), 1),
    (Edit::Replace(6_143, 7), 1),
    (Edit::Replace(6_144, -2), 1),
    (Edit::Insert(6_144, 5), 70),
    (Edit::Insert(20_070, 4), 1),
    (Edit::Remove(0), 65),
    (Edit::Insert(0, 6), 3),
    (Edit::Replace(12_288, 120), 1),
    (Edit::Remove(9_000), 300),
    (Edit::Insert(11_000, 8), 200),
    (Edit::Replace(19_000, 300), 1),
    (Edit::Remove(12_200), 150),
    (Edit::Insert(16_000, 1), 1),
    (Edit::Replace(19_700, -9), 1),
];

fn check<S: Sample>(
    rt: &(impl Abort + AllocGlobal),
    pages: &mut Pages<S>,
    values: &mut Vec<i64>,
) -> Result<(), Fail> {
    for (line, times) in &LINES {
        repeat(pages, values, *line, *times)?;
        let fresh: Pages<S> = over(rt.alloc(), values)?;
        assert!(rt; is_same(rt.alloc(), pages, &fresh)?, "{line:?}");
    }
    Ok(())
}

#[test]
fn digits_in_groups(rt: HostRuntime) -> Result<(), Fail> {
    let mut values = counting(rt.alloc(), 20_000)?;
    let mut pages: Pages<Digits> = over(rt.alloc(), &values)?;
    check(&rt, &mut pages, &mut values)
}

#[test]
fn largest_in_groups(rt: HostRuntime) -> Result<(), Fail> {
    let mut values = counting(rt.alloc(), 20_000)?;
    let mut pages: Pages<Largest> = over(rt.alloc(), &values)?;
    check(&rt, &mut pages, &mut values)
}

// Many removals leave small pages, which are joined.
#[test]
fn small_pages_are_joined(rt: HostRuntime) -> Result<(), Fail> {
    let alloc = rt.alloc();
    let mut values = counting(alloc, 6_400)?;
    let mut pages: Pages<Digits> = over(alloc, &values)?;
    assert_eq!(&rt; pages.page_count(), 134);
    remove_most(&mut pages, &mut values)?;
    assert_eq!(&rt; pages.len(), 100);
    assert!(&rt; pages.page_count() <= 6);
    assert!(&rt; is_same(alloc, &pages, &over(alloc, &values)?)?);
    Ok(())
}

// 63 of 64 inputs are removed, from the last to the first.
fn remove_most<S: Steps>(pages: &mut Pages<S>, values: &mut Vec<i64>) -> Result<(), Refusal> {
    for i in 0..6_400u64 {
        let k = 6_399u64.wrapping_sub(i);
        if k % 64 != 0 {
            repeat(pages, values, Edit::Remove(k), 1)?;
        }
    }
    Ok(())
}
