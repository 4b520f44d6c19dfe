// Moves of inputs. Each is compared with a start over the inputs after it, and a client applies the splices of both halves.
use crate::bounds::{Fold, least_meeting, states};
use crate::clients::{Client, client_of, follow, is_current, is_same};
use crate::samples::{Digits, Largest, Sums};
use crate::shown::{Edit, Sample, inputs_of, over};
use jq_pages::{Moved, Pages, Refusal, Steps};
use jv_data::NoMemory;
use std::alloc::Global;
use std::process::Abort;
use std::test::Fail;

// The numbers without the one of number `k`.
fn without(alloc: Global, values: &[i64], k: u64) -> Result<Vec<i64>, NoMemory> {
    let mut out = Vec::new(alloc);
    for (i, n) in values.iter().enumerate() {
        if i as u64 != k {
            out.push(*n)?;
        }
    }
    Ok(out)
}

// The numbers with another one at place `l`.
fn with_one(alloc: Global, values: &[i64], l: u64, one: i64) -> Result<Vec<i64>, NoMemory> {
    let mut out = Vec::new(alloc);
    for (i, n) in values.iter().enumerate() {
        if i as u64 == l {
            out.push(one)?;
        }
        out.push(*n)?;
    }
    if values.len() as u64 <= l {
        out.push(one)?;
    }
    Ok(out)
}

// How often a move may start a step.
fn most_starts(
    alloc: Global,
    fold: Option<Fold>,
    old: &[i64],
    new: &[i64],
    k: u64,
    l: u64,
) -> Result<u64, NoMemory> {
    let Some(fold) = fold else {
        return Ok(1);
    };
    let middle = states(alloc, fold, &without(alloc, old, k)?)?;
    let first = least_meeting(&states(alloc, fold, old)?, &middle, Edit::Remove(k));
    let second = least_meeting(&middle, &states(alloc, fold, new)?, Edit::Insert(l, 0));
    let both = first.wrapping_sub(k).wrapping_add(second.wrapping_sub(l));
    Ok(both.wrapping_add(258))
}

// Makes a move. It gives the numbers after it.
fn make_move<S: Steps>(
    rt: &(impl Abort + AllocGlobal),
    fold: Option<Fold>,
    pages: &mut Pages<S>,
    k: u64,
    l: u64,
) -> Result<Vec<i64>, Fail> {
    let alloc = rt.alloc();
    let old = inputs_of(alloc, pages)?;
    let Some(one) = old.get(k as usize) else {
        return Err("no input")?;
    };
    let want = with_one(alloc, &without(alloc, &old, k)?, l, *one)?;
    let most = most_starts(alloc, fold, &old, &want, k, l)?;
    check_shift(rt, pages, (k, l), most)?;
    assert_eq!(rt;
        inputs_of(alloc, pages)?.as_slice(),
        want.as_slice(),
        "{k} {l}"
    );
    Ok(want)
}

// Makes a move that starts at most so many steps, and follows it.
fn check_shift<S: Steps>(
    rt: &(impl Abort + AllocGlobal),
    pages: &mut Pages<S>,
    (k, l): (u64, u64),
    most: u64,
) -> Result<(), Fail> {
    let client = client_of(rt.alloc(), pages)?;
    let count = pages.steps().count();
    let moved = pages.shift(k, l)?;
    let now = pages.steps().count();
    let runs = now.wrapping_sub(count);
    assert!(rt; count <= moved.starts && moved.starts <= now, "{k} {l}");
    assert!(rt; runs <= most, "{k} {l} {runs}");
    assert!(rt; leads(rt.alloc(), &client, &moved, pages)?, "{k} {l}");
    Ok(())
}

// Whether a client that follows the removal and the insertion has what the pieces write, and between them as many bytes as is said.
fn leads<S: Steps>(
    alloc: Global,
    client: &Client,
    moved: &Moved,
    pages: &Pages<S>,
) -> Result<bool, NoMemory> {
    let middle = follow(alloc, client, &moved.removal)?;
    let (out, err) = (middle.out.len() as u128, middle.err.len() as u128);
    let is_counted = moved.between.out == out && moved.between.err == err;
    let after = follow(alloc, &middle, &moved.insertion)?;
    Ok(is_counted && is_current(alloc, &after, pages)?)
}

fn place_of(round: u64, count: u64) -> (u64, u64) {
    let seed = round
        .wrapping_mul(6364136223846793005)
        .wrapping_add(1442695040888963407);
    ((seed >> 20) % count.max(1), (seed >> 40) % count.max(1))
}

fn many(alloc: Global) -> Result<Vec<i64>, NoMemory> {
    let mut values = Vec::new(alloc);
    for i in 0..210i64 {
        values.push(i % 9)?;
    }
    Ok(values)
}

// Makes a move, and compares the pages with a start over the numbers after it.
fn check_move<S: Sample>(
    rt: &(impl Abort + AllocGlobal),
    fold: Option<Fold>,
    pages: &mut Pages<S>,
    (k, l): (u64, u64),
) -> Result<(), Fail> {
    let values = make_move(rt, fold, pages, k, l)?;
    assert!(rt; is_same(rt.alloc(), pages, &over(rt.alloc(), &values)?)?);
    Ok(())
}

// Each move of a short list, one after the other, and as many of a list of some pages.
fn check_moves<S: Sample>(
    rt: &(impl Abort + AllocGlobal),
    fold: Option<Fold>,
    mut few: Pages<S>,
) -> Result<(), Fail> {
    for round in 0..25u64 {
        check_move(rt, fold, &mut few, (round / 5, round % 5))?;
    }
    let mut pages: Pages<S> = over(rt.alloc(), &many(rt.alloc())?)?;
    for round in 0..150u64 {
        check_move(rt, fold, &mut pages, place_of(round, 210))?;
    }
    Ok(())
}

#[test]
fn moves_of_digits(rt: HostRuntime) -> Result<(), Fail> {
    let pages: Pages<Digits> = over(rt.alloc(), &[1, -2, 3, 130, 4])?;
    check_moves(&rt, None, pages)
}

#[test]
fn moves_of_sums(rt: HostRuntime) -> Result<(), Fail> {
    let pages: Pages<Sums> = over(rt.alloc(), &[1, 2, 3, 0, 4])?;
    check_moves(&rt, Some(Fold::Sums), pages)
}

#[test]
fn moves_of_the_largest(rt: HostRuntime) -> Result<(), Fail> {
    let pages: Pages<Largest> = over(rt.alloc(), &[1, 2, 3, 0, 4])?;
    check_moves(&rt, Some(Fold::Largest), pages)
}

#[test]
fn no_such_place(rt: HostRuntime) -> Result<(), Fail> {
    let alloc = rt.alloc();
    let mut pages: Pages<Sums> = over(alloc, &[1, 2, 3])?;
    for places in [(3, 0), (0, 3), (3, 3), (1 << 32, 0), (0, u64::MAX)] {
        check_no_place(&rt, &mut pages, places);
    }
    assert_eq!(&rt; pages.steps().count(), 3);
    let mut none: Pages<Sums> = over(alloc, &[])?;
    check_no_place(&rt, &mut none, (0, 0));
    Ok(())
}

fn check_no_place<S: Steps>(
    rt: &(impl Abort + AllocGlobal),
    pages: &mut Pages<S>,
    (k, l): (u64, u64),
) {
    let refused = pages.shift(k, l).err();
    assert_eq!(rt; refused, Some(Refusal::NoPlace), "{k} {l}");
}
