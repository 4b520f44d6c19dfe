// Edits that find no memory: `tests/growth.py` refuses each of their allocations, and an edit that is refused is made again.
use crate::samples::{Digits, Largest, Sums};
use crate::shown::{Edit, make_edit, ones, start};
use jq_pages::{Edited, Last, Pages, Piece, Refusal, Steps, Totals};
use jv_data::{NoMemory, Val};
use std::alloc::Global;
use std::process::Abort;
use std::test::Fail;

// The inputs of a start, again if there is no memory.
fn inputs(alloc: Global, count: usize) -> Result<Vec<Val>, NoMemory> {
    match ones(alloc, count) {
        Ok(inputs) => Ok(inputs),
        Err(_) => ones(alloc, count),
    }
}

// Starts over inputs 1; again, with the steps that come back, if there is no memory.
fn start_again<S: Steps>(alloc: Global, steps: S, count: usize) -> Result<Pages<S>, Refusal> {
    match Pages::start(alloc, steps, inputs(alloc, count)?) {
        Ok(pages) => Ok(pages),
        Err(refused) if refused.refusal == Refusal::NoMemory => {
            start(alloc, refused.steps, inputs(alloc, count)?)
        }
        Err(refused) => Err(refused.refusal),
    }
}

// One more number in a sum that depends on the order of all.
fn mix(sum: u64, n: u64) -> u64 {
    sum.wrapping_mul(31).wrapping_add(n)
}

fn mix_bytes(sum: u64, bytes: &[u8]) -> u64 {
    let mut sum = mix(sum, bytes.len() as u64);
    for byte in bytes {
        sum = mix(sum, u64::from(*byte));
    }
    sum
}

fn mix_fields(sum: u64, out: &[u8], err: &[u8], last: Last, failed: bool) -> u64 {
    let kind = match last {
        Last::Nothing => 0,
        Last::Falsy => 1,
        Last::Truthy => 2,
    };
    let sum = mix_bytes(mix_bytes(sum, out), err);
    mix(mix(sum, kind), if failed { 1 } else { 0 })
}

fn mix_piece(sum: u64, piece: &Piece) -> u64 {
    mix_fields(sum, &piece.out, &piece.err, piece.last, piece.failed)
}

fn mix_digit(sum: u64, n: u64) -> u64 {
    mix_fields(sum, &[48 + (n % 10) as u8], b"", Last::Truthy, false)
}

fn mix_silence(sum: u64) -> u64 {
    mix_fields(sum, b"", b"", Last::Nothing, false)
}

// The count of inputs, and all pieces as one number; takes no memory.
fn digest<S: Steps>(pages: &Pages<S>) -> (u64, u64) {
    let mut sum = mix_piece(0, pages.head());
    for i in 0..pages.len() {
        if let Some(piece) = pages.piece(i) {
            sum = mix_piece(sum, piece);
        }
    }
    (pages.len(), mix_piece(sum, pages.tail()))
}

// What an edit that is refused leaves as it is, and how often a step was started.
#[derive(Clone, Copy)]
struct Before {
    pieces: (u64, u64),
    totals: Totals,
    count: u64,
}

fn state_of<S: Steps>(pages: &Pages<S>) -> Before {
    Before {
        pieces: digest(pages),
        totals: pages.totals(),
        count: pages.steps().count(),
    }
}

// Whether the pages are as they were, and started so many steps at most.
fn is_kept<S: Steps>(pages: &Pages<S>, before: Before, most: u64) -> bool {
    let runs = pages.steps().count().wrapping_sub(before.count);
    digest(pages) == before.pieces && pages.totals() == before.totals && runs <= most
}

// How often an edit may start a step, if it is refused for lack of memory.
fn most_starts<S: Steps>(pages: &Pages<S>, line: Edit) -> u64 {
    let (place, added) = match line {
        Edit::Insert(k, _) | Edit::Replace(k, _) => (k, 1),
        Edit::Remove(k) => (k, 0),
    };
    if pages.steps().plain() {
        return added;
    }
    pages
        .len()
        .wrapping_add(added)
        .wrapping_sub(place)
        .wrapping_add(129)
}

// Makes an edit, and where it finds no memory, sees that nothing changed and makes it again.
fn edit_again<S: Steps>(
    rt: &impl Abort,
    pages: &mut Pages<S>,
    line: Edit,
    before: Before,
) -> Result<Edited, Refusal> {
    let most = most_starts(pages, line);
    match make_edit(pages, line) {
        Ok(edited) => Ok(edited),
        Err(refusal) => {
            assert_eq!(rt; refusal, Refusal::NoMemory, "{line:?}");
            assert!(rt; is_kept(pages, before, most), "{line:?}");
            make_edit(pages, line)
        }
    }
}

// Makes each edit.
fn make_all<S: Steps>(
    rt: &impl Abort,
    pages: &mut Pages<S>,
    lines: &[Edit],
) -> Result<(), Refusal> {
    for line in lines {
        let before = state_of(pages);
        let edited = edit_again(rt, pages, *line, before)?;
        let rest = before.totals.out.wrapping_sub(edited.out.cut);
        let out = rest.wrapping_add(edited.out.put.len() as u128);
        assert_eq!(rt; pages.totals().out, out, "{line:?}");
    }
    Ok(())
}

// They fill the first page, so that a later insertion divides it.
static FIRST: [Edit; 16] = [Edit::Insert(5, 1); 16];

// How often a move may start a step, if it is refused for lack of memory.
fn most_moves<S: Steps>(pages: &Pages<S>, k: u64, l: u64) -> u64 {
    if pages.steps().plain() {
        return 1;
    }
    let places = pages
        .len()
        .wrapping_sub(k)
        .wrapping_add(pages.len())
        .wrapping_sub(l);
    places.wrapping_add(258)
}

// Makes each move, and where it finds no memory, sees that nothing changed and makes it again.
fn move_all<S: Steps>(
    rt: &impl Abort,
    pages: &mut Pages<S>,
    moves: &[(u64, u64)],
) -> Result<(), Refusal> {
    for (k, l) in moves {
        let before = state_of(pages);
        let most = most_moves(pages, *k, *l);
        if let Err(refusal) = pages.shift(*k, *l) {
            assert_eq!(rt; refusal, Refusal::NoMemory, "{k} {l}");
            assert!(rt; is_kept(pages, before, most), "{k} {l}");
            let _edits = pages.shift(*k, *l)?;
        }
    }
    Ok(())
}

// Moves, of which each second one undoes the one before it: within a page, to later and to earlier pages, and to the ends.
static MOVES: [(u64, u64); 8] = [
    (3, 20),
    (20, 3),
    (2, 120),
    (120, 2),
    (70, 10),
    (10, 70),
    (0, 132),
    (132, 0),
];

static LINES: [Edit; 8] = [
    Edit::Replace(1, 5),
    Edit::Insert(0, 4),
    Edit::Insert(40, 3),
    Edit::Remove(3),
    Edit::Insert(130, 2),
    Edit::Insert(64, 8),
    Edit::Replace(131, 9),
    Edit::Replace(50, -3),
];

// Makes the edits, after which there are 133 inputs and all pieces are this number, and then the moves, after which they are so again.
fn change_all<S: Steps>(
    rt: &(impl Abort + AllocGlobal),
    pages: &mut Pages<S>,
    want: u64,
) -> Result<(), Fail> {
    make_all(rt, pages, &FIRST)?;
    make_all(rt, pages, &LINES)?;
    assert_eq!(rt; digest(pages), (133, want));
    move_all(rt, pages, &MOVES)?;
    assert_eq!(rt; digest(pages), (133, want));
    Ok(())
}

// The input of this number after these edits of 130 inputs 1; none for the negative number.
fn value_after(i: u64) -> Option<u64> {
    match i {
        0 => Some(4),
        2 => Some(5),
        39 => Some(3),
        50 => None,
        64 => Some(8),
        131 => Some(9),
        _ => Some(1),
    }
}

#[test]
fn sums_again(rt: HostRuntime) -> Result<(), Fail> {
    let alloc = rt.alloc();
    let mut pages = start_again(alloc, Sums { alloc, count: 0 }, 114)?;
    let mut sum: u64 = 0;
    let mut want = mix_silence(0);
    for i in 0..133u64 {
        sum = sum.wrapping_add(value_after(i).unwrap_or(0));
        want = mix_digit(want, sum);
    }
    change_all(&rt, &mut pages, mix_silence(want))
}

#[test]
fn digits_again(rt: HostRuntime) -> Result<(), Fail> {
    let alloc = rt.alloc();
    let mut pages = start_again(alloc, Digits { alloc, count: 0 }, 114)?;
    let mut want = mix_silence(0);
    for i in 0..133u64 {
        want = match value_after(i) {
            Some(n) => mix_digit(want, n),
            None => mix_silence(want),
        };
    }
    change_all(&rt, &mut pages, mix_silence(want))
}

#[test]
fn largest_again(rt: HostRuntime) -> Result<(), Fail> {
    let alloc = rt.alloc();
    let mut pages = start_again(alloc, Largest { alloc, count: 0 }, 114)?;
    let mut most: u64 = 0;
    let mut want = mix_fields(0, b"[", b"", Last::Falsy, false);
    for i in 0..133u64 {
        want = match value_after(i) {
            Some(n) => {
                most = most.max(n);
                mix_digit(want, most)
            }
            None => mix_fields(want, b"", b"!\n", Last::Nothing, true),
        };
    }
    change_all(&rt, &mut pages, mix_digit(want, most))
}
