// A client that applies the splices of the accepted edits, and totals that are counted over all pieces.
use crate::samples::{Digits, Largest, Sums};
use crate::shown::{Edit, complained, make_edit, over, shown, written};
use jq_pages::{Edited, Last, Pages, Piece, Refusal, Splice, Steps, Totals};
use jv_data::NoMemory;
use std::alloc::Global;
use std::process::Abort;
use std::test::Fail;

// What a client has.
#[derive(Drop)]
pub(crate) struct Client {
    pub(crate) out: Vec<u8>,
    pub(crate) err: Vec<u8>,
}

pub(crate) fn client_of<S: Steps>(alloc: Global, pages: &Pages<S>) -> Result<Client, NoMemory> {
    Ok(Client {
        out: written(alloc, pages)?,
        err: complained(alloc, pages)?,
    })
}

// A position in some bytes, or their end.
fn position(at: u128, bytes: &[u8]) -> usize {
    let count = bytes.len();
    if at < count as u128 {
        at as usize
    } else {
        count
    }
}

// The bytes after a splice.
fn spliced(alloc: Global, bytes: &[u8], splice: &Splice) -> Result<Vec<u8>, NoMemory> {
    let mut new = Vec::new(alloc);
    for byte in bytes.iter().take(position(splice.at, bytes)) {
        new.push(*byte)?;
    }
    new.extend_from_slice(&splice.put)?;
    let end = splice.at.wrapping_add(splice.cut);
    for byte in bytes.iter().skip(position(end, bytes)) {
        new.push(*byte)?;
    }
    Ok(new)
}

// What the client has after an edit.
pub(crate) fn follow(alloc: Global, client: &Client, edited: &Edited) -> Result<Client, NoMemory> {
    Ok(Client {
        out: spliced(alloc, &client.out, &edited.out)?,
        err: spliced(alloc, &client.err, &edited.err)?,
    })
}

// Whether the client has what the pieces write.
pub(crate) fn is_current<S: Steps>(
    alloc: Global,
    client: &Client,
    pages: &Pages<S>,
) -> Result<bool, NoMemory> {
    let now = client_of(alloc, pages)?;
    let is_same = client.out.as_slice() == now.out.as_slice();
    Ok(is_same && client.err.as_slice() == now.err.as_slice())
}

// Whether the pages say what others say, those of a start over the same inputs.
pub(crate) fn is_same<S: Steps>(
    alloc: Global,
    pages: &Pages<S>,
    others: &Pages<S>,
) -> Result<bool, NoMemory> {
    let is_counted = pages.len() == others.len() && pages.totals() == others.totals();
    Ok(is_counted && is_current(alloc, &client_of(alloc, others)?, pages)?)
}

fn add(totals: Totals, piece: &Piece) -> Totals {
    Totals {
        out: totals.out.wrapping_add(piece.out.len() as u128),
        err: totals.err.wrapping_add(piece.err.len() as u128),
        failed: totals.failed.wrapping_add(if piece.failed { 1 } else { 0 }),
        last: if piece.last == Last::Nothing {
            totals.last
        } else {
            piece.last
        },
        halt: if totals.halt.is_none() {
            piece.halt
        } else {
            totals.halt
        },
    }
}

// The totals, counted over all pieces.
fn counted<S: Steps>(pages: &Pages<S>) -> Totals {
    let mut totals = Totals {
        out: 0,
        err: 0,
        failed: 0,
        last: Last::Nothing,
        halt: None,
    };
    totals = add(totals, pages.head());
    for i in 0..pages.len() {
        if let Some(piece) = pages.piece(i) {
            totals = add(totals, piece);
        }
    }
    add(totals, pages.tail())
}

// Whether the pages have the output of the pieces.
fn is_paged<S: Steps>(alloc: Global, pages: &Pages<S>) -> Result<bool, NoMemory> {
    let mut out = Vec::new(alloc);
    for j in 0..pages.page_count() {
        for piece in pages.page(j) {
            out.extend_from_slice(&piece.out)?;
        }
    }
    Ok(out.as_slice() == shown(alloc, pages)?.as_slice())
}

// An edit that depends on a random number; it is allowed.
fn any_edit(seed: u64, count: u64, removing: bool) -> Edit {
    let place = (seed >> 20) % count.saturating_add(1);
    let number = (((seed >> 40) % 140) as i64).wrapping_sub(20);
    let kind = (seed >> 50) % 8;
    if place < count && (kind == 0 || (removing && kind < 6)) {
        Edit::Remove(place)
    } else if place < count && kind < 3 {
        Edit::Replace(place, number)
    } else {
        Edit::Insert(place, number)
    }
}

// Makes an edit. A client that applies the splices has what the pieces have.
fn check_edit<S: Steps>(
    rt: &(impl Abort + AllocGlobal),
    pages: &mut Pages<S>,
    client: &Client,
    line: Edit,
) -> Result<Client, Fail> {
    let edited = make_edit(pages, line)?;
    assert_eq!(rt; pages.totals(), counted(pages), "{line:?}");
    assert!(rt; is_paged(rt.alloc(), pages)?, "{line:?}");
    let client = follow(rt.alloc(), client, &edited)?;
    assert!(rt; is_current(rt.alloc(), &client, pages)?, "{line:?}");
    Ok(client)
}

// Many edits, more insertions at first and more removals later.
fn follows<S: Steps>(rt: &(impl Abort + AllocGlobal), pages: &mut Pages<S>) -> Result<(), Fail> {
    let mut client = client_of(rt.alloc(), pages)?;
    let mut seed: u64 = 7;
    for round in 0..700u64 {
        seed = seed
            .wrapping_mul(6364136223846793005)
            .wrapping_add(1442695040888963407);
        let line = any_edit(seed, pages.len(), round > 350);
        client = check_edit(rt, pages, &client, line)?;
    }
    Ok(())
}

#[test]
fn splices_of_sums(rt: HostRuntime) -> Result<(), Fail> {
    let mut pages: Pages<Sums> = over(rt.alloc(), &[])?;
    follows(&rt, &mut pages)
}

#[test]
fn splices_of_digits(rt: HostRuntime) -> Result<(), Fail> {
    let mut pages: Pages<Digits> = over(rt.alloc(), &[])?;
    follows(&rt, &mut pages)
}

#[test]
fn splices_of_the_largest(rt: HostRuntime) -> Result<(), Fail> {
    let mut pages: Pages<Largest> = over(rt.alloc(), &[])?;
    follows(&rt, &mut pages)
}

fn check_splice(
    rt: &(impl Abort + AllocGlobal),
    splice: &Splice,
    (at, cut): (u128, u128),
    put: &[u8],
) {
    assert_eq!(rt; (splice.at, splice.cut), (at, cut));
    assert_eq!(rt; splice.put.as_slice(), put);
}

fn check_totals(
    rt: &impl Abort,
    totals: Totals,
    (out, err, failed): (u128, u128, u64),
    halt: Option<u8>,
) {
    assert!(rt; totals.out == out && totals.err == err && totals.failed == failed);
    assert!(rt; totals.last == Last::Truthy && totals.halt == halt);
}

// The splices of one edit go over the pieces that it changes, and no further.
#[test]
fn splices_are_small(rt: HostRuntime) -> Result<(), Fail> {
    let mut pages: Pages<Digits> = over(rt.alloc(), &[1, -2, 3, 130, 4])?;
    check_totals(&rt, pages.totals(), (3, 0, 0), Some(130));
    let edited = make_edit(&mut pages, Edit::Replace(2, 7))?;
    check_splice(&rt, &edited.out, (1, 1), b"7");
    check_splice(&rt, &edited.err, (0, 0), b"");
    check_splice(&rt, &pages.remove(0)?.out, (0, 1), b"");
    assert_eq!(&rt; pages.remove(9).err(), Some(Refusal::NoPlace));
    Ok(())
}

// Failures are counted, and the last output is that of `close`.
#[test]
fn totals_of_failures(rt: HostRuntime) -> Result<(), Fail> {
    let mut pages: Pages<Largest> = over(rt.alloc(), &[1, -2, -3])?;
    check_totals(&rt, pages.totals(), (3, 4, 2), None);
    let edited = make_edit(&mut pages, Edit::Replace(1, 5))?;
    assert!(&rt; edited.err.cut == 4 && edited.err.put.len() == 2);
    assert_eq!(&rt; pages.totals().failed, 1);
    Ok(())
}
