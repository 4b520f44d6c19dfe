// What tests compare.
use crate::samples::{Digits, Largest, Sums};
use jq_pages::{Change, Edited, Pages, Refusal, Steps};
use jv_data::{NoMemory, Val};
use std::alloc::Global;

// The pieces of all inputs, one after the other.
pub(crate) fn shown<S: Steps>(alloc: Global, pages: &Pages<S>) -> Result<Vec<u8>, NoMemory> {
    let mut out = Vec::new(alloc);
    for i in 0..pages.len() {
        if let Some(piece) = pages.piece(i) {
            out.extend_from_slice(&piece.out)?;
        }
    }
    Ok(out)
}

// The numbers among the inputs, page by page.
pub(crate) fn inputs_of<S: Steps>(alloc: Global, pages: &Pages<S>) -> Result<Vec<i64>, NoMemory> {
    let mut all = Vec::new(alloc);
    for j in 0..pages.page_count() {
        for value in pages.inputs(j) {
            if let Val::Num(n) = value {
                all.push(*n)?;
            }
        }
    }
    Ok(all)
}

// What the fold wrote: the pieces of `begin`, of all inputs and of `close`.
pub(crate) fn written<S: Steps>(alloc: Global, pages: &Pages<S>) -> Result<Vec<u8>, NoMemory> {
    let mut out = Vec::new(alloc);
    out.extend_from_slice(&pages.head().out)?;
    out.extend_from_slice(&shown(alloc, pages)?)?;
    out.extend_from_slice(&pages.tail().out)?;
    Ok(out)
}

// The errors of all pieces.
pub(crate) fn complained<S: Steps>(alloc: Global, pages: &Pages<S>) -> Result<Vec<u8>, NoMemory> {
    let mut err = Vec::new(alloc);
    err.extend_from_slice(&pages.head().err)?;
    for i in 0..pages.len() {
        if let Some(piece) = pages.piece(i) {
            err.extend_from_slice(&piece.err)?;
        }
    }
    err.extend_from_slice(&pages.tail().err)?;
    Ok(err)
}

// The old list after a change, with what the change puts in taken from the new one.
pub(crate) fn applied(
    alloc: Global,
    old: &[u8],
    new: &[u8],
    change: Change,
) -> Result<Vec<u8>, NoMemory> {
    let mut out = Vec::new(alloc);
    for byte in old.iter().take(change.from as usize) {
        out.push(*byte)?;
    }
    for byte in new
        .iter()
        .skip(change.from as usize)
        .take(change.put as usize)
    {
        out.push(*byte)?;
    }
    for byte in old
        .iter()
        .skip(change.from.wrapping_add(change.cut) as usize)
    {
        out.push(*byte)?;
    }
    Ok(out)
}

pub(crate) fn numbers(alloc: Global, values: &[i64]) -> Result<Vec<Val>, NoMemory> {
    let mut inputs = Vec::new(alloc);
    for n in values {
        inputs.push(Val::Num(*n))?;
    }
    Ok(inputs)
}

// As many inputs 1.
pub(crate) fn ones(alloc: Global, count: usize) -> Result<Vec<Val>, NoMemory> {
    let mut inputs = Vec::new(alloc);
    for _ in 0..count {
        inputs.push(Val::Num(1))?;
    }
    Ok(inputs)
}

#[derive(Clone, Copy, Debug)]
pub(crate) enum Edit {
    Insert(u64, i64),
    Replace(u64, i64),
    Remove(u64),
}

// Starts, without the steps that a refused start gives back.
pub(crate) fn start<S: Steps>(
    alloc: Global,
    steps: S,
    inputs: Vec<Val>,
) -> Result<Pages<S>, Refusal> {
    match Pages::start(alloc, steps, inputs) {
        Ok(pages) => Ok(pages),
        Err(refused) => Err(refused.refusal),
    }
}

// A sample fold that has started no step.
pub(crate) trait Sample: Steps {
    fn sample(alloc: Global) -> Self;
}

impl Sample for Sums {
    fn sample(alloc: Global) -> Sums {
        Sums { alloc, count: 0 }
    }
}

impl Sample for Digits {
    fn sample(alloc: Global) -> Digits {
        Digits { alloc, count: 0 }
    }
}

impl Sample for Largest {
    fn sample(alloc: Global) -> Largest {
        Largest { alloc, count: 0 }
    }
}

// A sample fold over these numbers.
pub(crate) fn over<S: Sample>(alloc: Global, values: &[i64]) -> Result<Pages<S>, Refusal> {
    start(alloc, S::sample(alloc), numbers(alloc, values)?)
}

pub(crate) fn make_edit<S: Steps>(pages: &mut Pages<S>, line: Edit) -> Result<Edited, Refusal> {
    match line {
        Edit::Insert(k, n) => pages.insert(k, Val::Num(n)),
        Edit::Replace(k, n) => pages.replace(k, Val::Num(n)),
        Edit::Remove(k) => pages.remove(k),
    }
}

// The fields of a `Change`: from where, how many pieces are taken out and put in, and whether `close` was run again.
pub(crate) type Changed = (u64, u64, u64, bool);

// Makes an edit, and says which pieces it changed.
pub(crate) fn changed<S: Steps>(pages: &mut Pages<S>, line: Edit) -> Result<Changed, Refusal> {
    match make_edit(pages, line) {
        Ok(edited) => {
            let change = edited.change;
            Ok((change.from, change.cut, change.put, change.closed))
        }
        Err(refusal) => Err(refusal),
    }
}
