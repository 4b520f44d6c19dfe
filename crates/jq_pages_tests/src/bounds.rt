// What the definitions of a change say, computed over a list of numbers.
use crate::shown::Edit;
use jq_pages::Change;
use jv_data::NoMemory;
use std::alloc::Global;

// A sample fold with states.
#[derive(Clone, Copy)]
pub(crate) enum Fold {
    Sums,
    Largest,
}

fn next_state(fold: Fold, state: u64, n: i64) -> u64 {
    match fold {
        Fold::Sums => state.wrapping_add(n.unsigned_abs()),
        Fold::Largest => state.max(n.unsigned_abs()),
    }
}

// The state before each of these numbers from 0 on, and after the last.
pub(crate) fn states(alloc: Global, fold: Fold, values: &[i64]) -> Result<Vec<u64>, NoMemory> {
    let mut all = Vec::new(alloc);
    let mut state: u64 = 0;
    all.push(state)?;
    for n in values {
        state = next_state(fold, state, *n);
        all.push(state)?;
    }
    Ok(all)
}

// The number of an edit, how many inputs it takes out, and how many it puts in.
fn parts(line: Edit) -> (u64, u64, u64) {
    match line {
        Edit::Insert(k, _) => (k, 0, 1),
        Edit::Replace(k, _) => (k, 1, 1),
        Edit::Remove(k) => (k, 1, 0),
    }
}

// The first number after the edit before which the states are equal, or the count of inputs.
pub(crate) fn least_meeting(old: &[u64], new: &[u64], line: Edit) -> u64 {
    let (place, taken, added) = parts(line);
    let first = place.wrapping_add(added);
    for (i, state) in new.iter().enumerate() {
        let q = i as u64;
        let was = q.wrapping_add(taken).wrapping_sub(added);
        if q >= first {
            if let Some(old_state) = old.get(was as usize) {
                if *old_state == *state {
                    return q;
                }
            }
        }
    }
    (new.len() as u64).wrapping_sub(1)
}

// Whether a change and the number of starts keep the bounds.
pub(crate) fn is_within(change: Change, line: Edit, meeting: u64, runs: u64) -> bool {
    let (place, taken, added) = parts(line);
    let end = change.from.wrapping_add(change.put);
    change.from <= place
        && place <= change.from.wrapping_add(64)
        && end <= meeting.wrapping_add(64)
        && change.put.wrapping_add(taken) == change.cut.wrapping_add(added)
        && runs <= meeting.wrapping_sub(place).wrapping_add(129)
}

// An edit that depends on a random number; it is allowed.
pub(crate) fn next_edit(seed: u64, values: &[i64], removing: bool) -> Edit {
    let count = values.len() as u64;
    let place = (seed >> 20) % count.saturating_add(1);
    let number = ((seed >> 40) % 10) as i64;
    let kind = (seed >> 50) % 8;
    if place < count && (kind == 0 || (removing && kind < 6)) {
        Edit::Remove(place)
    } else if place < count && kind < 3 {
        Edit::Replace(place, number)
    } else {
        Edit::Insert(place, number)
    }
}

// The numbers after an edit.
pub(crate) fn edit_values(values: &mut Vec<i64>, line: Edit) -> Result<(), NoMemory> {
    let count = values.len();
    match line {
        Edit::Insert(k, n) => {
            let at = (k as usize).min(count);
            values.insert(at, n)?;
        }
        Edit::Replace(k, n) => {
            if let Some(value) = values.get_mut(k as usize) {
                *value = n;
            }
        }
        Edit::Remove(k) => {
            let at = k as usize;
            if at < count {
                values.remove(at);
            }
        }
    }
    Ok(())
}
