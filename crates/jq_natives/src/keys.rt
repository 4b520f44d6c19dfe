// Counts as numbers, and the keys of a value's parts.
ghost use Rattle.std.specs.Prelude.{◌≡◌, ◌≤◌, ◌^◌, IfOk, OnErr, map};
ghost use Rattle.std.specs.List.{range_with_len};
ghost use Rattle.jv_data.specs.Held.{members_in};
ghost use Rattle.jv_data.specs.Value.{keys, string};
ghost use Rattle.jv_data.specs.View.{view};
ghost use Rattle.jq_natives.specs.Answers.{count};

use jv_data::{NoMemory, Object, Val};
use std::alloc::{AllocError, Global};

/// The keys of an object, as strings and in their order (manual of jq 1.7, "keys, keys_unsorted").
pub fn names(alloc: Global, members: &Object<Val>) -> Result<Vec<Val>, AllocError>
    ensures { IfOk result (λ v. map view v.items ≡ map string (keys (members_in members.now))) }
{
    let mut names = Vec::with_capacity(alloc, members.len())?;
    for (key, _) in members.iter() {
        names.push(Val::from_text(alloc, key.as_str())?)?;
    }
    Ok(names)
}

/// The indices of an array of this length, as numbers (manual of jq 1.7, "keys, keys_unsorted"). Out of memory if an index is
/// 2^63 or more.
pub fn places(alloc: Global, length: usize) -> Result<Vec<Val>, NoMemory>
    ensures { IfOk result (λ v. map view v.items ≡ map count (range_with_len 0 length)) }
{
    let mut places = Vec::with_capacity(alloc, length)?;
    for place in 0..length {
        places.push(count(place)?)?;
    }
    Ok(places)
}

/// A count as a number. Out of memory if the count is 2^63 or more, which no memory can hold.
pub fn count(length: usize) -> Result<Val, NoMemory>
    ensures value { IfOk result (λ v. view v ≡ count length) }
    ensures fails { OnErr result (2 ^ 63 ≤ length) }
{
    match i64::try_from(length) {
        Ok(length) => Ok(Val::Num(length)),
        Err(_) => Err(NoMemory),
    }
}
