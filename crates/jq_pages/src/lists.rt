// Lists: optional elements as slices, and changes that need no memory.
ghost use Rattle.std.specs.Prelude.{◌≡◌, ◌+◌, ◌<◌, ◌≤◌, [], ◌++◌, length, take, drop, vec_capacity, slice_index_or, None};
ghost use Rattle.std.specs.Option.{option_to_list};

use crate::pieces::Piece;
use jv_data::Val;
use std::mem;

// The input that an edit puts in, if there is one, as a slice.
pub(crate) fn slice_of(put: &Option<Val>) -> &[Val]
    ensures { result.now ≡ option_to_list put.now }
{
    put.as_slice()
}

// A piece, if there is one, as a slice.
pub(crate) fn piece_slice(piece: &Option<Piece>) -> &[Piece]
    ensures { result.now ≡ option_to_list piece.now }
{
    piece.as_slice()
}

// Moves the elements from a place on to a list that has room for them.
pub(crate) fn move_tail<A: Drop>(from: &mut Vec<A>, to: &mut Vec<A>, at: usize)
    requires place { at ≤ length from.old.items }
    requires empty { to.old.items ≡ [] }
    requires room { length from.old.items ≤ vec_capacity to.old }
    ensures first { from.new.items ≡ take at from.old.items }
    ensures last { to.new.items ≡ drop at from.old.items }
{
    let more = from.len() - at;
    for _i in 0..more {
        if let Some(x) = from.pop() {
            let _ = to.insert(0, x);
        }
    }
}

// Inserts an element, if there is one.
fn put_in<A: Drop>(list: &mut Vec<A>, i: usize, put: Option<A>)
    requires place { i ≤ length list.old.items }
    requires room { length list.old.items + 1 ≤ vec_capacity list.old }
    ensures { list.new.items ≡ (take i list.old.items ++ option_to_list put) ++ drop i list.old.items }
{
    if let Some(value) = put {
        let _ = list.insert(i, value);
    }
}

// Replaces an element, or removes it if there is no other. It gives the old one.
fn change_one<A: Drop>(list: &mut Vec<A>, i: usize, put: Option<A>) -> A
    requires place { i < length list.old.items }
    ensures taken { result ≡ slice_index_or list.old.items i result }
    ensures room { put ≡ None → length list.new.items + 1 ≤ vec_capacity list.new }
    ensures items { list.new.items ≡ (take i list.old.items ++ option_to_list put) ++ drop (i + 1) list.old.items }
{
    match put {
        Some(value) => mem::replace(&mut list[i], value),
        None => list.remove(i),
    }
}

// Removes `cut` elements at a place and inserts one there, if there is one. The elements stay in their list, which has room for an
// insertion. It gives the removed one.
pub(crate) fn edit_list<A: Drop>(
    list: &mut Vec<A>,
    i: usize,
    put: Option<A>,
    cut: usize,
) -> Option<A>
    requires cut { cut ≤ 1 }
    requires place { i + cut ≤ length list.old.items }
    requires room { cut ≡ 0 → length list.old.items + 1 ≤ vec_capacity list.old }
    ensures taken { option_to_list result ≡ take cut (drop i list.old.items) }
    ensures room { cut ≡ 1 → put ≡ None → length list.new.items + 1 ≤ vec_capacity list.new }
    ensures items { list.new.items ≡ (take i list.old.items ++ option_to_list put) ++ drop (i + cut) list.old.items }
{
    if cut == 0 {
        put_in(list, i, put);
        None
    } else {
        Some(change_one(list, i, put))
    }
}

// Adds the elements of another list at the end. All move to `room`.
pub(crate) fn append_list<A: Drop>(list: &mut Vec<A>, mut room: Vec<A>, mut others: Vec<A>)
    requires empty { room.items ≡ [] }
    requires room { length list.old.items + length others.items ≤ vec_capacity room }
    ensures { list.new.items ≡ list.old.items ++ others.items }
{
    let _ = room.append(list);
    let _ = room.append(&mut others);
    *list = room;
}
