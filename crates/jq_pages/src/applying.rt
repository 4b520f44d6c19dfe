// An edit of the pages. All steps run before anything changes, and what they gave is then put in place without memory.
ghost use Rattle.std.specs.Option.{option_to_list};
ghost use Rattle.std.specs.Prelude.{◌≡◌, ◌<◌, ◌≤◌, ◌^◌, [], ◌∷◌, length, IfOk, OnErr};
ghost use Rattle.jq_pages.specs.Pieces.{piece_view};
ghost use Rattle.jq_pages.specs.private.Cuts.{IsReport};
ghost use Rattle.jq_pages.specs.private.Edits.{changed, changed_in, EditsPages, IsEdit, IsPlainEdit};
ghost use Rattle.jq_pages.specs.private.Groups.{IsIndex, IsSummed};
ghost use Rattle.jq_pages.specs.private.Keeps.{IsKept, IsStored, KeepsPages, KeepsRun};
ghost use Rattle.jq_pages.specs.private.Moves.{IsApplied};
ghost use Rattle.jq_pages.specs.private.Pages.{all_inputs, all_pieces, IsAt, IsFilled, IsFilledBut, IsHeld, IsPlainPaged};
ghost use Rattle.jq_pages.specs.private.Reruns.{count_in};
ghost use Rattle.jq_pages.specs.declared.pieces.Piece.{Piece};

use crate::changes::{Change, Edited};
use crate::cutting::{splices_made, splices_one};
use crate::editing::{Made, run_edit};
use crate::following::kept_after;
use crate::grouping::{Group, add_groups, find, sum_again};
use crate::lists::{piece_slice, slice_of};
use crate::merging::merge;
use crate::page::Page;
use crate::pieces::Piece;
use crate::placing::{drop_empty, exchange, exchange_one, is_closed, measure, pages_after};
use crate::rooms::make_room;
use crate::running::run_one;
use crate::steps::Steps;
use jv_data::{NoMemory, Val};
use std::alloc::Global;

/// What an edit took out of the pages: the removed input, and the old pieces and states in exchange for what was run, or the one old
/// piece.
#[derive(Drop)]
pub(crate) enum Taken<T> {
    Runs(Option<Val>, Made<T>),
    One(Option<Val>, Option<Piece>),
}

// An edit at place `i` of page `j`. It runs this page, and the pages after it up to the first that ends in the state that it had.
pub(crate) fn edit_pages<S: Steps>(
    alloc: Global,
    steps: &mut S,
    head: &Piece,
    first: &S::State,
    groups: &mut Vec<Group>,
    pages: &mut Vec<Page<S::State>>,
    tail: &mut Piece,
    k: usize,
    j: usize,
    i: usize,
    put: Option<Val>,
    cut: usize,
) -> Result<(Edited, Taken<S::State>), NoMemory>
    requires at { IsAt pages.old.items k j i (length (option_to_list put)) cut }
    requires summed { IsSummed groups.old.items pages.old.items }
    requires held { ∥ IsHeld S.seen (S.fold steps.old) (S.seen first.now) pages.old.items tail.old ∥₁ }
    ensures edits { EditsPages S.seen (S.fold steps.old) (S.seen first.now) pages.old.items pages.new.items k (option_to_list put) cut i (S.starts steps.old) (S.starts steps.new) (changed_in result) }
    ensures kept { IsKept S.seen (S.fold steps.old) (S.fold steps.new) (S.seen first.now) groups.new.items pages.new.items tail.new }
    ensures pages { KeepsPages pages.old.items pages.new.items j }
    ensures applied { IfOk result (λ e. IsApplied e.0 e.1 (piece_view head.now) pages.old.items pages.new.items tail.old tail.new j i put cut) }
    ensures unchanged { OnErr result ((pages.new.items ≡ pages.old.items) × (tail.new ≡ tail.old)) }
{
    let page = &pages[j];
    let entry = kept_after::<S>(first, &pages[..j]);
    let new = slice_of(&put);
    let more = new.len();
    let after = pages_after(pages, j);
    let mut made = run_edit(alloc, steps, entry, page, after, i, new, cut)?;
    let last = j + made.runs.len();
    let old = measure(pages, j, last + 1);
    let splices = splices_made(alloc, head, groups, pages, tail, j, &made)?;
    let closed = is_closed(&made.tail);
    let value = exchange(pages, tail, j, i, put, cut, &mut made);
    sum_again(groups, pages, j, last);
    let edited = Edited {
        change: Change {
            from: (k - i) as u64,
            cut: old as u64,
            put: (old + more - cut) as u64,
            closed,
        },
        out: splices.out,
        err: splices.err,
    };
    Ok((edited, Taken::Runs(value, made)))
}

// An edit at place `i` of page `j` if all states are equal: it runs this place alone. `k` is the place in the list.
fn edit_plain<S: Steps>(
    alloc: Global,
    steps: &mut S,
    head: &Piece,
    state: &S::State,
    groups: &mut Vec<Group>,
    pages: &mut Vec<Page<S::State>>,
    k: usize,
    j: usize,
    i: usize,
    put: Option<Val>,
    cut: usize,
) -> Result<(Edited, Taken<S::State>), NoMemory>
    requires at { IsAt pages.old.items k j i (length (option_to_list put)) cut }
    requires summed { IsSummed groups.old.items pages.old.items }
    requires plain { IsPlainPaged S.seen (S.fold steps.old) (S.seen state.now) pages.old.items }
    ensures edit { IsPlainEdit S.seen (S.fold steps.old) (S.seen state.now) pages.old.items pages.new.items k (option_to_list put) cut i (S.starts steps.old) (S.starts steps.new) (changed_in result) }
    ensures kept { KeepsRun S.seen (S.fold steps.old) (S.fold steps.new) (S.seen state.now) groups.new.items pages.new.items }
    ensures pages { KeepsPages pages.old.items pages.new.items j }
    ensures applied { IfOk result (λ e. (p : Piece) → IsApplied e.0 e.1 (piece_view head.now) pages.old.items pages.new.items p p j i put cut) }
    ensures unchanged { OnErr result (pages.new.items ≡ pages.old.items) }
{
    let more = slice_of(&put).len();
    let piece = run_one(steps, state, &put)?;
    let splices = splices_one(alloc, head, groups, pages, j, i, cut, piece_slice(&piece))?;
    let (value, old) = exchange_one(pages, j, i, put, piece, cut);
    sum_again(groups, pages, j, j);
    let edited = Edited {
        change: Change {
            from: k as u64,
            cut: cut as u64,
            put: more as u64,
            closed: false,
        },
        out: splices.out,
        err: splices.err,
    };
    Ok((edited, Taken::One(value, old)))
}

// An edit at place `i` of page `j`, which is place `k` of the list.
pub(crate) fn edit_either<S: Steps>(
    alloc: Global,
    steps: &mut S,
    head: &Piece,
    first: &S::State,
    groups: &mut Vec<Group>,
    pages: &mut Vec<Page<S::State>>,
    tail: &mut Piece,
    k: usize,
    j: usize,
    i: usize,
    put: Option<Val>,
    cut: usize,
) -> Result<(Edited, Taken<S::State>), NoMemory>
    requires at { IsAt pages.old.items k j i (length (option_to_list put)) cut }
    requires summed { IsSummed groups.old.items pages.old.items }
    requires held { ∥ IsHeld S.seen (S.fold steps.old) (S.seen first.now) pages.old.items tail.old ∥₁ }
    ensures edit { IsEdit S.seen (S.fold steps.old) (S.seen first.now) pages.old.items pages.new.items k (option_to_list put) cut i (S.starts steps.old) (S.starts steps.new) (changed_in result) }
    ensures kept { IsKept S.seen (S.fold steps.old) (S.fold steps.new) (S.seen first.now) groups.new.items pages.new.items tail.new }
    ensures pages { KeepsPages pages.old.items pages.new.items j }
    ensures applied { IfOk result (λ e. IsApplied e.0 e.1 (piece_view head.now) pages.old.items pages.new.items tail.old tail.new j i put cut) }
    ensures unchanged { OnErr result ((pages.new.items ≡ pages.old.items) × (tail.new ≡ tail.old)) }
{
    if steps.plain() {
        return edit_plain(alloc, steps, head, first, groups, pages, k, j, i, put, cut);
    }
    edit_pages(
        alloc, steps, head, first, groups, pages, tail, k, j, i, put, cut,
    )
}

// Removes page `j` if it has no input, or joins it to a neighbour if both are small. No input and no piece changes.
pub(crate) fn settle<S: Steps>(
    alloc: Global,
    _steps: &S,
    _first: &S::State,
    groups: &mut Vec<Group>,
    pages: &mut Vec<Page<S::State>>,
    _tail: &Piece,
    j: usize,
)
    requires page { j < length pages.old.items }
    requires index { IsIndex groups.old.items pages.old.items }
    requires held { ∥ IsHeld S.seen (S.fold _steps.now) (S.seen _first.now) pages.old.items _tail.now ∥₁ }
    ensures inputs { all_inputs pages.new.items ≡ all_inputs pages.old.items }
    ensures pieces { all_pieces pages.new.items ≡ all_pieces pages.old.items }
    ensures held { ∥ IsHeld S.seen (S.fold _steps.now) (S.seen _first.now) pages.new.items _tail.now ∥₁ }
    ensures index { IsIndex groups.new.items pages.new.items }
    ensures filled { IsFilledBut j pages.old.items → IsFilled pages.new.items }
{
    drop_empty(groups, pages, j);
    merge(alloc, groups, pages, j);
    add_groups(groups, pages);
}

// The same; then the page is removed if it has no input, or joined to a neighbour if both are small.
fn edit_at<S: Steps>(
    alloc: Global,
    steps: &mut S,
    head: &Piece,
    first: &S::State,
    groups: &mut Vec<Group>,
    pages: &mut Vec<Page<S::State>>,
    tail: &mut Piece,
    k: usize,
    j: usize,
    i: usize,
    put: Option<Val>,
    cut: usize,
) -> Result<Edited, NoMemory>
    requires at { IsAt pages.old.items k j i (length (option_to_list put)) cut }
    requires summed { IsSummed groups.old.items pages.old.items }
    requires held { ∥ IsHeld S.seen (S.fold steps.old) (S.seen first.now) pages.old.items tail.old ∥₁ }
    requires filled { ∥ IsFilledBut j pages.old.items ∥₁ }
    ensures edit { IsEdit S.seen (S.fold steps.old) (S.seen first.now) pages.old.items pages.new.items k (option_to_list put) cut i (S.starts steps.old) (S.starts steps.new) (changed result) }
    ensures report { IfOk result (λ e. IsReport e (piece_view head.now) (all_pieces pages.old.items) (all_pieces pages.new.items) tail.old tail.new) }
    ensures stored { IsStored S.seen (S.fold steps.new) (S.seen first.now) groups.new.items pages.new.items tail.new }
    ensures same { S.fold steps.new ≡ S.fold steps.old }
{
    let result = edit_either(
        alloc, steps, head, first, groups, pages, tail, k, j, i, put, cut,
    );
    settle(alloc, steps, first, groups, pages, tail, j);
    Ok(result?.0)
}

// Replaces an input, or removes it if there is no other.
pub(crate) fn change_at<S: Steps>(
    alloc: Global,
    steps: &mut S,
    head: &Piece,
    first: &S::State,
    groups: &mut Vec<Group>,
    pages: &mut Vec<Page<S::State>>,
    tail: &mut Piece,
    k: usize,
    put: Option<Val>,
) -> Result<Edited, NoMemory>
    requires place { k < count_in pages.old.items }
    requires few { count_in pages.old.items < 2 ^ 32 }
    requires stored { IsStored S.seen (S.fold steps.old) (S.seen first.now) groups.old.items pages.old.items tail.old }
    ensures edit { IsEdit S.seen (S.fold steps.old) (S.seen first.now) pages.old.items pages.new.items k (option_to_list put) 1 64 (S.starts steps.old) (S.starts steps.new) (changed result) }
    ensures report { IfOk result (λ e. IsReport e (piece_view head.now) (all_pieces pages.old.items) (all_pieces pages.new.items) tail.old tail.new) }
    ensures stored { IsStored S.seen (S.fold steps.new) (S.seen first.now) groups.new.items pages.new.items tail.new }
    ensures same { S.fold steps.new ≡ S.fold steps.old }
{
    let (j, i) = find(groups, pages, k);
    edit_at(
        alloc, steps, head, first, groups, pages, tail, k, j, i, put, 1,
    )
}

// Inserts an input.
pub(crate) fn insert_at<S: Steps>(
    alloc: Global,
    steps: &mut S,
    head: &Piece,
    first: &S::State,
    groups: &mut Vec<Group>,
    pages: &mut Vec<Page<S::State>>,
    tail: &mut Piece,
    k: usize,
    value: Val,
) -> Result<Edited, NoMemory>
    requires place { k ≤ count_in pages.old.items }
    requires few { count_in pages.old.items < 2 ^ 32 }
    requires stored { IsStored S.seen (S.fold steps.old) (S.seen first.now) groups.old.items pages.old.items tail.old }
    ensures edit { IsEdit S.seen (S.fold steps.old) (S.seen first.now) pages.old.items pages.new.items k (value ∷ []) 0 64 (S.starts steps.old) (S.starts steps.new) (changed result) }
    ensures report { IfOk result (λ e. IsReport e (piece_view head.now) (all_pieces pages.old.items) (all_pieces pages.new.items) tail.old tail.new) }
    ensures stored { IsStored S.seen (S.fold steps.new) (S.seen first.now) groups.new.items pages.new.items tail.new }
    ensures same { S.fold steps.new ≡ S.fold steps.old }
{
    let (j, i) = make_room(alloc, steps, first, groups, pages, k)?;
    edit_at(
        alloc,
        steps,
        head,
        first,
        groups,
        pages,
        tail,
        k,
        j,
        i,
        Some(value),
        0,
    )
}
